// The market's moves on a store and an output list: each takes how many records the list has and answers how many it has then.
// The three stay three arguments: a struct of two lent lists and a count would be taken apart and made anew at each call, and read no plainer.
#![tactic(auto)]

pub mod entering;
pub mod lining_up;
pub mod reads;
