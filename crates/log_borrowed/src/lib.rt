// The log's borrowed forms: the head lent and changed in place, and a view of the log's keys.
#![tactic(auto)]

pub mod lent;
pub mod view;
