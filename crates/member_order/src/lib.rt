// The bytes that the chars of a string stand for; and the members of an object in the order of their names, of a repeated one the last.
#![tactic(auto)]

mod codes;
pub mod compare;
pub mod names;
pub mod sort;
