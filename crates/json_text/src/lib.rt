// What a JSON text is made of (RFC 8259): where a string, a number, a literal or a member's name that begins at a place ends: the place
// behind it, or nowhere (None), where it is not what it should be.
#![tactic(auto)]

pub mod bytes;
pub mod names;
pub mod numbers;
pub mod strings;
