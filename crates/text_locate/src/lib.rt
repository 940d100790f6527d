// Where something stands in a text, found by going over it again: nothing is kept for that while it is read.
#![tactic(auto)]

pub mod column;
pub mod place;
pub mod word;
