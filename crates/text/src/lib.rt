// Documents: what a text says, line by line.
#![tactic(auto)]

pub mod document;
pub mod draft;
pub mod picture;
pub mod section;
