// Lines: what one says by itself, or why it can't be read.
#![tactic(auto)]

pub mod flaw;
pub mod kind;
