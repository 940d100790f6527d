// What is lent and worked on: whether it is taken as a field, or why it is refused.
#![tactic(auto)]

pub mod input;
pub mod refusal;
pub mod take;
pub mod theorems;
