// Fields of wrapped numbers: places, steps, and what is expected of a step.
#![tactic(auto)]

pub mod field;
pub mod rows;
pub mod steps;
pub mod theorems;
