// Cells and their costs for the squares of expected steps.
#![tactic(auto)]

mod cells;
mod costs;
mod steps;

pub use steps::Steps;
