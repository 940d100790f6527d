// Printing: rows of numbers, costs and signs.
#![tactic(auto)]

pub mod answer;
pub mod back;
pub mod heights;
pub mod rows;
pub mod signs;
