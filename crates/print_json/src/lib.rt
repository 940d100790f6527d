// Answers, and why there are none, as JSON.
#![tactic(auto)]

pub mod answer;
pub mod refused;
pub mod rows;
