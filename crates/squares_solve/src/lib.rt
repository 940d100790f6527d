// The cheapest flow between the squares of expected steps.
#![tactic(auto)]

mod cost;
mod flows;
mod solver;
mod start;

pub use cost::flow_cost;
pub use flows::add_flows;
pub use solver::{Room, solve};
