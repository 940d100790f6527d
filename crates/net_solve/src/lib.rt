// Cheapest flows that meet supplies, by successive shortest paths.
#![tactic(auto)]

mod augment;
mod infeasible;
mod initial;
mod path;
mod solver;

pub use infeasible::{Infeasible, always_feasible};
pub use initial::start;
pub use solver::{solve, solve_from, solve_in};
