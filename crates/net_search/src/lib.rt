// Shortest paths by reduced costs, to the nearest node with a deficit.
#![tactic(auto)]

mod label;
mod lists;
mod search;

pub use label::{INFINITY, Label};
pub use search::Search;
