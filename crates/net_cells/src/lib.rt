// Cells with four ways out of each, a flow over the edges between them, and what a search of cheapest ways knows of them.
#![tactic(auto)]

mod cell;
mod side;
mod way;

pub use cell::{Cell, Costs, FAR, Flows, Mark};
pub use side::{Side, excess_at, lacks, potential_at, signed, signed_flow};
pub use way::Way;
