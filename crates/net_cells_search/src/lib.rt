// Searches for cheapest ways out of a cell, which learn: what they find out lowers potentials, whether they found an end or not.
#![tactic(auto)]

mod lower;
mod marks;
mod queue;
mod room;

pub use queue::{Entry, Queue};
pub use room::Room;
