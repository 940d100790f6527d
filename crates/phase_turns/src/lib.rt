// Turns of a field: what is expected of its steps, their residues, turns that follow steps, and what turns cost.
#![tactic(auto)]

pub mod cost;
pub mod expect;
pub mod follow;
pub mod residue;
pub mod steps;
