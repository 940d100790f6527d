// The cheapest flow between cells: what some have in excess goes to those that lack it, or outside, along cheapest ways.
#![tactic(auto)]

mod augment;
mod flow;
mod rounds;
mod walk;

pub use rounds::{pass, settle};
