// Turns that cost least, by the flow between squares, in rooms that are lent.
#![tactic(auto)]

mod lists;
mod turns;

pub use lists::Lists;
pub use turns::{comes_back, cross_steps, expect_steps};
