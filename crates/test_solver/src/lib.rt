// The solver for any lent lists: what it asks for is tested first. Only tests use it.
#![tactic(auto)]

mod checked;
mod lists;
mod supplies;

pub use checked::{Refusal, Slices, try_solve};
pub use lists::{Lists, Malformed};
pub use supplies::balanced;
