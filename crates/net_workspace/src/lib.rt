// What a cheapest flow along edges is worked out on, lent or owned.
#![tactic(auto)]

mod buffers;
mod workspace;

pub use buffers::Buffers;
pub use workspace::Workspace;
