// Waves: excess is pushed by levels along arcs of reduced cost 0, as by push-relabel, and potentials are lowered where nothing more
// can be pushed. All this is advice: contracts say that a sound state stays sound with the same supplies, and nothing of how far it comes.
#![tactic(auto)]

mod levels;
mod lower;
mod push;
mod queue;
mod slices;
mod solve;
mod waves;

pub use queue::Queue;
pub use slices::{Height, Tight, WaveSlices};
pub use solve::solve_by_waves;
pub use waves::push_waves;
