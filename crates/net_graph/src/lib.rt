// Networks with arcs in pairs, flows in them, residual capacities and reduced costs.
#![tactic(auto)]

mod arc;
mod flow;
mod network;
mod node;

pub use arc::Arc;
pub use flow::{Flow, add};
pub use network::Network;
pub use node::{Node, add_excess};
