// Networks from lists of edges: the arcs of edges, grouped by their tails.
#![tactic(auto)]

mod arcs;
mod counting_sort;
mod edge;
mod theorems;

pub use arcs::ArcLists;
pub use counting_sort::build;
pub use edge::{Edge, EdgeList};
pub use theorems::{arcs_are_edges, grouped_is_network};
