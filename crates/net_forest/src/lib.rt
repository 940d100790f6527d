// Spanning forests of the arcs that cost nothing.
#![tactic(auto)]

mod tree_node;
mod trees;

pub use tree_node::TreeNode;
pub use trees::spanning_forest;
