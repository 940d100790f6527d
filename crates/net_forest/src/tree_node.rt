// Where a node stands in a forest.

/// Where a node stands: the root of its tree, the arc that leads to it from its parent (any, of a root), and its place in the order
/// in which nodes were found, or the number of all nodes where it was not.
#[derive(Clone, Copy, PartialEq, Eq, Debug, Default)]
pub struct TreeNode {
    pub root: usize,
    pub pred: usize,
    pub place: usize,
}
