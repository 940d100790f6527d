// One direction of an edge.

/// An arc from `tail` to `head`, which takes up to `limit` at `cost` a unit. Its `pair` is the number of the arc that is the same edge
/// in the other direction.
#[derive(Clone, Copy, PartialEq, Eq, Debug, Default)]
pub struct Arc {
    pub tail: usize,
    pub head: usize,
    pub pair: usize,
    pub cost: i64,
    pub limit: i64,
}
