// Edges between nodes.
ghost use Rattle.std.specs.Prelude.{◌^◌, ◌≤◌, length};
ghost use Rattle.net_build.specs.Ends.{from_of, to_of};
ghost use Rattle.net_build.specs.Slots.{Between};

/// An edge: its ends, and the cost of a unit and the limit in each direction.
#[derive(Clone, Copy, PartialEq, Eq, Debug, Default)]
pub struct Edge {
    pub from: usize,
    pub to: usize,
    pub cost: i64,
    pub reverse_cost: i64,
    pub limit: i64,
    pub reverse_limit: i64,
}

/// Edges between so many nodes.
#[derive(Clone, Copy)]
pub struct EdgeList<'a> {
    pub nodes: usize,
    pub edges: &'a [Edge],
    ghost few: { length edges.now ≤ 2 ^ 31 },
    ghost between: { Between (from_of edges.now) (to_of edges.now) (length edges.now) nodes },
}
