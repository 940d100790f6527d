// Excess and potential of a node.
ghost use Rattle.std.specs.Prelude.{◌≡◌, ◌^◌, ◌<◌, ◌≤◌, length, unsigned_abs};

/// What a node still has in excess (a deficit, where it is below 0), and its potential.
#[derive(Clone, Copy, PartialEq, Eq, Debug, Default)]
pub struct Node {
    pub excess: i64,
    pub potential: i64,
}

ghost use Rattle.net_graph.specs.Node.{excess_of, Given};

/// Gives node `v` so much more in excess.
pub fn add_excess(nodes: &mut [Node], v: usize, d: i64)
    requires node { v < length nodes.old }
    requires small { unsigned_abs (excess_of nodes.old v) ≤ 2 ^ 62 }
    requires small_change { unsigned_abs d < 2 ^ 62 }
    ensures len { length nodes.new ≡ length nodes.old }
    ensures given { Given nodes.old nodes.new v d }
{
    nodes[v].excess += d;
}
