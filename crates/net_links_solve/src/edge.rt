// Links as edges.
ghost use Rattle.std.specs.Prelude.{◌^◌, ◌≤◌, unsigned_abs, pos};
ghost use Rattle.net_links_solve.specs.Link.{IsLink};

use net_build::Edge;

/// A link as an edge of its network: the number of node `to` is expected to lie `low` up to `high` above that of node `from`, and each
/// by which it lies beyond costs `price`.
pub fn link(from: usize, to: usize, low: i64, high: i64, price: u64) -> Edge
    requires low { unsigned_abs low ≤ 2 ^ 30 }
    requires price { price ≤ 2 ^ 59 }
    ensures { IsLink result from to low high price }
{
    let limit = price as i64;
    Edge {
        from,
        to,
        cost: high,
        reverse_cost: -low,
        limit,
        reverse_limit: limit,
    }
}

/// A link from a node to itself that costs nothing whatever the numbers: it keeps a place in a list where no two nodes are linked.
pub fn self_link(node: usize, price: u64) -> Edge
    requires { price ≤ 2 ^ 59 }
    ensures { IsLink result node node (pos 0) (pos 0) price }
{
    link(node, node, 0, 0, price)
}
