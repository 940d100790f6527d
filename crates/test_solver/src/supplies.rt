// Supplies that a flow can be asked to meet.
ghost use Rattle.std.specs.Prelude.{◌≡◌, ◌^◌, ◌≤◌, ◌↔◌, length, pos, ◌≤ℤ◌, IsTrue, unsigned_abs};
ghost use borrow.Author.Differences.{up};
ghost use Rattle.net_graph.specs.Node.{excess_of};
ghost use Rattle.net_solve.specs.Promise.{Balanced};

use net_graph::Node;

// The supply of a node with `e` in excess, and the demand of one with `-e`.
fn given(e: i64) -> i64
    requires { unsigned_abs e ≤ 2 ^ 59 }
    ensures value { result ≡ pos (up e) }
    ensures low { pos 0 ≤ℤ result }
    ensures high { result ≤ℤ pos (2 ^ 59) }
{
    e.max(0)
}

/// Whether the supplies, which the nodes have in excess, add up to 0, and are at most 2 ^ 59 in all.
pub fn balanced(nodes: &[Node]) -> bool
    ensures { IsTrue result ↔ Balanced (length nodes.now) (excess_of nodes.now) }
{
    let most = 1 << 59;
    let mut gives = 0;
    let mut taken = 0;
    for node in nodes {
        let e = node.excess;
        if e.unsigned_abs() > 1 << 59 {
            return false;
        }
        gives += given(e);
        taken += given(-e);
        if gives > most || taken > most {
            return false;
        }
    }
    gives == taken
}
