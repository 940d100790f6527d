// Lists of links.
ghost use Rattle.std.specs.Prelude.{◌≡◌, ◌^◌, ◌≤◌, ◌↔◌, length, All, IsTrue, IfOk, OnErr};
ghost use Rattle.sums.specs.Sum.{sum_to};
ghost use Rattle.net_links_flow.specs.Network.{FitLinks};
ghost use Rattle.net_links_solve.specs.Link.{AreLinks, links_of};
ghost use Rattle.net_links_solve.specs.Fit.{FitLink, FitList};

use net_build::Edge;

/// Links between so many nodes, as the edges that `link` makes of them.
#[derive(Clone, Copy)]
pub struct LinkList<'a> {
    pub nodes: usize,
    pub edges: &'a [Edge],
    ghost links: { AreLinks edges.now },
    ghost fit: { FitLinks (links_of edges.now) nodes },
}

/// Edges that are no links, or of which no network can be made: an end that is no node, more than is expected below less, numbers out
/// of range, or prices that add up to more than 2^59.
#[derive(Clone, Copy, PartialEq, Eq, Debug)]
pub struct UnfitLinks;

// Whether an edge is a link between so many nodes, in range.
fn is_fit(nodes: usize, edge: &Edge) -> bool
    ensures { IsTrue result ↔ FitLink nodes edge.now }
{
    edge.cost.unsigned_abs() <= 1 << 30
        && edge.reverse_cost.unsigned_abs() <= 1 << 30
        && edge.limit >= 0
        && edge.reverse_limit == edge.limit
        && edge.from < nodes
        && edge.to < nodes
        && -edge.reverse_cost <= edge.cost
}

// Whether all edges are.
fn all_fit(nodes: usize, edges: &[Edge]) -> bool
    ensures { IsTrue result ↔ All (FitLink nodes) edges.now }
{
    edges.iter().all(|edge| is_fit(nodes, edge))
}

// Whether the prices of links add up to no more than 2^59.
fn prices_fit(edges: &[Edge]) -> bool
    requires { AreLinks edges.now }
    ensures { IsTrue result ↔ (sum_to (length edges.now) (links_of edges.now).price ≤ 2 ^ 59) }
{
    let mut sum = 0;
    for edge in edges {
        if edge.limit > (1 << 59) - sum {
            return false;
        }
        sum += edge.limit;
    }
    true
}

impl<'a> LinkList<'a> {
    /// These edges, if they are links of which a network can be made.
    pub fn new(nodes: usize, edges: &'a [Edge]) -> Result<LinkList<'a>, UnfitLinks>
        ensures nodes { IfOk result (λ links. links.nodes ≡ nodes) }
        ensures edges { IfOk result (λ links. links.edges ≡ edges.entry) }
        ensures unfit { OnErr result (FitList nodes edges.now → ⊥) }
    {
        if nodes <= 1 << 28
            && edges.len() <= 1 << 31
            && all_fit(nodes, edges)
            && prices_fit(edges)
        {
            Ok(LinkList { nodes, edges })
        } else {
            Err(UnfitLinks)
        }
    }
}
