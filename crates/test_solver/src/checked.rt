// The solver for any lent lists and slices.
ghost use Rattle.std.specs.Prelude.{◌≡◌, ◌↔◌, length, IsTrue};
ghost use Rattle.net_graph.specs.Network.{graph};
ghost use Rattle.net_graph.specs.Node.{excess_of};
ghost use Rattle.net_solve.specs.Promise.{Balanced};
ghost use Rattle.test_solver.specs.Tried.{Fitting, Tried, Refused, SameLoans};
ghost use Rattle.test_solver.specs.declared.checked.Refusal.TheVariants as refusal;

use crate::lists::{Lists, Malformed};
use crate::supplies::balanced;
use net_graph::{Flow, Network, Node};
use net_search::Label;
use net_solve::{Infeasible, solve_in};

/// The slices that the solver works on: a flow by arcs, the nodes, which have the supplies in excess, and what a search needs, which is
/// written while the flow is read.
#[derive(Drop)]
pub struct Slices<'a> {
    pub flow: &'a mut [i64],
    pub nodes: &'a mut [Node],
    pub labels: &'a mut [Label],
    pub order: &'a mut [usize],
    pub frontier: &'a mut [usize],
}

/// Why no flow was found.
#[derive(Clone, Copy, PartialEq, Eq, Debug)]
pub enum Refusal {
    /// The lists make no well-formed network.
    Network,
    /// A slice is not as long as the network asks.
    Length,
    /// The supplies do not add up to 0, or are too many.
    Supplies,
    /// No flow meets them.
    Infeasible(Infeasible),
}

impl From<Malformed> for Refusal {
    ghost from_gives = { λ _ r. r ≡ refusal.Network };

    fn from(_malformed: Malformed) -> Refusal {
        Refusal::Network
    }
}

impl From<Infeasible> for Refusal {
    ghost from_gives = { λ s r. r ≡ refusal.Infeasible s };

    fn from(infeasible: Infeasible) -> Refusal {
        Refusal::Infeasible(infeasible)
    }
}

impl Slices<'_> {
    // Whether they are as long as the network asks.
    fn fit(&self, net: &Network) -> bool
        ensures { IsTrue result ↔ Fitting (graph net.now) self.now }
    {
        let n = net.nodes();
        self.flow.len() == net.arcs.len()
            && self.nodes.len() == n
            && self.labels.len() == n
            && self.order.len() == n
            && self.frontier.len() == n
    }

    // Whether the supplies are balanced.
    fn balanced(&self) -> bool
        ensures { IsTrue result ↔ Balanced (length self.now.nodes.now)
            (excess_of self.now.nodes.now) }
    {
        balanced(self.nodes)
    }
}

/// `solve` for any lists and slices: what it asks for is tested first.
pub fn try_solve(lists: Lists<'_>, slices: &mut Slices) -> Result<(), Refusal>
    ensures tried { Tried lists.entry slices.old slices.new result }
    ensures kept { Refused result → slices.new ≡ slices.old }
    ensures same { SameLoans slices.old slices.new }
{
    let net = lists.network()?;
    if !slices.fit(&net) {
        return Err(Refusal::Length);
    }
    if !slices.balanced() {
        return Err(Refusal::Supplies);
    }
    let mut flow = Flow {
        net,
        flow: &mut *slices.flow,
        nodes: &mut *slices.nodes,
    };
    solve_in(
        &mut flow,
        &mut *slices.labels,
        &mut *slices.order,
        &mut *slices.frontier,
    )?;
    Ok(())
}
