// What a cheapest flow along edges is worked out on.
ghost use Rattle.std.specs.Prelude.{◌≡◌, ℕ, ◌+◌, ◌*◌, ◌<◌, length, pos, slice_index_or};
ghost use Rattle.net_graph.specs.Network.{graph};

use net_build::{ArcLists, Edge, EdgeList, build};
use net_graph::{Arc, Flow, Network, Node};
use net_search::{Label, Search};
use net_solve::{Infeasible, solve_in};
use net_waves::{Height, Tight, WaveSlices, solve_by_waves};

/// What a cheapest flow along edges is worked out on: slices of local arrays, or of vectors (`Buffers`). What they hold before does not
/// matter, but for what the nodes have in excess.
#[derive(Drop)]
pub struct Workspace<'a> {
    /// Where the arcs of each node begin, and where the last ones end: one more than there are nodes.
    pub first: &'a mut [usize],
    /// Where the next arc of each node goes, while arcs are grouped.
    pub next: &'a mut [usize],
    /// The arcs, grouped by their tails.
    pub arcs: &'a mut [Arc],
    /// The arc of each edge, from where it begins to where it ends.
    pub arc_of: &'a mut [usize],
    /// What goes along each arc.
    pub flow: &'a mut [i64],
    /// The nodes, which have what they supply in excess at first.
    pub nodes: &'a mut [Node],
    pub labels: &'a mut [Label],
    pub order: &'a mut [usize],
    pub frontier: &'a mut [usize],
    /// What waves know of arcs and nodes, and where nodes wait.
    pub tight: &'a mut [Tight],
    pub heights: &'a mut [Height],
    pub slots: &'a mut [u32],
    ghost first_len: { length first.now ≡ length nodes.now + 1 },
    ghost next_len: { length next.now ≡ length nodes.now },
    ghost arcs_len: { length arcs.now ≡ length arc_of.now * 2 },
    ghost flow_len: { length flow.now ≡ length arc_of.now * 2 },
    ghost labels_len: { length labels.now ≡ length nodes.now },
    ghost order_len: { length order.now ≡ length nodes.now },
    ghost frontier_len: { length frontier.now ≡ length nodes.now },
    ghost tight_len: { length tight.now ≡ length arc_of.now * 2 },
    ghost heights_len: { length heights.now ≡ length nodes.now },
    ghost slots_len: { length slots.now ≡ length nodes.now },
}

ghost use Rattle.net_build.specs.Edges.{Represents};
ghost use Rattle.net_build.specs.Grouped.{FitEdges};
ghost use Rattle.net_build.specs.Lists.{edges_of};
ghost use Rattle.net_graph.specs.Graph.{WellFormed, graph_of};
ghost use Rattle.net_graph.specs.Node.{excess_of};
ghost use Rattle.net_solve.specs.Promise.{IsSolution};
ghost use Rattle.net_solve.specs.Promise.{Balanced};
ghost use Rattle.net_waves.specs.Promise.{HasSlices, IsOptimum};
ghost use Rattle.net_workspace.specs.Slices.{state_of, arc_in};
ghost use Rattle.net_search.specs.Label.{place_of};

// Groups the arcs of edges by their tails.
fn group_arcs(
    edges: &[Edge],
    first: &mut [usize],
    next: &mut [usize],
    arcs: &mut [Arc],
    arc_of: &mut [usize],
)
    requires first { length first.old ≡ length next.old + 1 }
    requires arcs { length arcs.old ≡ length edges.now * 2 }
    requires arc_of { length arc_of.old ≡ length edges.now }
    requires fit { FitEdges (edges_of edges.now) (length next.old) }
    ensures formed { WellFormed first.new arcs.new }
    ensures represents { Represents (edges_of edges.now) (graph_of first.new arcs.new)
        (arc_in arc_of.new) }
{
    let nodes = next.len();
    let mut lists = ArcLists { arcs, arc_of };
    build(EdgeList { nodes, edges }, first, next, &mut lists);
}

// The cheapest flow in a network.
fn solve_network(
    net: Network<'_>,
    flow: &mut [i64],
    nodes: &mut [Node],
    labels: &mut [Label],
    order: &mut [usize],
    frontier: &mut [usize],
) -> Result<(), Infeasible>
    requires arcs { (graph net).arcs ≡ length flow.old }
    requires nodes { (graph net).nodes ≡ length nodes.old }
    requires labels { length labels.old ≡ length nodes.old }
    requires order { length order.old ≡ length nodes.old }
    requires frontier { length frontier.old ≡ length nodes.old }
    requires balanced { Balanced (length nodes.old) (excess_of nodes.old) }
    ensures { IsSolution (graph net.entry) (excess_of nodes.old) (state_of flow.new nodes.new)
        (place_of labels.new) result }
{
    let mut flow = Flow { net, flow, nodes };
    solve_in(&mut flow, labels, order, frontier)
}

// The same by waves first.
fn solve_network_by_waves(
    net: Network<'_>,
    flow: &mut [i64],
    nodes: &mut [Node],
    labels: &mut [Label],
    order: &mut [usize],
    frontier: &mut [usize],
    slices: &mut WaveSlices,
) -> Result<(), Infeasible>
    requires arcs { (graph net).arcs ≡ length flow.old }
    requires nodes { (graph net).nodes ≡ length nodes.old }
    requires labels { length labels.old ≡ length nodes.old }
    requires order { length order.old ≡ length nodes.old }
    requires frontier { length frontier.old ≡ length nodes.old }
    requires waves { HasSlices (graph net) slices.old }
    requires balanced { Balanced (length nodes.old) (excess_of nodes.old) }
    ensures { IsOptimum (graph net.entry) (excess_of nodes.old) (state_of flow.new nodes.new)
        (place_of labels.new) result }
{
    let mut flow = Flow { net, flow, nodes };
    let mut search = Search::new(labels, order, frontier);
    solve_by_waves(&mut flow, &mut search, slices)
}

impl Workspace<'_> {
    ghost use Rattle.net_workspace.specs.Workspace.{SameLoans, EdgesSolved, EdgesOptimal, state, arc};

    /// Sends what the nodes have in excess along the cheapest of the edges: leaves the flow by arcs, the arc of each edge, and the
    /// potentials of the nodes; or says which nodes have more than can leave them.
    pub fn solve(&mut self, edges: &[Edge]) -> Result<(), Infeasible>
        requires count { length edges.now ≡ length self.old.arc_of.now }
        requires fit { FitEdges (edges_of edges.now) (length self.old.nodes.now) }
        requires balanced { Balanced (length self.old.nodes.now) (excess_of self.old.nodes.now) }
        ensures same { SameLoans self.old self.new }
        ensures solved { EdgesSolved (edges_of edges.now) self.old self.new result }
    {
        group_arcs(edges, self.first, self.next, self.arcs, self.arc_of);
        solve_network(
            Network {
                first: &self.first[..],
                arcs: &self.arcs[..],
            },
            self.flow,
            self.nodes,
            self.labels,
            self.order,
            self.frontier,
        )
    }

    /// The same by waves first: faster where many units go and many costs are alike. Only what `solve` says of how much a flow grows is
    /// not promised.
    pub fn solve_by_waves(&mut self, edges: &[Edge]) -> Result<(), Infeasible>
        requires count { length edges.now ≡ length self.old.arc_of.now }
        requires fit { FitEdges (edges_of edges.now) (length self.old.nodes.now) }
        requires balanced { Balanced (length self.old.nodes.now) (excess_of self.old.nodes.now) }
        ensures same { SameLoans self.old self.new }
        ensures solved { EdgesOptimal (edges_of edges.now) self.old self.new result }
    {
        group_arcs(edges, self.first, self.next, self.arcs, self.arc_of);
        let mut slices = WaveSlices {
            tight: &mut *self.tight,
            heights: &mut *self.heights,
            slots: &mut *self.slots,
        };
        solve_network_by_waves(
            Network {
                first: &self.first[..],
                arcs: &self.arcs[..],
            },
            self.flow,
            self.nodes,
            self.labels,
            self.order,
            self.frontier,
            &mut slices,
        )
    }

    /// The potential of node `v`.
    pub fn potential(&self, v: usize) -> i64
        requires { v < length self.now.nodes.now }
        ensures { result ≡ (state self.now).potential v }
    {
        self.nodes[v].potential
    }

    /// Writes the potentials of all nodes.
    pub fn copy_potentials(&self, potentials: &mut [i64])
        requires { length potentials.old ≡ length self.now.nodes.now }
        ensures { (v : ℕ) → v < length self.now.nodes.now →
            slice_index_or potentials.new v (pos 0) ≡ (state self.now).potential v }
    {
        for (v, node) in self.nodes.iter().enumerate() {
            potentials[v] = node.potential;
        }
    }

    /// What goes along edge `e` from where it begins to where it ends, less what goes back.
    pub fn flow_along(&self, e: usize) -> i64
        requires edge { e < length self.now.arc_of.now }
        requires arc { arc self.now e < length self.now.flow.now }
        ensures { result ≡ (state self.now).flow (arc self.now e) }
    {
        self.flow[self.arc_of[e]]
    }
}
