// Flows on lent slices.
ghost use Rattle.std.specs.Prelude.{◌≡◌, ℕ, ◌*◌, ◌^◌, ◌<◌, ◌≤◌, ◌↔◌, length, pos, ◌+ℤ◌, ◌<ℤ◌, IsTrue, slice_index_or, unsigned_abs};
ghost use Rattle.net_graph.specs.Graph.{at, residual_capacity, reduced_cost};
ghost use Rattle.net_graph.specs.Network.{graph};

use crate::network::Network;
use crate::node::{Node, add_excess};

/// A flow by the arcs of a network, with what its nodes have in excess and their potentials.
#[derive(Drop)]
pub struct Flow<'n, 'a> {
    pub net: Network<'n>,
    pub flow: &'a mut [i64],
    pub nodes: &'a mut [Node],
    ghost flow_len: { length flow.now ≡ (graph net).arcs },
    ghost nodes_len: { length nodes.now ≡ (graph net).nodes },
}

/// Adds `d`, which may be below 0, to one element.
pub fn add(flow: &mut [i64], a: usize, d: i64)
    requires arc { a < length flow.old }
    requires small { unsigned_abs (slice_index_or flow.old a (pos 0)) ≤ 2 ^ 62 }
    requires small_change { unsigned_abs d < 2 ^ 62 }
    ensures { (b : ℕ) → slice_index_or flow.new b (pos 0) ≡
        (slice_index_or flow.old b (pos 0) +ℤ at a d b) }
{
    flow[a] += d;
}

impl Flow<'_, '_> {
    ghost use Rattle.net_graph.specs.Sound.{state, Pushed};

    /// Whether arc `a` has residual capacity.
    pub fn open(&self, a: usize) -> bool
        requires { a < (graph self.now.net).arcs }
        ensures { IsTrue result ↔ ((state self.now).flow a <ℤ (graph self.now.net).limit a) }
    {
        self.flow[a] < self.net.arcs[a].limit
    }

    /// The reduced cost of arc `a`: what one unit more along it costs, seen from the potentials of its ends.
    pub fn reduced_cost(&self, a: usize) -> i64
        requires arc { a < (graph self.now.net).arcs }
        requires bounded { (v : ℕ) → v < (graph self.now.net).nodes →
            unsigned_abs ((state self.now).potential v) ≤ 2 ^ 31 * (graph self.now.net).nodes }
        ensures { result ≡ reduced_cost (graph self.now.net) (state self.now).flow
            (state self.now).potential a }
    {
        let net = self.net;
        let arc = net.arcs[a];
        let from = net.unit_cost(self.flow, a) + self.nodes[arc.tail].potential;
        from - self.nodes[arc.head].potential
    }

    /// The residual capacity of arc `a`: how much goes along it before a unit more costs another amount, or nothing more goes.
    pub fn residual_capacity(&self, a: usize) -> i64
        requires arc { a < (graph self.now.net).arcs }
        requires small { unsigned_abs ((state self.now).flow a) ≤ 2 ^ 60 }
        ensures { result ≡ residual_capacity (graph self.now.net) (state self.now).flow a }
    {
        let flow = self.flow[a];
        if flow < 0 {
            -flow
        } else {
            self.net.arcs[a].limit - flow
        }
    }

    /// Sends `amount` along arc `a`: its tail has so much less in excess, and its head so much more.
    pub fn push(&mut self, a: usize, amount: i64)
        requires arc { a < (graph self.old.net).arcs }
        requires amount { unsigned_abs amount ≤ 2 ^ 61 }
        requires flow { (b : ℕ) → b < (graph self.old.net).arcs →
            unsigned_abs ((state self.old).flow b) ≤ 2 ^ 60 }
        requires excess { (v : ℕ) → v < (graph self.old.net).nodes →
            unsigned_abs ((state self.old).excess v) ≤ 2 ^ 61 }
        ensures net { self.new.net ≡ self.old.net }
        ensures same_flow { self.new.flow.ghost_name ≡ self.old.flow.ghost_name }
        ensures same_nodes { self.new.nodes.ghost_name ≡ self.old.nodes.ghost_name }
        ensures pushed { Pushed (graph self.old.net) (state self.old) (state self.new) a amount }
    {
        let arc = self.net.arcs[a];
        add(self.flow, a, amount);
        add(self.flow, arc.pair, -amount);
        add_excess(self.nodes, arc.tail, -amount);
        add_excess(self.nodes, arc.head, amount);
    }
}
