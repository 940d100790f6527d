// Networks on lent slices.
ghost use Rattle.std.specs.Prelude.{◌≡◌, ◌^◌, ◌<◌, ◌≤◌, length, pos, slice_index_or, unsigned_abs};
ghost use Rattle.net_graph.specs.Graph.{WellFormed, unit_cost};

use crate::arc::Arc;

/// A well-formed network on lent slices. Arcs are grouped by their tails, those of node `v` at `first[v]..first[v + 1]`.
#[derive(Clone, Copy)]
pub struct Network<'a> {
    pub first: &'a [usize],
    pub arcs: &'a [Arc],
    ghost formed: { WellFormed first.now arcs.now },
}

impl Network<'_> {
    ghost use Rattle.net_graph.specs.Network.{graph};

    /// How many nodes it has.
    pub fn nodes(&self) -> usize
        ensures { result ≡ (graph self.now).nodes }
    {
        self.first.len() - 1
    }

    /// What one unit more along arc `a` costs.
    pub fn unit_cost(&self, flow: &[i64], a: usize) -> i64
        requires flow { length flow.now ≡ (graph self.now).arcs }
        requires arc { a < (graph self.now).arcs }
        ensures value { result ≡ unit_cost (graph self.now)
            (λ b. slice_index_or flow.now b (pos 0)) a }
        ensures small { unsigned_abs result ≤ 2 ^ 30 }
    {
        let arc = self.arcs[a];
        if flow[a] < 0 {
            -self.arcs[arc.pair].cost
        } else {
            arc.cost
        }
    }
}
