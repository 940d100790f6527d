// The path that a search found, arc by arc.
ghost use Rattle.std.specs.Prelude.{◌≡◌, ◌<◌, ◌≢◌};
ghost use Rattle.std.specs.Iterator.{at_most};
ghost use Rattle.net_graph.specs.Network.{graph};
ghost use Rattle.net_graph.specs.Sound.{state};
ghost use Rattle.net_search.specs.Tree.{tree, HasLengths};
ghost use Rattle.net_search.specs.Path.{IsShortestPath};
ghost use Rattle.net_solve.specs.Predecessors.{HaveEarlierPredecessors};

use net_graph::{Flow, Network};
use net_search::Search;

// The arcs of the path found, from the target back to the source. It borrows no flow, so that units can be sent meanwhile. The type keeps
// that each of its nodes has a predecessor, since `next` has no `requires`.
#[derive(Drop)]
pub(crate) struct Path<'n, 's, 'm, 'o, 'f> {
    net: Network<'n>,
    search: &'s Search<'m, 'o, 'f>,
    at: usize,
    ghost lengths: { HasLengths (graph net).nodes search.now },
    ghost predecessors: { HaveEarlierPredecessors (graph net) (tree search.now) },
    ghost node: { at < (graph net).nodes },
    ghost on: { at ≢ search.now.target → (tree search.now).place at < search.now.reached },
}

impl<'n, 's, 'm, 'o, 'f> Path<'n, 's, 'm, 'o, 'f> {
    // The path that the search found in this flow.
    pub(crate) fn new(
        flow: &Flow<'n, '_>,
        search: &'s Search<'m, 'o, 'f>,
    ) -> Path<'n, 's, 'm, 'o, 'f>
        requires lengths { HasLengths (graph flow.now.net).nodes search.now }
        requires found { IsShortestPath (graph flow.now.net) (state flow.now) (tree search.now) }
        ensures net { result.net ≡ flow.now.net }
        ensures search { result.search.now ≡ search.now }
        ensures at { result.at ≡ search.now.target }
    {
        Path {
            net: flow.net,
            search,
            at: search.target,
        }
    }
}

impl Iterator for Path<'_, '_, '_, '_, '_> {
    ghost use Rattle.net_solve.specs.Stepped.{Stepped};

    type Item = usize;

    ghost next_gives = { Stepped };

    ghost remaining = { λ path. at_most ((tree path.search.now).place path.at) };

    fn next(&mut self) -> Option<usize> {
        if self.at == self.search.source {
            return None;
        }
        let a = self.search.labels[self.at].pred;
        self.at = self.net.arcs[a].tail;
        Some(a)
    }
}
