// Waves, and then the solver.
ghost use Rattle.net_graph.specs.Network.{graph};
ghost use Rattle.net_graph.specs.Sound.{state};
ghost use Rattle.net_search.specs.Tree.{tree, HasLengths, SameSlices};
ghost use Rattle.net_solve.specs.Promise.{Balanced, IsOptimal, SameFlow};
ghost use Rattle.net_waves.specs.Promise.{HasSlices, IsOptimum};

use crate::slices::WaveSlices;
use crate::waves::push_waves;
use net_graph::Flow;
use net_search::Search;
use net_solve::{Infeasible, solve_from, start};

/// A cheapest flow that meets the supplies, which the nodes have in excess, or nodes with more than can leave them, as `solve` of
/// `net_solve` finds: by waves first, and what they leave by shortest paths. Faster where many units go and many costs are alike. What
/// flow and potentials were before does not matter.
#[tactic(auto, using(crate::proofs::Optimum::optimum_means))]
pub fn solve_by_waves(
    flow: &mut Flow,
    search: &mut Search,
    slices: &mut WaveSlices,
) -> Result<(), Infeasible>
    requires lengths { HasLengths (graph flow.old.net).nodes search.old }
    requires waves { HasSlices (graph flow.old.net) slices.old }
    requires balanced { Balanced (graph flow.old.net).nodes (state flow.old).excess }
    ensures same { SameFlow flow.old flow.new }
    ensures slices { SameSlices search.old search.new }
    ensures optimum { IsOptimum (graph flow.old.net) (state flow.old).excess (state flow.new)
        (tree search.new).place result }
    ensures optimal { IsOptimal (graph flow.old.net) (state flow.old).excess (state flow.new).flow
        result }
{
    start(flow);
    push_waves(flow, slices);
    solve_from(flow, search)
}
