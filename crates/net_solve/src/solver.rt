// Successive shortest paths: excess goes along shortest paths to deficits, one path after another.
ghost use Rattle.std.specs.Prelude.{◌≡◌, ℕ, ◌%◌, ◌<◌, length, pos, ◌≤ℤ◌, IfErr, OnOk, IsTrue, IsFalse};
ghost use Rattle.net_graph.specs.Network.{graph};
ghost use Rattle.net_graph.specs.Sound.{state, Sound};
ghost use Rattle.net_search.specs.Label.{infinity, place_of};
ghost use Rattle.net_search.specs.Tree.{tree, HasLengths, SameSlices};
ghost use Rattle.net_search.specs.Path.{Cut};
ghost use Rattle.net_solve.specs.Promise.{Balanced, IsPlacedCut, Outcome, IsSolution, IsOptimal, SameFlow};
ghost use Rattle.net_solve.specs.Inner.{Progress};

use crate::augment::augment;
use crate::infeasible::Infeasible;
use crate::initial::start;
use net_graph::Flow;
use net_search::{INFINITY, Label, Search};

// How far apart nodes are whose excess is sent one after the other. Neighbours would use up the deficits near them, and those that
// come last would have to search far.
const STRIDE: usize = 31;

// The radii of the searches, one after another: pairs that are near are joined first, which keeps searches small.
const RADII: [i64; 5] = [50, 100, 200, 400, 800];

// Sends what `source` has in excess along shortest paths to deficits that are nearer than `radius`, until it has nothing in excess
// or there is no such deficit. Whether it has nothing in excess.
fn send_excess(flow: &mut Flow, search: &mut Search, source: usize, radius: i64) -> bool
    requires lengths { HasLengths (graph flow.old.net).nodes search.old }
    requires sound { Sound (graph flow.old.net) (state flow.old) }
    requires source { source < (graph flow.old.net).nodes }
    requires ahead { pos 0 ≤ℤ radius }
    requires radius_most { radius ≤ℤ infinity }
    ensures progress { Progress flow.old search.old flow.new search.new }
    ensures sent { IsTrue result → (state flow.new).excess source ≤ℤ pos 0 }
    ensures cut { IsFalse result → radius ≡ infinity →
        Cut (graph flow.old.net) (state flow.new) (tree search.new) }
{
    while flow.nodes[source].excess > 0 {
        if !augment(flow, search, source, radius) {
            return false;
        }
    }
    true
}

// Sends what the nodes `first`, `first + STRIDE` and so on have in excess to deficits that are nearer than `radius`.
fn augment_within_some(flow: &mut Flow, search: &mut Search, first: usize, radius: i64)
    requires lengths { HasLengths (graph flow.old.net).nodes search.old }
    requires sound { Sound (graph flow.old.net) (state flow.old) }
    requires first { first < 31 }
    requires ahead { pos 0 ≤ℤ radius }
    requires radius_most { radius ≤ℤ infinity }
    ensures progress { Progress flow.old search.old flow.new search.new }
{
    let net = flow.net;
    for source in (first..net.nodes()).step_by(STRIDE) {
        // What it keeps may go farther later.
        send_excess(flow, search, source, radius);
    }
}

// Sends what is in excess to deficits that are nearer than `radius`.
fn augment_within(flow: &mut Flow, search: &mut Search, radius: i64)
    requires lengths { HasLengths (graph flow.old.net).nodes search.old }
    requires sound { Sound (graph flow.old.net) (state flow.old) }
    requires ahead { pos 0 ≤ℤ radius }
    requires radius_most { radius ≤ℤ infinity }
    ensures progress { Progress flow.old search.old flow.new search.new }
{
    for first in 0..STRIDE {
        augment_within_some(flow, search, first, radius);
    }
}

// Sends what is in excess to deficits, within each radius in turn.
fn augment_by_radius(flow: &mut Flow, search: &mut Search)
    requires lengths { HasLengths (graph flow.old.net).nodes search.old }
    requires sound { Sound (graph flow.old.net) (state flow.old) }
    ensures progress { Progress flow.old search.old flow.new search.new }
{
    for radius in RADII {
        augment_within(flow, search, radius);
    }
}

// Sends what the nodes `first`, `first + STRIDE` and so on have in excess along shortest paths to deficits, until they have nothing in
// excess or nothing more can go.
fn solve_some(flow: &mut Flow, search: &mut Search, first: usize) -> Result<(), Infeasible>
    requires lengths { HasLengths (graph flow.old.net).nodes search.old }
    requires sound { Sound (graph flow.old.net) (state flow.old) }
    requires first { first < 31 }
    ensures progress { Progress flow.old search.old flow.new search.new }
    ensures sent { OnOk result ((v : ℕ) → v < (graph flow.old.net).nodes → v % 31 ≡ first →
        (state flow.new).excess v ≤ℤ pos 0) }
    ensures infeasible { IfErr result (λ s. IsPlacedCut (graph flow.old.net) (state flow.new)
        (tree search.new).place s.nodes) }
{
    let net = flow.net;
    for source in (first..net.nodes()).step_by(STRIDE) {
        if !send_excess(flow, search, source, INFINITY) {
            return Err(Infeasible {
                nodes: search.reached,
            });
        }
    }
    Ok(())
}

/// Sends what is in excess along shortest paths to deficits, from any sound state, until nothing is in excess or nothing more can go.
pub fn solve_from(flow: &mut Flow, search: &mut Search) -> Result<(), Infeasible>
    requires lengths { HasLengths (graph flow.old.net).nodes search.old }
    requires sound { Sound (graph flow.old.net) (state flow.old) }
    ensures progress { Progress flow.old search.old flow.new search.new }
    ensures answer { Outcome (graph flow.old.net) (state flow.new) (tree search.new).place result }
{
    augment_by_radius(flow, search);
    for first in 0..STRIDE {
        solve_some(flow, search, first)?;
    }
    Ok(())
}

/// A cheapest flow that meets the supplies, which the nodes have in excess, with potentials under which it is optimal; or a set of nodes
/// with more than can leave it. What flow and potentials were before does not matter.
pub fn solve(flow: &mut Flow, search: &mut Search) -> Result<(), Infeasible>
    requires lengths { HasLengths (graph flow.old.net).nodes search.old }
    requires balanced { Balanced (graph flow.old.net).nodes (state flow.old).excess }
    ensures same { SameFlow flow.old flow.new }
    ensures slices { SameSlices search.old search.new }
    ensures solution { IsSolution (graph flow.old.net) (state flow.old).excess (state flow.new)
        (tree search.new).place result }
    ensures optimal { IsOptimal (graph flow.old.net) (state flow.old).excess
        (state flow.new).flow result }
{
    start(flow);
    solve_from(flow, search)
}

/// `solve` on slices for a search, one element for each node. What these hold before does not matter either.
pub fn solve_in(
    flow: &mut Flow,
    labels: &mut [Label],
    order: &mut [usize],
    frontier: &mut [usize],
) -> Result<(), Infeasible>
    requires labels { length labels.old ≡ (graph flow.old.net).nodes }
    requires order { length order.old ≡ (graph flow.old.net).nodes }
    requires frontier { length frontier.old ≡ (graph flow.old.net).nodes }
    requires balanced { Balanced (graph flow.old.net).nodes (state flow.old).excess }
    ensures same { SameFlow flow.old flow.new }
    ensures solution { IsSolution (graph flow.old.net) (state flow.old).excess (state flow.new)
        (place_of labels.new) result }
    ensures optimal { IsOptimal (graph flow.old.net) (state flow.old).excess
        (state flow.new).flow result }
{
    let mut search = Search::new(labels, order, frontier);
    solve(flow, &mut search)
}
