// One augmentation: from a node with an excess to one with a deficit.
ghost use Rattle.std.specs.Prelude.{◌≡◌, ℕ, ◌+◌, ◌*◌, ◌^◌, ◌<◌, ◌≤◌, ◌⊎◌, length, pos, ◌+ℤ◌, neg_ℤ, ◌≤ℤ◌, ◌<ℤ◌, IsTrue, IsFalse, ◌≢◌, unsigned_abs};
ghost use Rattle.net_graph.specs.Graph.{at, residual_capacity};
ghost use Rattle.net_graph.specs.Network.{graph};
ghost use Rattle.net_graph.specs.Node.{excess_of, potential_of};
ghost use Rattle.net_graph.specs.Sound.{state, total_excess, Sound};
ghost use Rattle.net_search.specs.Label.{infinity};
ghost use Rattle.net_search.specs.Tree.{tree, HasLengths};
ghost use Rattle.net_search.specs.Path.{Lowered, IsShortestPath, IsPredecessor, Walking, Cut};
ghost use Rattle.net_solve.specs.Promise.{SameFlow};
ghost use Rattle.net_solve.specs.Inner.{Progress};

use crate::path::Path;
use net_graph::{Flow, Node};
use net_search::Search;

// Adds `d`, which may be below 0, to the potential of node `v`.
fn raise(nodes: &mut [Node], v: usize, d: i64)
    requires node { v < length nodes.old }
    requires small { unsigned_abs (potential_of nodes.old v) ≤ 2 ^ 62 }
    requires small_change { unsigned_abs d < 2 ^ 62 }
    ensures potential { (w : ℕ) → potential_of nodes.new w ≡
        (potential_of nodes.old w +ℤ at v d w) }
    ensures excess { (w : ℕ) → excess_of nodes.new w ≡ excess_of nodes.old w }
{
    nodes[v].potential += d;
}

// Lowers the potentials of the reached nodes, by what each is nearer than the target.
fn lower(nodes: &mut [Node], search: &Search)
    requires lengths { HasLengths (length nodes.old) search.now }
    requires small { (v : ℕ) → v < length nodes.old →
        unsigned_abs (potential_of nodes.old v) ≤ 2 ^ 59 }
    requires near { (v : ℕ) → v < length nodes.old →
        (tree search.now).place v < search.now.reached →
        unsigned_abs ((tree search.now).distance v) ≤ 2 ^ 60 + 2 ^ 58 }
    requires bound { unsigned_abs search.now.bound ≤ 2 ^ 60 + 2 ^ 58 }
    ensures lowered { Lowered (length nodes.old) (tree search.now) (potential_of nodes.old)
        (potential_of nodes.new) }
    ensures excess { (v : ℕ) → excess_of nodes.new v ≡ excess_of nodes.old v }
{
    for &v in &search.order[..search.reached] {
        raise(nodes, v, search.labels[v].distance - search.bound);
    }
}

// The lesser of two, by what a bottleneck needs of it.
fn lesser(a: i64, b: i64) -> i64
    ensures first { result ≤ℤ a }
    ensures second { result ≤ℤ b }
    ensures either { (result ≡ a) ⊎ (result ≡ b) }
{
    a.min(b)
}

// As much as the excess of the source, the deficit of the target and the residual capacities of the path found allow.
fn bottleneck(flow: &Flow, search: &Search) -> i64
    requires lengths { HasLengths (graph flow.now.net).nodes search.now }
    requires sound { Sound (graph flow.now.net) (state flow.now) }
    requires found { IsShortestPath (graph flow.now.net) (state flow.now) (tree search.now) }
    requires excess { pos 0 <ℤ (state flow.now).excess search.now.source }
    ensures some { pos 0 <ℤ result }
    ensures source { result ≤ℤ (state flow.now).excess search.now.source }
    ensures target { result ≤ℤ neg_ℤ ((state flow.now).excess search.now.target) }
    ensures arcs { (u : ℕ) → IsPredecessor (graph flow.now.net)
        (tree search.now) search.now.target u → (u ≢ search.now.source) →
        result ≤ℤ residual_capacity (graph flow.now.net) (state flow.now).flow
        ((tree search.now).pred u) }
{
    let mut least = lesser(
        flow.nodes[search.source].excess,
        -flow.nodes[search.target].excess,
    );
    for a in Path::new(flow, search) {
        least = lesser(least, flow.residual_capacity(a));
    }
    least
}

// Sends `amount` along the path found.
fn push_along(flow: &mut Flow, search: &Search, amount: i64)
    requires lengths { HasLengths (graph flow.old.net).nodes search.now }
    requires sound { Sound (graph flow.old.net) (state flow.old) }
    requires found { IsShortestPath (graph flow.old.net) (state flow.old) (tree search.now) }
    requires some { pos 0 <ℤ amount }
    requires few { unsigned_abs amount ≤ 2 ^ 60 }
    requires arcs { (u : ℕ) → IsPredecessor (graph flow.old.net)
        (tree search.now) search.now.target u → (u ≢ search.now.source) →
        amount ≤ℤ residual_capacity (graph flow.old.net) (state flow.old).flow
        ((tree search.now).pred u) }
    ensures same { SameFlow flow.old flow.new }
    ensures potential { (v : ℕ) → (state flow.new).potential v ≡ (state flow.old).potential v }
    ensures walked { Walking (graph flow.old.net) (state flow.old) (state flow.new)
        (tree search.now) search.now.source amount }
{
    for a in Path::new(flow, search) {
        flow.push(a, amount);
    }
}

// Sends what goes along a shortest path from `source`, which has something in excess, to a deficit that is nearer than `radius`.
// Whether there was one.
pub(crate) fn augment(flow: &mut Flow, search: &mut Search, source: usize, radius: i64) -> bool
    requires lengths { HasLengths (graph flow.old.net).nodes search.old }
    requires sound { Sound (graph flow.old.net) (state flow.old) }
    requires source { source < (graph flow.old.net).nodes }
    requires excess { pos 0 <ℤ (state flow.old).excess source }
    requires ahead { pos 0 ≤ℤ radius }
    requires radius_most { radius ≤ℤ infinity }
    ensures progress { Progress flow.old search.old flow.new search.new }
    ensures less { IsTrue result → total_excess (graph flow.old.net) (state flow.new) <
        total_excess (graph flow.old.net) (state flow.old) }
    ensures kept { IsFalse result → flow.new ≡ flow.old }
    ensures cut { IsFalse result → radius ≡ infinity →
        Cut (graph flow.old.net) (state flow.old) (tree search.new) }
{
    if search.find(flow, source, radius).is_none() {
        return false;
    }
    lower(flow.nodes, search);
    let amount = bottleneck(flow, search);
    push_along(flow, search, amount);
    true
}
