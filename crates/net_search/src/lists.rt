// The lists of a search, over bare slices: each function changes several of them at once, and what they say of one another holds before and
// after it.
ghost use Rattle.std.specs.Prelude.{◌≡◌, ℕ, ◌+◌, ◌<◌, ◌≤◌, length, ◌≤ℤ◌, ◌⊎◌, slice_index};
ghost use Rattle.net_graph.specs.Order.{node_at};
ghost use Rattle.net_search.specs.Label.{distance_of, place_of, infinity, Listed, AllUnlabelled, Forgotten, Relabelled, Discovered, PlacedAt};

use crate::label::{INFINITY, Label, put, relabel, unlabel};

// Takes the labels of some nodes away.
fn unlabel_all(labels: &mut [Label], nodes: &[usize])
    requires { (k : ℕ) → k < length nodes.now → slice_index nodes.now k < length labels.old }
    ensures { Forgotten (length labels.old) nodes.now (length nodes.now) labels.old labels.new }
{
    for &v in nodes {
        unlabel(labels, v);
    }
}

// Forgets all labels.
pub(crate) fn forget(
    labels: &mut [Label],
    order: &[usize],
    reached: &mut usize,
    frontier: &[usize],
    waiting: &mut usize,
)
    requires labels { length labels.old ≡ length order.now }
    requires frontier { length frontier.now ≡ length order.now }
    requires listed { Listed (length order.now) (distance_of labels.old) (place_of labels.old)
        (node_at order.now)
        (node_at frontier.now) reached.old waiting.old }
    ensures blank { AllUnlabelled (length order.now) labels.new }
    ensures reached { reached.new ≡ 0 }
    ensures waiting { waiting.new ≡ 0 }
{
    unlabel_all(labels, &order[..*reached]);
    unlabel_all(labels, &frontier[..*waiting]);
    *reached = 0;
    *waiting = 0;
}

// Gives node `v` the label `d`, by arc `a`, and puts it at the end of the frontier if it was not labelled.
pub(crate) fn discover(
    labels: &mut [Label],
    frontier: &mut [usize],
    waiting: &mut usize,
    v: usize,
    a: usize,
    d: i64,
)
    requires node { v < length labels.old }
    requires lengths { infinity ≤ℤ distance_of labels.old v → waiting.old < length frontier.old }
    ensures place { (w : ℕ) → place_of labels.new w ≡ place_of labels.old w }
    ensures labelled { Relabelled labels.old labels.new v a d }
    ensures discovered { Discovered (distance_of labels.old v) (node_at frontier.old)
        (node_at frontier.new) waiting.old waiting.new v }
{
    if labels[v].distance >= INFINITY {
        frontier[*waiting] = v;
        *waiting += 1;
    }
    relabel(labels, v, a, d);
}

// The nearer of two places, each with the label there; the second where both are as near. A choice of values, which compiles to no
// branch: which one is nearer is hard to foresee.
fn nearer(d: i64, k: usize, least: i64, best: usize) -> (i64, usize)
    ensures first { result.0 ≤ℤ d }
    ensures second { result.0 ≤ℤ least }
    ensures either { (result ≡ (d, k)) ⊎ (result ≡ (least, best)) }
{
    if d < least { (d, k) } else { (least, best) }
}

// Where the least label of some nodes is, latest first; none is below `last_distance`.
pub(crate) fn nearest(labels: &[Label], nodes: &[usize], last_distance: i64) -> usize
    requires nodes { (k : ℕ) → k < length nodes.now → slice_index nodes.now k < length labels.now }
    requires some { 0 < length nodes.now }
    requires high { (k : ℕ) → k < length nodes.now →
        last_distance ≤ℤ distance_of labels.now (slice_index nodes.now k) }
    ensures index { result < length nodes.now }
    ensures least { (k : ℕ) → k < length nodes.now →
        distance_of labels.now (slice_index nodes.now result) ≤ℤ
        distance_of labels.now (slice_index nodes.now k) }
{
    let last = nodes.len() - 1;
    let mut best = last;
    let mut least = labels[nodes[last]].distance;
    for k in (0..last).rev() {
        if least <= last_distance {
            return best;
        }
        let d = labels[nodes[k]].distance;
        (least, best) = nearer(d, k, least, best);
    }
    best
}

// Reaches the node that waits at `k`; the last one waits there in its stead.
pub(crate) fn reach(
    labels: &mut [Label],
    order: &mut [usize],
    reached: &mut usize,
    frontier: &mut [usize],
    waiting: &mut usize,
    k: usize,
) -> usize
    requires labels { length labels.old ≡ length order.old }
    requires frontier { length frontier.old ≡ length order.old }
    requires listed { Listed (length order.old) (distance_of labels.old) (place_of labels.old)
        (node_at order.old)
        (node_at frontier.old) reached.old waiting.old }
    requires waits { k < waiting.old }
    ensures node { result ≡ node_at frontier.old k }
    ensures reached { reached.new ≡ reached.old + 1 }
    ensures placed { PlacedAt labels.old labels.new result reached.old }
    ensures listed { Listed (length order.new) (distance_of labels.new) (place_of labels.new)
        (node_at order.new)
        (node_at frontier.new) reached.new waiting.new }
{
    let u = frontier[k];
    *waiting -= 1;
    frontier[k] = frontier[*waiting];
    order[*reached] = u;
    put(labels, u, *reached);
    *reached += 1;
    u
}
