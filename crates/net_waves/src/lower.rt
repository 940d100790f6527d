// Potentials that are lowered by distances.
ghost use Rattle.std.specs.Prelude.{◌≡◌, ℕ, ◌^◌, ◌*◌, ◌<◌, ◌≤◌, ◌↔◌, length, pos, ◌+ℤ◌, ◌-ℤ◌, ◌<ℤ◌, ◌≤ℤ◌, IsTrue, IsFalse, unsigned_abs};
ghost use Rattle.net_graph.specs.Network.{graph};
ghost use Rattle.net_graph.specs.Node.{excess_of, potential_of};
ghost use Rattle.net_graph.specs.Sound.{state, Sound};
ghost use Rattle.net_waves.specs.Promise.{Kept};
ghost use Rattle.net_waves.specs.Potentials.{distance_of, FitsNode, FitsArc, FitsNodes, FitsArcs};

use crate::levels::UNREACHED;
use crate::queue::{Queue, wait};
use crate::slices::Height;
use net_graph::{Flow, Node};

// Farther than any node.
const INFINITY: i64 = 1 << 62;

// Puts all nodes that have a level, from which something goes to a deficit, at distance 0.
fn start_distances(heights: &mut [Height], queue: &mut Queue) {
    queue.clear();
    for at in heights.iter_mut() {
        at.distance = if at.level == UNREACHED { INFINITY } else { 0 };
        at.waits = false;
    }
}

// Shortens the distance of the head of arc `b`, from which its pair leads to its tail.
fn relax(flow: &Flow, heights: &mut [Height], queue: &mut Queue, b: usize)
    requires sound { Sound (graph flow.now.net) (state flow.now) }
    requires nodes { length heights.old ≡ (graph flow.now.net).nodes }
    requires arc { b < (graph flow.now.net).arcs }
{
    let arc = flow.net.arcs[b];
    let d = heights[arc.tail].distance;
    if heights[arc.head].distance <= d || !flow.open(arc.pair) {
        return;
    }
    let next = d.saturating_add(flow.reduced_cost(arc.pair));
    if next < heights[arc.head].distance {
        heights[arc.head].distance = next;
        wait(heights, queue, arc.head);
    }
}

// Shortens the distances of the nodes from which an arc leads to node `v`.
fn scan(flow: &Flow, heights: &mut [Height], queue: &mut Queue, v: usize)
    requires sound { Sound (graph flow.now.net) (state flow.now) }
    requires nodes { length heights.old ≡ (graph flow.now.net).nodes }
    requires node { v < (graph flow.now.net).nodes }
{
    let net = flow.net;
    for b in net.first[v]..net.first[v + 1] {
        relax(flow, heights, queue, b);
    }
}

// The same for all nodes at distance 0.
fn scan_level_nodes(flow: &Flow, heights: &mut [Height], queue: &mut Queue)
    requires sound { Sound (graph flow.now.net) (state flow.now) }
    requires nodes { length heights.old ≡ (graph flow.now.net).nodes }
{
    for v in 0..heights.len() {
        if heights[v].distance == 0 {
            scan(flow, heights, queue, v);
        }
    }
}

// Tells by reduced costs how far each node is from where something goes to a deficit.
fn find_distances(flow: &Flow, heights: &mut [Height], queue: &mut Queue)
    requires sound { Sound (graph flow.now.net) (state flow.now) }
    requires nodes { length heights.old ≡ (graph flow.now.net).nodes }
{
    start_distances(heights, queue);
    scan_level_nodes(flow, heights, queue);
    for _ in 0..heights.len() * 16 {
        let Some(v) = queue.take() else {
            return;
        };
        if v < heights.len() {
            heights[v].waits = false;
            scan(flow, heights, queue, v);
        }
    }
}

// Whether a node with an excess can be brought to distance 0.
fn brings_excess(flow: &Flow, heights: &[Height]) -> bool
    requires { length heights.now ≡ (graph flow.now.net).nodes }
{
    for (v, node) in flow.nodes.iter().enumerate() {
        if node.excess > 0 && heights[v].distance > 0 && heights[v].distance < INFINITY {
            return true;
        }
    }
    false
}

// The farthest distance that was found.
fn farthest(heights: &[Height]) -> i64 {
    let mut most = 0;
    for at in heights {
        if at.distance < INFINITY {
            most = at.distance.max(most);
        }
    }
    most
}

// Writes the potentials lowered by distances, and those of nodes from which nothing leads to a deficit by the farthest one.
fn write_lowered(flow: &Flow, heights: &mut [Height], most: i64)
    requires { length heights.old ≡ (graph flow.now.net).nodes }
{
    for (v, node) in flow.nodes.iter().enumerate() {
        let by = heights[v].distance.min(most);
        heights[v].distance = node.potential.saturating_sub(by);
    }
}

// Whether the potential in the heights is one that node `v` may have.
fn fits_node(flow: &Flow, heights: &[Height], v: usize) -> bool
    requires nodes { length heights.now ≡ (graph flow.now.net).nodes }
    requires node { v < (graph flow.now.net).nodes }
    ensures { IsTrue result ↔
        FitsNode (graph flow.now.net).nodes (state flow.now) (distance_of heights.now) v }
{
    let potential = heights[v].distance;
    let most = (flow.net.nodes() as u64) << 31;
    potential.unsigned_abs() <= most && (flow.nodes[v].excess >= 0 || potential == 0)
}

// Whether a unit at this cost from a tail with this potential to a head with that one costs at least nothing.
fn is_priced(cost: i64, tail: i64, head: i64) -> bool
    requires cost { unsigned_abs cost ≤ 2 ^ 30 }
    requires tail { unsigned_abs tail ≤ 2 ^ 60 }
    ensures { IsTrue result ↔ (pos 0 ≤ℤ ((cost +ℤ tail) -ℤ head)) }
{
    cost + tail >= head
}

// Whether arc `a` is full or costs at least nothing by the potentials in the heights.
fn fits_arc(flow: &Flow, heights: &[Height], a: usize) -> bool
    requires nodes { FitsNodes (graph flow.now.net).nodes (state flow.now)
        (distance_of heights.now) }
    requires len { length heights.now ≡ (graph flow.now.net).nodes }
    requires arc { a < (graph flow.now.net).arcs }
    ensures { IsTrue result ↔
        FitsArc (graph flow.now.net) (state flow.now) (distance_of heights.now) a }
{
    let arc = flow.net.arcs[a];
    let cost = flow.net.unit_cost(flow.flow, a);
    !flow.open(a) || is_priced(cost, heights[arc.tail].distance, heights[arc.head].distance)
}

// Whether the potentials in the heights are such that each node may have.
fn fit_nodes(flow: &Flow, heights: &[Height]) -> bool
    requires { length heights.now ≡ (graph flow.now.net).nodes }
    ensures { IsTrue result →
        FitsNodes (graph flow.now.net).nodes (state flow.now) (distance_of heights.now) }
{
    for v in 0..flow.net.nodes() {
        if !fits_node(flow, heights, v) {
            return false;
        }
    }
    true
}

// Whether no arc that can take more costs less than nothing by the potentials in the heights.
fn fit_arcs(flow: &Flow, heights: &[Height]) -> bool
    requires nodes { FitsNodes (graph flow.now.net).nodes (state flow.now)
        (distance_of heights.now) }
    requires len { length heights.now ≡ (graph flow.now.net).nodes }
    ensures { IsTrue result →
        FitsArcs (graph flow.now.net) (state flow.now) (distance_of heights.now) }
{
    for a in 0..flow.net.arcs.len() {
        if !fits_arc(flow, heights, a) {
            return false;
        }
    }
    true
}

// Writes the potentials in the heights into the nodes.
fn write_potentials(nodes: &mut [Node], heights: &[Height])
    requires { length heights.now ≡ length nodes.old }
    ensures potential { (v : ℕ) → v < length nodes.old →
        potential_of nodes.new v ≡ distance_of heights.now v }
    ensures excess { (v : ℕ) → excess_of nodes.new v ≡ excess_of nodes.old v }
{
    for (v, node) in nodes.iter_mut().enumerate() {
        node.potential = heights[v].distance;
    }
}

// Takes the potentials in the heights if a check of all nodes and all arcs finds the state sound with them. Whether it does.
fn adopt(flow: &mut Flow, heights: &[Height]) -> bool
    requires sound { Sound (graph flow.old.net) (state flow.old) }
    requires nodes { length heights.now ≡ (graph flow.old.net).nodes }
    ensures kept { Kept flow.old flow.new }
    ensures taken { IsTrue result → (v : ℕ) → v < (graph flow.old.net).nodes →
        (state flow.new).potential v ≡ distance_of heights.now v }
    ensures refused { IsFalse result → flow.new ≡ flow.old }
{
    if !fit_nodes(flow, heights) || !fit_arcs(flow, heights) {
        return false;
    }
    write_potentials(flow.nodes, heights);
    true
}

// Lowers potentials by distances, so that from each node that leads to a deficit something goes there at reduced cost 0. Whether it
// found how.
pub(crate) fn lower(flow: &mut Flow, heights: &mut [Height], queue: &mut Queue) -> bool
    requires sound { Sound (graph flow.old.net) (state flow.old) }
    requires nodes { length heights.old ≡ (graph flow.old.net).nodes }
    ensures { Kept flow.old flow.new }
{
    find_distances(flow, heights, queue);
    if !brings_excess(flow, heights) {
        return false;
    }
    let most = farthest(heights);
    write_lowered(flow, heights, most);
    adopt(flow, heights)
}
