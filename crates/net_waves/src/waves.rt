// Waves one after another, and potentials lowered between them.
ghost use Rattle.std.specs.Prelude.{◌≡◌, ◌^◌, ◌<◌, length};
ghost use Rattle.net_graph.specs.Network.{graph};
ghost use Rattle.net_graph.specs.Sound.{state, Sound};
ghost use Rattle.net_solve.specs.Promise.{SameFlow};
ghost use Rattle.net_waves.specs.Promise.{HasSlices, SameSupplies, Kept};

use crate::levels::{UNREACHED, find_levels, find_tight, level_of};
use crate::lower::lower;
use crate::push::{push_tight, take_from_rest};
use crate::queue::{Queue, wait};
use crate::slices::{Height, Tight, WaveSlices};
use net_graph::Flow;

// How many waves there are at most before potentials are lowered, and how often these are.
const WAVES: usize = 400;

const LOWERINGS: usize = 200;

// A wave ends when a node for each so many of the network has been discharged: then levels are told anew.
const SHARE: usize = 4;

// Puts the nodes with an excess into the queue that something goes from to a deficit. Whether there are any.
fn queue_excess(flow: &Flow, heights: &mut [Height], queue: &mut Queue) -> bool
    requires { length heights.old ≡ (graph flow.now.net).nodes }
{
    queue.clear();
    for (v, node) in flow.nodes.iter().enumerate() {
        if node.excess > 0 && heights[v].level != UNREACHED {
            wait(heights, queue, v);
        }
    }
    queue.len > 0
}

// Pushes along arc `a` if its head is on a lower level than its tail, and puts the head into the queue if that has an excess then.
fn push_down(
    flow: &mut Flow,
    tight: &mut [Tight],
    heights: &mut [Height],
    queue: &mut Queue,
    a: usize,
)
    requires sound { Sound (graph flow.old.net) (state flow.old) }
    requires arcs { length tight.old ≡ (graph flow.old.net).arcs }
    requires nodes { length heights.old ≡ (graph flow.old.net).nodes }
    requires arc { a < (graph flow.old.net).arcs }
    ensures { Kept flow.old flow.new }
{
    let v = flow.net.arcs[a].head;
    if heights[v].level >= heights[flow.net.arcs[a].tail].level {
        return;
    }
    let amount = push_tight(flow, a);
    take_from_rest(tight, a, amount);
    if flow.nodes[v].excess > 0 {
        wait(heights, queue, v);
    }
}

// Pushes along arc `a` what can be pushed. The level of its head if something is left to push along it.
fn advance(
    flow: &mut Flow,
    tight: &mut [Tight],
    heights: &mut [Height],
    queue: &mut Queue,
    a: usize,
) -> u32
    requires sound { Sound (graph flow.old.net) (state flow.old) }
    requires arcs { length tight.old ≡ (graph flow.old.net).arcs }
    requires nodes { length heights.old ≡ (graph flow.old.net).nodes }
    requires arc { a < (graph flow.old.net).arcs }
    ensures { Kept flow.old flow.new }
{
    if tight[a].rest <= 0 {
        return UNREACHED;
    }
    push_down(flow, tight, heights, queue, a);
    if tight[a].rest > 0 {
        level_of(heights, tight[a].head as usize)
    } else {
        UNREACHED
    }
}

// Puts node `u` one level above the lowest head that something can still be pushed to, and behind all others that wait.
fn relabel(heights: &mut [Height], queue: &mut Queue, u: usize, lowest: u32)
    requires node { u < length heights.old }
    requires small { u < 2 ^ 32 }
{
    heights[u].level = lowest.saturating_add(1);
    if lowest != UNREACHED {
        wait(heights, queue, u);
    }
}

// Pushes what node `u` has in excess to heads on lower levels, and puts it on a higher level if something is left.
fn discharge(
    flow: &mut Flow,
    tight: &mut [Tight],
    heights: &mut [Height],
    queue: &mut Queue,
    u: usize,
)
    requires sound { Sound (graph flow.old.net) (state flow.old) }
    requires arcs { length tight.old ≡ (graph flow.old.net).arcs }
    requires nodes { length heights.old ≡ (graph flow.old.net).nodes }
    requires node { u < (graph flow.old.net).nodes }
    ensures { Kept flow.old flow.new }
{
    let net = flow.net;
    let mut lowest = UNREACHED;
    for a in net.first[u]..net.first[u + 1] {
        let level = advance(flow, tight, heights, queue, a);
        if flow.nodes[u].excess <= 0 {
            return;
        }
        lowest = lowest.min(level);
    }
    relabel(heights, queue, u, lowest);
}

// Discharges the nodes in the queue, first in first out, until a share of them is done.
fn discharge_some(flow: &mut Flow, tight: &mut [Tight], heights: &mut [Height], queue: &mut Queue)
    requires sound { Sound (graph flow.old.net) (state flow.old) }
    requires arcs { length tight.old ≡ (graph flow.old.net).arcs }
    requires nodes { length heights.old ≡ (graph flow.old.net).nodes }
    ensures { Kept flow.old flow.new }
{
    for _ in 0..heights.len() / SHARE + 1 {
        let Some(u) = queue.take() else {
            return;
        };
        if u < heights.len() {
            heights[u].waits = false;
            if flow.nodes[u].excess > 0 {
                discharge(flow, tight, heights, queue, u);
            }
        }
    }
}

// Pushes as much to deficits as goes at reduced cost 0, wave after wave.
fn push_all(flow: &mut Flow, tight: &mut [Tight], heights: &mut [Height], queue: &mut Queue)
    requires sound { Sound (graph flow.old.net) (state flow.old) }
    requires arcs { length tight.old ≡ (graph flow.old.net).arcs }
    requires nodes { length heights.old ≡ (graph flow.old.net).nodes }
    ensures { Kept flow.old flow.new }
{
    find_tight(flow, tight);
    for _ in 0..WAVES {
        find_levels(flow, tight, heights, queue);
        if !queue_excess(flow, heights, queue) {
            return;
        }
        discharge_some(flow, tight, heights, queue);
    }
}

// Pushes, and lowers potentials where nothing more can be pushed, again and again.
fn push_and_lower(flow: &mut Flow, tight: &mut [Tight], heights: &mut [Height], queue: &mut Queue)
    requires sound { Sound (graph flow.old.net) (state flow.old) }
    requires arcs { length tight.old ≡ (graph flow.old.net).arcs }
    requires nodes { length heights.old ≡ (graph flow.old.net).nodes }
    ensures { Kept flow.old flow.new }
{
    for _ in 0..LOWERINGS {
        push_all(flow, tight, heights, queue);
        if !lower(flow, heights, queue) {
            return;
        }
    }
}

/// Pushes excess to deficits by levels along arcs of reduced cost 0, and lowers potentials where nothing more can be pushed. It mostly
/// leaves no excess, but promises only that a sound state stays sound with the same supplies: what is left is the solver's. The method is
/// that of primal and dual steps, with push-relabel (Goldberg and Tarjan) for the primal ones.
pub fn push_waves(flow: &mut Flow, slices: &mut WaveSlices)
    requires lengths { HasSlices (graph flow.old.net) slices.old }
    requires sound { Sound (graph flow.old.net) (state flow.old) }
    ensures same { SameFlow flow.old flow.new }
    ensures sound { Sound (graph flow.old.net) (state flow.new) }
    ensures supplies { SameSupplies (graph flow.old.net) (state flow.old) (state flow.new) }
{
    let mut queue = Queue::new(slices.slots);
    push_and_lower(flow, slices.tight, slices.heights, &mut queue);
}
