// Levels: how many arcs of reduced cost 0 lie between a node and the nearest deficit.
ghost use Rattle.std.specs.Prelude.{◌≡◌, ◌<◌, length};
ghost use Rattle.net_graph.specs.Network.{graph};
ghost use Rattle.net_graph.specs.Sound.{state, Sound};

use crate::queue::Queue;
use crate::slices::{Height, Tight};
use net_graph::{Flow, Network};

/// The level of a node from which nothing goes to a deficit.
pub(crate) const UNREACHED: u32 = u32::MAX;

// The level of node `v`, if it is one.
pub(crate) fn level_of(heights: &[Height], v: usize) -> u32 {
    heights.get(v).map_or(UNREACHED, |at| at.level)
}

// What is left to push along arc `a` at reduced cost 0: beyond a flow of 0, too, where a unit costs as much there as before.
fn tight_at(flow: &Flow, a: usize) -> Tight
    requires sound { Sound (graph flow.now.net) (state flow.now) }
    requires arc { a < (graph flow.now.net).arcs }
{
    let arc = flow.net.arcs[a];
    let bends = arc.cost + flow.net.arcs[arc.pair].cost > 0;
    let x = flow.flow[a];
    let mut rest = 0;
    if flow.open(a) && flow.reduced_cost(a) == 0 {
        rest = if x < 0 && bends { -x } else { arc.limit - x };
    }
    Tight {
        head: arc.head as u32,
        pair: arc.pair as u32,
        rest,
    }
}

// Finds what is left to push along each arc at reduced cost 0.
pub(crate) fn find_tight(flow: &Flow, tight: &mut [Tight])
    requires sound { Sound (graph flow.now.net) (state flow.now) }
    requires arcs { length tight.old ≡ (graph flow.now.net).arcs }
{
    for (a, at) in tight.iter_mut().enumerate() {
        *at = tight_at(flow, a);
    }
}

// Puts all deficits at level 0 and into the queue.
fn start_levels(flow: &Flow, heights: &mut [Height], queue: &mut Queue)
    requires { length heights.old ≡ (graph flow.now.net).nodes }
{
    queue.clear();
    for (v, node) in flow.nodes.iter().enumerate() {
        heights[v].level = UNREACHED;
        heights[v].waits = false;
        if node.excess < 0 {
            heights[v].level = 0;
            queue.put(v);
        }
    }
}

// Puts the head of arc `b` on this level, if it has none yet and something can be pushed along the pair, from the head to the tail.
fn raise_head(tight: &[Tight], heights: &mut [Height], queue: &mut Queue, b: usize, level: u32)
    requires { b < length tight.now }
{
    let u = tight[b].head as usize;
    let a = tight[b].pair as usize;
    if u >= heights.len() || a >= tight.len() {
        return;
    }
    if heights[u].level == UNREACHED && tight[a].rest > 0 {
        heights[u].level = level;
        queue.put(u);
    }
}

// Puts the nodes from which something can be pushed to node `v` one level above it, if they have none yet.
fn spread_level(net: &Network, tight: &[Tight], heights: &mut [Height], queue: &mut Queue, v: usize)
    requires arcs { length tight.now ≡ (graph net.now).arcs }
    requires nodes { length heights.old ≡ (graph net.now).nodes }
    requires node { v < (graph net.now).nodes }
{
    let level = heights[v].level.saturating_add(1);
    for b in net.first[v]..net.first[v + 1] {
        raise_head(tight, heights, queue, b, level);
    }
}

// Tells the level of each node.
pub(crate) fn find_levels(flow: &Flow, tight: &[Tight], heights: &mut [Height], queue: &mut Queue)
    requires arcs { length tight.now ≡ (graph flow.now.net).arcs }
    requires nodes { length heights.old ≡ (graph flow.now.net).nodes }
{
    start_levels(flow, heights, queue);
    for _ in 0..heights.len() {
        let Some(v) = queue.take() else {
            return;
        };
        if v < heights.len() {
            spread_level(&flow.net, tight, heights, queue, v);
        }
    }
}
