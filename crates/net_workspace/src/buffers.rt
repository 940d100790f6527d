// Vectors that a workspace is lent from.
ghost use Rattle.std.specs.Prelude.{◌≡◌, ◌^◌, ◌≤◌, length, IfOk};

use crate::workspace::Workspace;
use net_graph::{Arc, Node};
use net_search::Label;
use net_waves::{Height, Tight};
use std::alloc::{AllocError, Global};

/// Vectors that a workspace is lent from, once: it can be solved in as often as is wanted.
// How long they are is a clause of its methods: all fields at once go out of no struct that keeps facts.
#[derive(Drop)]
pub struct Buffers {
    first: Vec<usize>,
    next: Vec<usize>,
    arcs: Vec<Arc>,
    arc_of: Vec<usize>,
    flow: Vec<i64>,
    nodes: Vec<Node>,
    labels: Vec<Label>,
    order: Vec<usize>,
    frontier: Vec<usize>,
    tight: Vec<Tight>,
    heights: Vec<Height>,
    slots: Vec<u32>,
}

impl Buffers {
    ghost use Rattle.net_workspace.specs.Buffers.{node_count, edge_count, IsSized};

    /// Vectors for `nodes` nodes and `edges` edges, if there is memory for all of them.
    pub fn new(heap: Global, nodes: usize, edges: usize) -> Result<Buffers, AllocError>
        requires few_nodes { nodes ≤ 2 ^ 28 }
        requires few_edges { edges ≤ 2 ^ 31 }
        ensures sized { IfOk result IsSized }
        ensures nodes { IfOk result (λ buffers. node_count buffers ≡ nodes) }
        ensures edges { IfOk result (λ buffers. edge_count buffers ≡ edges) }
    {
        let arcs = 2 * edges;
        Ok(Buffers {
            first: vec![in heap; 0; nodes + 1]?,
            next: vec![in heap; 0; nodes]?,
            arcs: vec![in heap; Arc::default(); arcs]?,
            arc_of: vec![in heap; 0; edges]?,
            flow: vec![in heap; 0; arcs]?,
            nodes: vec![in heap; Node::default(); nodes]?,
            labels: vec![in heap; Label::default(); nodes]?,
            order: vec![in heap; 0; nodes]?,
            frontier: vec![in heap; 0; nodes]?,
            tight: vec![in heap; Tight::default(); arcs]?,
            heights: vec![in heap; Height::default(); nodes]?,
            slots: vec![in heap; 0; nodes]?,
        })
    }

    /// The vectors as what a solve works on.
    pub fn lend(&mut self) -> Workspace<'_>
        requires sized { IsSized self.old }
        ensures nodes { length result.nodes.now ≡ node_count self.old }
        ensures edges { length result.arc_of.now ≡ edge_count self.old }
    {
        Workspace {
            first: &mut self.first[..],
            next: &mut self.next[..],
            arcs: &mut self.arcs[..],
            arc_of: &mut self.arc_of[..],
            flow: &mut self.flow[..],
            nodes: &mut self.nodes[..],
            labels: &mut self.labels[..],
            order: &mut self.order[..],
            frontier: &mut self.frontier[..],
            tight: &mut self.tight[..],
            heights: &mut self.heights[..],
            slots: &mut self.slots[..],
        }
    }
}
