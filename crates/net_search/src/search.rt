// Shortest paths from one node by reduced costs, as far as the nearest deficit: the algorithm of Dijkstra, cut off.
ghost use Rattle.std.specs.Prelude.{◌≡◌, ℕ, ◌+◌, ◌<◌, ◌≤◌, length, pos, ◌≤ℤ◌, ◌<ℤ◌, IfNone, IfSome, SomeIff};
ghost use Rattle.net_graph.specs.Network.{graph};
ghost use Rattle.net_graph.specs.Node.{excess_of};
ghost use Rattle.net_graph.specs.Sound.{state, Sound};
ghost use Rattle.net_graph.specs.Order.{node_at};
ghost use Rattle.net_search.specs.Label.{distance_of, place_of, infinity, Listed};

use crate::label::{INFINITY, Label, blank};
use crate::lists::{discover, forget, nearest, reach};
use net_graph::{Flow, Node};

/// A search on lent slices: the label of each node; the reached nodes, each at its place; and the frontier, the labelled nodes
/// that are not reached yet.
#[derive(Drop)]
pub struct Search<'m, 'o, 'f> {
    pub labels: &'m mut [Label],
    pub order: &'o mut [usize],
    pub frontier: &'f mut [usize],
    pub source: usize,
    /// How many nodes of `order` are reached.
    pub reached: usize,
    /// How many nodes of `frontier` wait.
    pub waiting: usize,
    /// The distance of the node reached last.
    pub last_distance: i64,
    /// Only deficits nearer than this are looked for.
    pub radius: i64,
    /// The distance of `target`, or `radius` where there is none.
    pub bound: i64,
    /// The nearest labelled node with a deficit.
    pub target: usize,
    ghost same_len: { length labels.now ≡ length order.now },
    ghost as_long: { length frontier.now ≡ length order.now },
    ghost listed: { Listed (length order.now) (distance_of labels.now) (place_of labels.now)
        (node_at order.now) (node_at frontier.now)
        reached waiting },
}

impl<'m, 'o, 'f> Search<'m, 'o, 'f> {
    ghost use Rattle.net_search.specs.Tree.{tree, HasLengths, SameSlices, IsPathTree, IsShortest, NoShorterPath};
    ghost use Rattle.net_search.specs.Inner.{Searching, InHand, Improved, LabelTaken, Ended, Reached, Advanced};
    ghost use Rattle.net_search.specs.Inner.{Forgot, Begun};

    /// A search that has labelled no node yet.
    pub fn new(
        labels: &'m mut [Label],
        order: &'o mut [usize],
        frontier: &'f mut [usize],
    ) -> Search<'m, 'o, 'f>
        requires labels { length labels.old ≡ length order.old }
        requires frontier { length frontier.old ≡ length order.old }
        ensures lengths { HasLengths (length order.old) result }
        ensures labels { result.labels.ghost_name ≡ labels.entry.ghost_name }
        ensures order { result.order.ghost_name ≡ order.entry.ghost_name }
        ensures frontier { result.frontier.ghost_name ≡ frontier.entry.ghost_name }
    {
        blank(labels);
        Search {
            labels,
            order,
            frontier,
            source: 0,
            reached: 0,
            waiting: 0,
            last_distance: 0,
            radius: INFINITY,
            bound: INFINITY,
            target: 0,
        }
    }

    // Forgets all labels.
    fn forget(&mut self)
        ensures slices { SameSlices self.old self.new }
        ensures forgot { Forgot (length self.old.order.now) (tree self.new) }
    {
        forget(
            self.labels,
            &self.order[..],
            &mut self.reached,
            &self.frontier[..],
            &mut self.waiting,
        );
    }

    // Gives node `v` the label `d`, by arc `a`, and puts it at the end of the frontier if it was not labelled.
    fn improve(&mut self, v: usize, a: usize, d: i64)
        requires node { v < length self.old.order.now }
        requires unreached { self.old.reached ≤ (tree self.old).place v }
        requires near { d <ℤ infinity }
        ensures slices { SameSlices self.old self.new }
        ensures improved { Improved (length self.old.order.now) (tree self.old)
            (tree self.new) v a d }
        ensures bound { self.new.bound ≡ self.old.bound }
        ensures target { self.new.target ≡ self.old.target }
    {
        discover(self.labels, self.frontier, &mut self.waiting, v, a, d);
    }

    // Takes the path to node `v` by arc `a`, of length `d`.
    fn take(&mut self, nodes: &[Node], v: usize, a: usize, d: i64)
        requires nodes { length nodes.now ≡ length self.old.order.now }
        requires node { v < length self.old.order.now }
        requires unreached { self.old.reached ≤ (tree self.old).place v }
        requires near { d <ℤ infinity }
        ensures slices { SameSlices self.old self.new }
        ensures taken { LabelTaken (length self.old.order.now) (excess_of nodes.now) (tree self.old)
            (tree self.new) v a d }
    {
        self.improve(v, a, d);
        if nodes[v].excess < 0 {
            self.bound = d;
            self.target = v;
        }
    }

    // Relaxes arc `a` of the node that was reached last. Most arcs lead no nearer than what is known, so whether one can take more
    // is asked last. One comparison with the lesser bound in place of two: which of two would end it is hard to foresee.
    fn relax(&mut self, flow: &Flow, a: usize)
        requires lengths { HasLengths (graph flow.now.net).nodes self.old }
        requires sound { Sound (graph flow.now.net) (state flow.now) }
        requires arc { a < (graph flow.now.net).arcs }
        requires searching { Searching (graph flow.now.net) (state flow.now)
            ((graph flow.now.net).tail a) a (tree self.old) }
        requires hand { InHand (graph flow.now.net).nodes (tree self.old)
            ((graph flow.now.net).tail a) }
        ensures slices { SameSlices self.old self.new }
        ensures searching { Searching (graph flow.now.net) (state flow.now)
            ((graph flow.now.net).tail a) (a + 1) (tree self.new) }
        ensures hand { InHand (graph flow.now.net).nodes (tree self.new)
            ((graph flow.now.net).tail a) }
        ensures reached { self.new.reached ≡ self.old.reached }
        ensures source { self.new.source ≡ self.old.source }
        ensures radius { self.new.radius ≡ self.old.radius }
    {
        let net = flow.net;
        let v = net.arcs[a].head;
        let d = self.last_distance + flow.reduced_cost(a);
        if d >= self.bound.min(self.labels[v].distance) {
            return;
        }
        if flow.open(a) {
            self.take(flow.nodes, v, a, d);
        }
    }

    // Relaxes the arcs of node `u`, which was reached last.
    fn scan(&mut self, flow: &Flow, u: usize)
        requires lengths { HasLengths (graph flow.now.net).nodes self.old }
        requires sound { Sound (graph flow.now.net) (state flow.now) }
        requires searching { Searching (graph flow.now.net) (state flow.now) u
            ((graph flow.now.net).first u) (tree self.old) }
        requires hand { InHand (graph flow.now.net).nodes (tree self.old) u }
        ensures slices { SameSlices self.old self.new }
        ensures searching { Searching (graph flow.now.net) (state flow.now)
            (graph flow.now.net).nodes 0 (tree self.new) }
        ensures reached { self.new.reached ≡ self.old.reached }
        ensures source { self.new.source ≡ self.old.source }
        ensures radius { self.new.radius ≡ self.old.radius }
    {
        let net = flow.net;
        for a in net.first[u]..net.first[u + 1] {
            self.relax(flow, a);
        }
    }

    // Where on the frontier the least label is, latest first.
    fn nearest(&self) -> usize
        requires some { 0 < self.now.waiting }
        requires high { (k : ℕ) → k < self.now.waiting →
            self.now.last_distance ≤ℤ (tree self.now).distance ((tree self.now).frontier k) }
        ensures waits { result < self.now.waiting }
        ensures least { (k : ℕ) → k < self.now.waiting →
            (tree self.now).distance ((tree self.now).frontier result) ≤ℤ
            (tree self.now).distance ((tree self.now).frontier k) }
    {
        nearest(
            self.labels,
            &self.frontier[..self.waiting],
            self.last_distance,
        )
    }

    // Reaches the node that waits at `k`; the last one waits there in its stead.
    fn reach(&mut self, k: usize) -> usize
        requires { k < self.old.waiting }
        ensures slices { SameSlices self.old self.new }
        ensures node { result ≡ (tree self.old).frontier k }
        ensures reached { Reached (length self.old.order.now) (tree self.old)
            (tree self.new) result }
    {
        reach(
            self.labels,
            self.order,
            &mut self.reached,
            self.frontier,
            &mut self.waiting,
            k,
        )
    }

    // Reaches a frontier node with the least distance, if it is nearer than the bound.
    fn advance(&mut self) -> Option<usize>
        requires bounded { self.old.bound ≤ℤ infinity }
        requires high { (v : ℕ) → v < length self.old.order.now →
            self.old.reached ≤ (tree self.old).place v →
            self.old.last_distance ≤ℤ (tree self.old).distance v }
        ensures slices { SameSlices self.old self.new }
        ensures same { IfNone result (self.new ≡ self.old) }
        ensures ended { IfNone result (Ended (length self.old.order.now) (tree self.old)) }
        ensures advanced { IfSome result (λ u. Advanced (length self.old.order.now) (tree self.old)
            (tree self.new) u) }
    {
        if self.bound <= self.last_distance || self.waiting == 0 {
            return None;
        }
        let k = self.nearest();
        let d = self.labels[self.frontier[k]].distance;
        if self.bound <= d {
            return None;
        }
        let u = self.reach(k);
        self.last_distance = d;
        Some(u)
    }

    // Forgets all, and puts `source` alone on the frontier.
    fn begin(&mut self, source: usize, radius: i64)
        requires { source < length self.old.order.now }
        ensures slices { SameSlices self.old self.new }
        ensures begun { Begun (length self.old.order.now) (tree self.new) }
        ensures source { self.new.source ≡ source }
        ensures radius { self.new.radius ≡ radius }
    {
        self.forget();
        self.improve(source, 0, 0);
        self.source = source;
        self.last_distance = 0;
        self.radius = radius;
        self.bound = radius;
    }

    /// The node with a deficit that is nearest to `source` by reduced costs, if one is nearer than `radius`, which is at most `INFINITY`.
    /// Leaves the distances of all nodes that are nearer, and the arcs of shortest paths to them.
    pub fn find(&mut self, flow: &Flow, source: usize, radius: i64) -> Option<usize>
        requires lengths { HasLengths (graph flow.now.net).nodes self.old }
        requires sound { Sound (graph flow.now.net) (state flow.now) }
        requires source { source < (graph flow.now.net).nodes }
        requires excess { pos 0 ≤ℤ (state flow.now).excess source }
        requires ahead { pos 0 ≤ℤ radius }
        requires radius_most { radius ≤ℤ infinity }
        ensures slices { SameSlices self.old self.new }
        ensures source { self.new.source ≡ source }
        ensures radius { self.new.radius ≡ radius }
        ensures paths { IsPathTree (graph flow.now.net) (state flow.now) (tree self.new) }
        ensures shortest { IsShortest (graph flow.now.net) (state flow.now) (tree self.new) }
        ensures least { NoShorterPath (graph flow.now.net) (state flow.now) (tree self.new) }
        ensures found { SomeIff result (self.new.bound <ℤ radius) self.new.target }
    {
        self.begin(source, radius);
        while let Some(u) = self.advance() {
            self.scan(flow, u);
        }
        (self.bound < radius).then_some(self.target)
    }
}
