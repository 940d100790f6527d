// Networks from any lent lists, tested first.
ghost use Rattle.std.specs.Prelude.{◌≡◌, ℕ, ◌+◌, ◌-◌, ◌^◌, ◌<◌, ◌≤◌, ◌↔◌, length, pos, ◌≤ℤ◌, if◌then◌else◌, int_lt, IsTrue, IfOk, OnErr};
ghost use Rattle.net_graph.specs.Graph.{IsArc, WellFormed, negative_arc_capacity};
ghost use Rattle.sums.specs.Sum.{sum_ℤ};
ghost use Rattle.test_solver.specs.Lists.{graph};
ghost use Rattle.test_solver.specs.Parts.{Grouped, Paired, Convex, Rising};

use net_graph::{Arc, Network};

/// Lists that may make a network: where the arcs of each node begin, with one end more, and the arcs.
#[derive(Clone, Copy)]
pub struct Lists<'a> {
    pub first: &'a [usize],
    pub arcs: &'a [Arc],
}

/// Lists that make no well-formed network.
#[derive(Clone, Copy, PartialEq, Eq, Debug)]
pub struct Malformed;

// The capacity of an arc of negative cost, and 0 of all others.
fn gain(arc: &Arc) -> i64
    requires allowed { pos 0 ≤ℤ arc.now.limit }
    requires limited { arc.now.limit ≤ℤ pos (2 ^ 60) }
    ensures value { result ≡ (if int_lt arc.now.cost (pos 0) then arc.now.limit else pos 0) }
    ensures low { pos 0 ≤ℤ result }
    ensures high { result ≤ℤ pos (2 ^ 60) }
{
    if arc.cost < 0 { arc.limit } else { 0 }
}

impl<'a> Lists<'a> {
    // How many nodes they have, none where `first` is empty.
    fn nodes(&self) -> usize
        ensures { result ≡ (graph self.now).nodes }
    {
        self.first.len().saturating_sub(1)
    }

    // Whether the arcs of each node end where those of the next begin, and all are among the arcs.
    fn rises(&self) -> bool
        ensures { IsTrue result ↔ Rising self.now.first.now (graph self.now).arcs }
    {
        self.first.is_sorted() && self.first.last().is_some_and(|&end| end <= self.arcs.len())
    }

    // Whether arc `a` lies among those of its tail.
    fn grouped(&self, a: usize) -> bool
        requires { a < (graph self.now).arcs }
        ensures { IsTrue result ↔ Grouped (graph self.now) a }
    {
        let arc = self.arcs[a];
        let n = self.nodes();
        arc.tail < n && arc.head < n && self.first[arc.tail] <= a && a < self.first[arc.tail + 1]
    }

    // Whether the pair of arc `a` is the same edge in the other direction.
    fn paired(&self, a: usize) -> bool
        requires { a < (graph self.now).arcs }
        ensures { IsTrue result ↔ Paired (graph self.now) a }
    {
        let arc = self.arcs[a];
        let b = arc.pair;
        b < self.arcs.len() && b != a && self.arcs[b].pair == a && self.arcs[b].tail == arc.head
    }

    // Whether the cost and the limit of arc `a` are in range, and a unit there and back costs nothing or more.
    fn convex(&self, a: usize) -> bool
        requires arc { a < (graph self.now).arcs }
        requires pair { (graph self.now).pair a < (graph self.now).arcs }
        ensures { IsTrue result ↔ Convex (graph self.now) a }
    {
        let arc = self.arcs[a];
        arc.cost.unsigned_abs() <= 1 << 30
            && 0 <= arc.limit
            && arc.limit <= 1 << 60
            && -arc.cost <= self.arcs[arc.pair].cost
    }

    // Whether arc `a` is well-formed.
    fn arc_formed(&self, a: usize) -> bool
        requires { a < (graph self.now).arcs }
        ensures { IsTrue result ↔ IsArc (graph self.now) a }
    {
        self.grouped(a) && self.paired(a) && self.convex(a)
    }

    // Whether all arcs are.
    fn arcs_formed(&self) -> bool
        ensures { IsTrue result ↔ ((a : ℕ) → a < (graph self.now).arcs → IsArc (graph self.now) a) }
    {
        (0..self.arcs.len()).all(|a| self.arc_formed(a))
    }

    // Whether arcs of negative cost have little enough capacity in all.
    fn gains_few(&self) -> bool
        requires { (a : ℕ) → a < (graph self.now).arcs → IsArc (graph self.now) a }
        ensures { IsTrue result ↔ (sum_ℤ (graph self.now).arcs
            (negative_arc_capacity (graph self.now)) ≤ℤ pos (2 ^ 59)) }
    {
        let mut sum = 0;
        for arc in self.arcs {
            sum += gain(arc);
            if sum > 1 << 59 {
                return false;
            }
        }
        true
    }

    /// The network of these lists, if they make a well-formed one.
    pub fn network(self) -> Result<Network<'a>, Malformed>
        ensures first { IfOk result (λ net. net.first ≡ self.entry.first) }
        ensures arcs { IfOk result (λ net. net.arcs ≡ self.entry.arcs) }
        ensures malformed { OnErr result (WellFormed self.entry.first.now self.entry.arcs.now → ⊥) }
    {
        let few = self.nodes() <= 1 << 28 && self.arcs.len() <= 1 << 32;
        if few && self.rises() && self.arcs_formed() && self.gains_few() {
            Ok(Network {
                first: self.first,
                arcs: self.arcs,
            })
        } else {
            Err(Malformed)
        }
    }
}
