// From which side a search looks.
ghost use Rattle.std.specs.Prelude.{◌≡◌, ◌+◌, ◌^◌, ◌<◌, ◌≤◌, ◌⊎◌, length, pos, true, false, ◌≤ℤ◌, ◌<ℤ◌, unsigned_abs};
ghost use Rattle.net_cells.specs.Net.{back};

use crate::cell::{Cell, Costs, Flows};
use crate::way::Way;

/// How cells are seen: `stride` is the number of cells in a row, and from the `back` flow, excess and potentials are seen negated, so that
/// a search from what lacks is one from excess.
#[derive(Clone, Copy, PartialEq, Eq, Debug)]
pub struct Side {
    pub stride: usize,
    pub back: bool,
}

ghost use Rattle.net_cells.specs.Lists.{signed, head, cost_of, cost_in, potential_of, potential_in, excess_of, excess_in, inner_of, flow_of, flow_in, number};

/// A number as it is seen.
#[inline(always)]
pub fn signed(back: bool, z: i32) -> i32
    requires { unsigned_abs z < 2 ^ 31 }
    ensures { result ≡ signed back z }
{
    if back { -z } else { z }
}

/// A flow as it is seen.
#[inline(always)]
pub fn signed_flow(back: bool, z: i64) -> i64
    requires { unsigned_abs z < 2 ^ 63 }
    ensures { result ≡ signed back z }
{
    if back { -z } else { z }
}

/// Whether a search ends at cell `v`: it is outside, or lacks something.
#[inline(always)]
#[tactic(auto, unfolding(crate::specs::Lists::excess_in))]
pub fn lacks(cells: &[Cell], side: Side, v: usize) -> bool
    requires cell { v < length cells.now }
    ensures yes { result ≡ true → (inner_of cells.now v ≡ false) ⊎ (excess_in cells.now side v <ℤ
        pos 0) }
    ensures inner { result ≡ false → inner_of cells.now v ≡ true }
    ensures full { result ≡ false → pos 0 ≤ℤ excess_in cells.now side v }
{
    let cell = cells[v];
    !cell.inner || lacking(side.back, cell.excess)
}

fn lacking(back: bool, excess: i64) -> bool
    ensures yes { result ≡ true → signed back excess <ℤ pos 0 }
    ensures no { result ≡ false → pos 0 ≤ℤ signed back excess }
{
    if back { excess > 0 } else { excess < 0 }
}

/// What cell `u` has in excess, as it is seen.
#[inline(always)]
#[tactic(auto, unfolding(crate::specs::Lists::excess_in))]
pub fn excess_at(cells: &[Cell], side: Side, u: usize) -> i64
    requires cell { u < length cells.now }
    requires small { unsigned_abs (excess_of cells.now u) < 2 ^ 63 }
    ensures { result ≡ excess_in cells.now side u }
{
    signed_flow(side.back, cells[u].excess)
}

/// Its potential.
#[inline(always)]
#[tactic(auto, unfolding(crate::specs::Lists::potential_in))]
pub fn potential_at(cells: &[Cell], side: Side, u: usize) -> i32
    requires cell { u < length cells.now }
    requires small { unsigned_abs (potential_of cells.now u) < 2 ^ 31 }
    ensures { result ≡ potential_in cells.now side u }
{
    signed(side.back, cells[u].potential)
}

// What a unit more costs by one way out of cell `u`.
#[inline(always)]
fn cost_by(costs: &[Costs], u: usize, way: Way) -> i32
    requires { u < length costs.now }
    ensures { result ≡ cost_of costs.now u (number way) }
{
    let here = costs[u];
    match way {
        Way::Right => i32::from(here.right),
        Way::Left => i32::from(here.left),
        Way::Up => i32::from(here.up),
        Way::Down => i32::from(here.down),
    }
}

impl Side {
    ghost use Rattle.net_cells.specs.Lists.{head, cost_in, flow_in, flow_of, number};

    /// The neighbour of cell `u` by one way.
    #[inline(always)]
    #[tactic(auto, unfolding(crate::specs::Lists::head))]
    pub fn head(self, u: usize, way: Way) -> usize
        requires some { 1 ≤ self.stride }
        requires low { self.stride ≤ u }
        requires high { u + self.stride < 2 ^ 32 }
        ensures { result ≡ head self.stride u (number way) }
    {
        match way {
            Way::Right => u + 1,
            Way::Left => u - 1,
            Way::Up => u - self.stride,
            Way::Down => u + self.stride,
        }
    }

    /// What a unit more costs by one way out of cell `u`, which leads to `v`: from the back, what one less costs at the edge's other end.
    #[inline(always)]
    #[tactic(auto, unfolding(crate::specs::Lists::cost_in))]
    pub fn cost(self, costs: &[Costs], u: usize, v: usize, way: Way) -> i32
        requires tail { u < length costs.now }
        requires head { v < length costs.now }
        requires leads { v ≡ head self.stride u (number way) }
        ensures { result ≡ cost_in costs.now self u (number way) }
    {
        if self.back {
            cost_by(costs, v, way.back())
        } else {
            cost_by(costs, u, way)
        }
    }
}
