// The way that a search found, from its end back to its source.
ghost use Rattle.std.specs.Prelude.{◌≡◌, ℕ, ◌+◌, ◌^◌, ◌<◌, ◌≤◌, length, true, pos, ◌+ℤ◌, ◌≢◌, ◌≤ℤ◌, ◌<ℤ◌, neg_ℤ, unsigned_abs};
ghost use Rattle.net_cells.specs.Net.{back};
ghost use Rattle.net_cells.specs.Lists.{number, head, inner_of, excess_of, excess_in, potential_of, flow_of, flow_in};
ghost use Rattle.net_cells.specs.Fenced.{Fenced};
ghost use Rattle.net_cells.specs.Sound.{Sound, Later, left_in};
ghost use Rattle.net_cells_search.specs.Marks.{way_of};
ghost use Rattle.net_cells_solve.specs.Walk.{LeadsTo, TakesTo, Sendable, Accounted};

use crate::flow::{flow_at, push};
use net_cells::{Cell, Costs, Flows, Side, Way, excess_at, signed_flow};
use net_cells_search::Room;

// How much of `least` can go where `flow` goes before a unit more costs another amount.
#[inline(always)]
fn fitting(least: i64, flow: i64) -> i64
    requires { unsigned_abs flow ≤ 2 ^ 62 }
    ensures less { result ≤ℤ least }
    ensures fits { flow <ℤ pos 0 → result ≤ℤ neg_ℤ flow }
    ensures some { pos 0 <ℤ least → pos 0 <ℤ result }
{
    if flow < 0 { least.min(-flow) } else { least }
}

// The cell from which a step leads to `v` by one way.
#[inline(always)]
#[tactic(auto, unfolding(net_cells::specs::Lists::head, net_cells::specs::Net::back))]
fn step_from(side: Side, v: usize, way: Way) -> usize
    requires size { v + side.stride < 2 ^ 32 }
    requires leads { head side.stride (head side.stride v (back (number way))) (number way) ≡ v }
    requires some { 1 ≤ side.stride }
    requires cell { side.stride < head side.stride v (back (number way)) }
    ensures { result ≡ head side.stride v (back (number way)) }
{
    match way {
        Way::Right => v - 1,
        Way::Left => v + 1,
        Way::Up => v + side.stride,
        Way::Down => v - side.stride,
    }
}

// The way of the last step to cell `v`.
#[inline(always)]
fn way_at(room: &Room, v: usize) -> Way
    requires { v < length room.now.marks.now }
    ensures { number result ≡ way_of room.now.marks.now v }
{
    room.marks[v].way
}

// How much `source` has and `target` lacks, if that is no cell outside.
fn limit(cells: &[Cell], side: Side, source: usize, target: usize) -> i64
    requires source { source < length cells.now }
    requires target { target < length cells.now }
    requires small { unsigned_abs (excess_of cells.now source) ≤ 2 ^ 62 }
    requires small_target { inner_of cells.now target ≡ true →
        unsigned_abs (excess_of cells.now target) ≤ 2 ^ 62 }
    requires small_in { inner_of cells.now target ≡ true →
        unsigned_abs (excess_in cells.now side target) ≤ 2 ^ 62 }
    requires excess { pos 0 <ℤ excess_in cells.now side source }
    requires lacks { inner_of cells.now target ≡ true → excess_in cells.now side target <ℤ pos 0 }
    ensures some { pos 0 <ℤ result }
    ensures enough { result ≤ℤ excess_in cells.now side source }
    ensures wanted { inner_of cells.now target ≡ true → result ≤ℤ
        neg_ℤ (excess_in cells.now side target) }
{
    let has = excess_at(cells, side, source);
    if cells[target].inner {
        fitting(has, excess_at(cells, side, target))
    } else {
        has
    }
}

// How much can go from `source` to `target` along the way found.
pub(crate) fn most(
    cells: &[Cell],
    flows: &[Flows],
    room: &Room,
    side: Side,
    source: usize,
    target: usize,
) -> i64
    requires flows { length flows.now ≡ length cells.now }
    requires marks { length room.now.marks.now ≡ length cells.now }
    requires size { length cells.now ≤ 263169 }
    requires stride { 1 ≤ side.stride }
    requires low { (u : ℕ) → inner_of cells.now u ≡ true → side.stride < u }
    requires high { (u : ℕ) → inner_of cells.now u ≡ true → u + side.stride < length cells.now }
    requires source { source < length cells.now }
    requires target { target < length cells.now }
    requires small { unsigned_abs (excess_of cells.now source) ≤ 2 ^ 62 }
    requires small_target { inner_of cells.now target ≡ true →
        unsigned_abs (excess_of cells.now target) ≤ 2 ^ 62 }
    requires small_in { inner_of cells.now target ≡ true →
        unsigned_abs (excess_in cells.now side target) ≤ 2 ^ 62 }
    requires small_flow { (u d : ℕ) → inner_of cells.now u ≡ true → d < 4 →
        unsigned_abs (flow_of flows.now side.stride u d) ≤ 2 ^ 62 }
    requires small_flow_in { (u d : ℕ) → inner_of cells.now u ≡ true → d < 4 →
        unsigned_abs (flow_in flows.now side u d) ≤ 2 ^ 62 }
    requires excess { pos 0 <ℤ excess_in cells.now side source }
    requires lacks { inner_of cells.now target ≡ true → excess_in cells.now side target <ℤ pos 0 }
    requires leads { LeadsTo cells.now side room.now.marks.now source target }
    ensures some { pos 0 <ℤ result }
    ensures enough { result ≤ℤ excess_in cells.now side source }
    ensures wanted { inner_of cells.now target ≡ true → result ≤ℤ
        neg_ℤ (excess_in cells.now side target) }
    ensures takes { TakesTo cells.now flows.now side room.now.marks.now source result target }
{
    let mut least = limit(cells, side, source, target);
    let mut v = target;
    while v != source {
        let way = way_at(room, v);
        let u = step_from(side, v, way);
        least = fitting(least, flow_at(flows, side, u, way));
        v = u;
    }
    least
}

// Takes what was sent off the excess of `source`, and adds it to that of `target`, if that is no cell outside.
#[inline(always)]
#[tactic(auto, unfolding(net_cells::specs::Lists::excess_in, net_cells::specs::Lists::potential_in))]
fn account(cells: &mut [Cell], side: Side, source: usize, target: usize, amount: i64)
    requires source { source < length cells.old }
    requires target { target < length cells.old }
    requires apart { source ≢ target }
    requires small_source { unsigned_abs (excess_of cells.old source) ≤ 2 ^ 62 }
    requires small_target { inner_of cells.old target ≡ true →
        unsigned_abs (excess_of cells.old target) ≤ 2 ^ 62 }
    requires small { unsigned_abs amount < 2 ^ 62 }
    ensures { Accounted cells.old cells.new side source target amount }
{
    let sent = signed_flow(side.back, amount);
    add_excess(cells, source, -sent);
    if cells[target].inner {
        add_excess(cells, target, sent);
    }
}

// Adds to what a cell has in excess.
#[inline(always)]
fn add_excess(cells: &mut [Cell], v: usize, z: i64)
    requires cell { v < length cells.old }
    requires small { unsigned_abs (excess_of cells.old v) ≤ 2 ^ 62 }
    requires small_change { unsigned_abs z < 2 ^ 62 }
    ensures here { excess_of cells.new v ≡ excess_of cells.old v +ℤ z }
    ensures kept { (w : ℕ) → (w ≢ v) → excess_of cells.new w ≡ excess_of cells.old w }
    ensures inner { (w : ℕ) → inner_of cells.new w ≡ inner_of cells.old w }
    ensures potential { (w : ℕ) → potential_of cells.new w ≡ potential_of cells.old w }
{
    cells[v].excess += z;
}

// Sends an amount from `source` to `target` along the way found.
pub(crate) fn send(
    cells: &mut [Cell],
    flows: &mut [Flows],
    costs: &mut [Costs],
    room: &Room,
    side: Side,
    source: usize,
    target: usize,
    amount: i64,
)
    requires marks { length room.now.marks.now ≡ length cells.old }
    requires fenced { Fenced cells.old costs.old side }
    requires sound { Sound cells.old flows.old costs.old side }
    requires source { source < length cells.old }
    requires target { target < length cells.old }
    requires inner { inner_of cells.old source ≡ true }
    requires some { pos 0 <ℤ amount }
    requires enough { amount ≤ℤ excess_in cells.old side source }
    requires wanted { inner_of cells.old target ≡ true → amount ≤ℤ
        neg_ℤ (excess_in cells.old side target) }
    requires sendable { Sendable cells.old flows.old flows.old costs.old side room.now.marks.now
        source amount target }
    requires small_target { inner_of cells.old target ≡ true →
        unsigned_abs (excess_of cells.old target) ≤ 2 ^ 62 }
    ensures fenced { Fenced cells.new costs.new side }
    ensures sound { Sound cells.new flows.new costs.new side }
    ensures later { Later cells.old cells.new flows.old flows.new costs.old costs.new side }
    ensures less { left_in cells.new side < left_in cells.old side }
{
    let mut v = target;
    while v != source {
        let way = way_at(room, v);
        let u = step_from(side, v, way);
        push(flows, costs, side, u, v, way, amount);
        v = u;
    }
    account(cells, side, source, target, amount);
}
