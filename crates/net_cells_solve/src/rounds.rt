// The solver.
ghost use Rattle.std.specs.Prelude.{◌≡◌, ℕ, ◌+◌, ◌^◌, ◌<◌, ◌≤◌, ◌≢◌, length, true, false, pos, ◌≤ℤ◌, ◌<ℤ◌, slice_index};
ghost use Rattle.net_cells.specs.Fenced.{Fenced};
ghost use Rattle.net_cells.specs.Lists.{inner_of, excess_of, excess_in};
ghost use Rattle.net_cells.specs.Sound.{Sound, Later};
ghost use Rattle.net_cells_search.specs.Marks.{far, Blank};
ghost use Rattle.net_cells_search.specs.Room.{RoomFor};
ghost use Rattle.net_cells_solve.specs.Listing.{Listing, ahead, behind};

use crate::augment::augment;
use net_cells::{Cell, Costs, FAR, Flows, Side};
use net_cells_search::Room;

// Whether cell `u` has something in excess, as it is seen.
#[inline(always)]
#[tactic(auto, unfolding(net_cells::specs::Lists::excess_in))]
fn gives(cells: &[Cell], side: Side, u: usize) -> bool
    requires { u < length cells.now }
    ensures yes { result ≡ true → pos 0 <ℤ excess_in cells.now side u }
    ensures no { result ≡ false → excess_in cells.now side u ≤ℤ pos 0 }
{
    if side.back {
        cells[u].excess < 0
    } else {
        cells[u].excess > 0
    }
}

// Sends what `source` has in excess to ends nearer than `within`, until it has nothing in excess or there is no such end: then it answers how
// many cells the search in vain has met, and else 0.
fn drain(
    cells: &mut [Cell],
    flows: &mut [Flows],
    costs: &mut [Costs],
    side: Side,
    room: &mut Room,
    source: usize,
    within: i32,
) -> usize
    requires fenced { Fenced cells.old costs.old side }
    requires sound { Sound cells.old flows.old costs.old side }
    requires room { RoomFor (length cells.old) room.old }
    requires blank { Blank room.old.marks.now }
    requires cell { source < length cells.old }
    requires inner { inner_of cells.old source ≡ true }
    requires ahead { pos 0 ≤ℤ within }
    requires near { within ≤ℤ far }
    ensures fenced { Fenced cells.new costs.new side }
    ensures sound { Sound cells.new flows.new costs.new side }
    ensures room { RoomFor (length cells.new) room.new }
    ensures blank { Blank room.new.marks.now }
    ensures later { Later cells.old cells.new flows.old flows.new costs.old costs.new side }
    ensures everywhere { within ≡ far → excess_in cells.new side source ≤ℤ pos 0 }
{
    while gives(cells, side, source) {
        if !augment(cells, flows, costs, side, room, source, within) {
            return room.count;
        }
    }
    0
}

/// Sends what the first `count` listed cells have in excess, as it is seen, to ends nearer than `within`, as long as there are such ends;
/// but where searches in vain have met more than half as many cells as there are, a larger radius is better, and the rest is left to it,
/// unless there is none.
pub fn pass(
    cells: &mut [Cell],
    flows: &mut [Flows],
    costs: &mut [Costs],
    side: Side,
    room: &mut Room,
    list: &[u32],
    count: usize,
    within: i32,
)
    requires fenced { Fenced cells.old costs.old side }
    requires sound { Sound cells.old flows.old costs.old side }
    requires room { RoomFor (length cells.old) room.old }
    requires blank { Blank room.old.marks.now }
    requires count { count ≤ length list.now }
    requires cells { (k : ℕ) → k < count → slice_index list.now k < length cells.old }
    requires inner { (k : ℕ) → k < count → inner_of cells.old (slice_index list.now k) ≡ true }
    requires ahead { pos 0 ≤ℤ within }
    requires near { within ≤ℤ far }
    ensures fenced { Fenced cells.new costs.new side }
    ensures sound { Sound cells.new flows.new costs.new side }
    ensures room { RoomFor (length cells.new) room.new }
    ensures blank { Blank room.new.marks.now }
    ensures later { Later cells.old cells.new flows.old flows.new costs.old costs.new side }
    ensures everywhere { within ≡ far → (k : ℕ) → k < count →
        excess_in cells.new side (slice_index list.now k) ≤ℤ pos 0 }
{
    let mut in_vain: usize = 0;
    for k in 0..count {
        let source = list[k] as usize;
        let met = drain(cells, flows, costs, side, room, source, within);
        in_vain = in_vain.saturating_add(met);
        if within < FAR && in_vain > cells.len() / 2 {
            return;
        }
    }
}

// Keeps those of the first `count` listed cells that have something in excess or lack something. How many they are.
fn keep(cells: &[Cell], list: &mut [u32], count: usize) -> usize
    requires count { count ≤ length list.old }
    requires listing { Listing cells.now list.old count }
    ensures count { result ≤ length list.new }
    ensures listing { Listing cells.now list.new result }
{
    let mut kept = 0;
    for k in 0..count {
        let v = list[k];
        if cells[v as usize].excess != 0 {
            list[kept] = v;
            kept += 1;
        }
    }
    kept
}

// Sends what the first `count` listed cells have in excess, and then what they lack, to and from ends nearer than `within`.
fn round(
    cells: &mut [Cell],
    flows: &mut [Flows],
    costs: &mut [Costs],
    stride: usize,
    room: &mut Room,
    list: &[u32],
    count: usize,
    within: i32,
)
    requires fenced { Fenced cells.old costs.old (ahead stride) }
    requires sound { Sound cells.old flows.old costs.old (ahead stride) }
    requires room { RoomFor (length cells.old) room.old }
    requires blank { Blank room.old.marks.now }
    requires count { count ≤ length list.now }
    requires cells { (k : ℕ) → k < count → slice_index list.now k < length cells.old }
    requires inner { (k : ℕ) → k < count → inner_of cells.old (slice_index list.now k) ≡ true }
    requires some { pos 0 ≤ℤ within }
    requires near { within ≤ℤ far }
    ensures fenced { Fenced cells.new costs.new (ahead stride) }
    ensures sound { Sound cells.new flows.new costs.new (ahead stride) }
    ensures room { RoomFor (length cells.new) room.new }
    ensures blank { Blank room.new.marks.now }
    ensures later { Later cells.old cells.new flows.old flows.new costs.old costs.new
        (ahead stride) }
    ensures everywhere { within ≡ far → (k : ℕ) → k < count →
        excess_of cells.new (slice_index list.now k) ≡ pos 0 }
{
    let front = Side {
        stride,
        back: false,
    };
    pass(cells, flows, costs, front, room, list, count, within);
    let rear = Side { stride, back: true };
    pass(cells, flows, costs, rear, room, list, count, within);
}

// How far to look next: half as far again, and everywhere where no cell was done with.
fn wider(within: i32, done: bool) -> i32
    requires some { pos 0 ≤ℤ within }
    requires near { within <ℤ pos (2 ^ 29) }
    ensures more { within <ℤ result }
    ensures near { result ≤ℤ far }
{
    if !done {
        return FAR;
    }
    let radius = within as u32;
    (radius + radius / 2 + 1).min(1 << 30) as i32
}

/// Settles a flow between cells: all that is in excess goes to cells that lack something, or outside, along cheapest ways, and all that is
/// lacking comes from there. `stride` is the number of cells in a row, and `list` has all inner cells that have something in excess or lack
/// something. Ends nearer than `first` are looked for first; half a mean price serves well. What flow and potentials were before does not
/// matter, as long as they are sound. Afterwards no inner cell has anything in excess, so that the flow is one of those that cost least.
pub fn settle(
    cells: &mut [Cell],
    flows: &mut [Flows],
    costs: &mut [Costs],
    stride: usize,
    room: &mut Room,
    list: &mut [u32],
    first: i32,
)
    requires fenced { Fenced cells.old costs.old (ahead stride) }
    requires sound { Sound cells.old flows.old costs.old (ahead stride) }
    requires room { RoomFor (length cells.old) room.old }
    requires blank { Blank room.old.marks.now }
    requires listing { Listing cells.old list.old (length list.old) }
    requires first { pos 0 ≤ℤ first }
    ensures fenced { Fenced cells.new costs.new (ahead stride) }
    ensures sound { Sound cells.new flows.new costs.new (ahead stride) }
    ensures room { RoomFor (length cells.new) room.new }
    ensures blank { Blank room.new.marks.now }
    ensures later { Later cells.old cells.new flows.old flows.new costs.old costs.new
        (ahead stride) }
    ensures settled { (u : ℕ) → inner_of cells.old u ≡ true → excess_of cells.new u ≡ pos 0 }
{
    let mut within = first;
    let mut count = list.len();
    while within < FAR / 2 && count > 0 {
        round(cells, flows, costs, stride, room, list, count, within);
        let kept = keep(cells, list, count);
        within = wider(within, kept < count);
        count = kept;
    }
    round(cells, flows, costs, stride, room, list, count, FAR);
}
