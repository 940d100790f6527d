// The turns that cost least.
ghost use Rattle.std.specs.Prelude.{◌≡◌, true, false, ◌+◌, ◌*◌, ◌<◌, ◌≤◌, length, pos, slice_index_or};
ghost use Rattle.phase_field.specs.Field.{turns_in};
ghost use Rattle.phase_field.specs.Model.{field_of};
ghost use Rattle.phase_cost.specs.Cost.{cost, Least};
ghost use Rattle.phase_cost.specs.Steps.{steps_in, NoResidues};
ghost use Rattle.squares_turns.specs.Lists.{field_lent};
ghost use Rattle.squares_turns.specs.Least.{ExpectedIn, Crossed, most_turns};
ghost use Rattle.phase_turns.specs.Follow.{AllWithin};

use net_cells::{Cell, Costs, Flows, Mark};
use net_cells_search::{Entry, Queue, Room as Search};
use phase_field::field::Field;
use phase_turns::follow::follow;
use squares_solve::Room;
use squares_turns::{Lists, comes_back, cross_steps, expect_steps};

// The field by its lists.
fn lists(field: &Field) -> Lists<'_, '_, '_>
    ensures lent { field_lent result ≡ field_of field.now }
    ensures wide { result.wide ≡ field.now.wide }
    ensures high { result.high ≡ field.now.high }
{
    Lists {
        wide: field.wide,
        high: field.high,
        turn: field.turn,
        seen: &field.seen,
        right: &field.right,
        below: &field.below,
    }
}

// Adds to expected steps what flows across them where that costs least, and tells what it costs, in turns, with rooms for fewer than so
// many cells.
#[inline(never)]
fn cross<const CELLS: usize>(lists: &Lists, right: &mut [i64], below: &mut [i64]) -> u64
    requires cells { (lists.now.high + 1) * (lists.now.wide + 1) < CELLS }
    requires cells_fit { CELLS ≤ 4226 }
    requires right_len { length right.old ≡ lists.now.wide * lists.now.high }
    requires below_len { length below.old ≡ lists.now.wide * lists.now.high }
    requires expected { ExpectedIn (field_lent lists.now) right.old below.old }
    requires some { NoResidues (steps_in (field_lent lists.now) right.old below.old) → ⊥ }
    ensures crossed { Crossed (field_lent lists.now) right.old below.old right.new below.new
        result }
    ensures small { result ≤ 274877906944000 }
{
    let n = (lists.high + 1) * (lists.wide + 1);
    let mut cells = [Cell::default(); CELLS];
    let mut costs = [Costs::default(); CELLS];
    let mut flows = [Flows::default(); CELLS];
    let mut marks = [Mark::BLANK; CELLS];
    let mut touched = [0; CELLS];
    let mut heap = [Entry::default(); 1024];
    let mut stack = [0; 1024];
    let mut list = [0; CELLS];
    let mut room = Room {
        cells: &mut cells[..n],
        costs: &mut costs[..n],
        flows: &mut flows[..n],
        list: &mut list[..n],
        search: Search {
            marks: &mut marks[..n],
            touched: &mut touched,
            count: 0,
            queue: Queue::new(&mut heap, &mut stack),
            source: 0,
            within: 0,
            bound: 0,
            target: 0,
        },
    };
    cross_steps(lists, right, below, &mut room)
}

// Makes expected steps those of turns that cost least: where they come back round every square, they are.
fn settle_steps<const CELLS: usize>(lists: &Lists, right: &mut [i64], below: &mut [i64]) -> u64
    requires cells { (lists.now.high + 1) * (lists.now.wide + 1) < CELLS }
    requires cells_fit { CELLS ≤ 4226 }
    requires right_len { length right.old ≡ lists.now.wide * lists.now.high }
    requires below_len { length below.old ≡ lists.now.wide * lists.now.high }
    requires expected { ExpectedIn (field_lent lists.now) right.old below.old }
    ensures crossed { Crossed (field_lent lists.now) right.old below.old right.new below.new
        result }
    ensures small { result ≤ 274877906944000 }
{
    if comes_back(lists, right, below) {
        return 0;
    }
    cross::<CELLS>(lists, right, below)
}

// Writes the turns, with rooms for the steps.
fn write_by<const CELLS: usize>(
    lists: &Lists,
    right: &mut [i64],
    below: &mut [i64],
    room: &mut [i64],
) -> u64
    requires cells { (lists.now.high + 1) * (lists.now.wide + 1) < CELLS }
    requires cells_fit { CELLS ≤ 4226 }
    requires right_len { length right.old ≡ lists.now.wide * lists.now.high }
    requires below_len { length below.old ≡ lists.now.wide * lists.now.high }
    requires room_len { length room.old ≡ lists.now.wide * lists.now.high }
    ensures cost { result ≡ cost (field_lent lists.now) (turns_in lists.now.wide room.new) }
    ensures first { slice_index_or room.new 0 (pos 0) ≡ pos 0 }
    ensures least { Least (field_lent lists.now) (turns_in lists.now.wide room.new) }
    ensures small { AllWithin (most_turns lists.now.wide lists.now.high) room.new }
{
    expect_steps(lists, right, below);
    let turns = settle_steps::<CELLS>(lists, right, below);
    follow(lists.wide, lists.high, right, below, room);
    u64::from(lists.turn) * turns
}

// Writes the turns, with rooms for so many places and cells.
#[inline(never)]
fn write_in<const PLACES: usize, const CELLS: usize>(field: &Field, room: &mut [i64]) -> u64
    requires places { field.now.wide * field.now.high ≤ PLACES }
    requires places_fit { PLACES ≤ 4096 }
    requires cells { (field.now.high + 1) * (field.now.wide + 1) < CELLS }
    requires cells_fit { CELLS ≤ 4226 }
    requires room_len { length room.old ≡ field.now.wide * field.now.high }
    ensures cost { result ≡ cost (field_of field.now) (turns_in field.now.wide room.new) }
    ensures first { slice_index_or room.new 0 (pos 0) ≡ pos 0 }
    ensures least { Least (field_of field.now) (turns_in field.now.wide room.new) }
    ensures small { AllWithin (most_turns 64 64) room.new }
{
    let mut right = [0; PLACES];
    let mut below = [0; PLACES];
    let n = field.places();
    write_by::<CELLS>(&lists(field), &mut right[..n], &mut below[..n], room)
}

/// Leaves turns that cost least in a room, and answers what they cost. Small fields have smaller rooms on the stack.
pub fn write_least(field: &Field, room: &mut [i64]) -> u64
    requires { length room.old ≡ field.now.wide * field.now.high }
    ensures cost { result ≡ cost (field_of field.now) (turns_in field.now.wide room.new) }
    ensures first { slice_index_or room.new 0 (pos 0) ≡ pos 0 }
    ensures least { Least (field_of field.now) (turns_in field.now.wide room.new) }
    ensures small { AllWithin (most_turns 64 64) room.new }
{
    if field.wide <= 16 && field.high <= 16 {
        return write_in::<256, 290>(field, room);
    }
    if field.wide <= 32 && field.high <= 32 {
        return write_in::<1024, 1090>(field, room);
    }
    write_in::<4096, 4226>(field, room)
}
