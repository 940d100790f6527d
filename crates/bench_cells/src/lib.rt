// Fields of up to 512 by 512 places, for the programs that time the solver. What `put_back` does for smaller ones is done by the same
// functions, in vectors.
#![tactic(auto)]

ghost use Rattle.std.specs.Prelude.{◌≡◌, ℕ, ◌+◌, ◌*◌, ◌<◌, ◌≤◌, true, false, length, pos, slice_index, slice_index_or, IfOk};
ghost use Rattle.phase_field.specs.Field.{field_in, turns_in};
ghost use Rattle.phase_cost.specs.Cost.{cost as cost_of, Least};
ghost use Rattle.phase_cost.specs.Steps.{steps_in, NoResidues};
ghost use Rattle.squares_turns.specs.Lists.{field_lent};
ghost use Rattle.squares_turns.specs.Least.{ExpectedIn, Crossed};

use net_cells::{Cell, Costs, Flows, Mark};
use net_cells_search::{Entry, Queue, Room as Search};
use phase_turns::follow::follow;
use squares_solve::Room;
use squares_turns::{Lists, comes_back, cross_steps, expect_steps};
use std::alloc::{AllocError, Global};

// Whether all numbers of a list are below a bound.
fn all_below(list: &[u32], bound: u32) -> bool
    ensures { result ≡ true → (k : ℕ) → k < length list.now → slice_index list.now k < bound }
{
    list.iter().all(|x| *x < bound)
}

// Adds to expected steps what flows across them where that costs least, and tells what it costs, in turns.
fn cross(
    alloc: Global,
    lists: &Lists,
    right: &mut [i64],
    below: &mut [i64],
) -> Result<u64, AllocError>
    requires right_len { length right.old ≡ lists.now.wide * lists.now.high }
    requires below_len { length below.old ≡ lists.now.wide * lists.now.high }
    requires expected { ExpectedIn (field_lent lists.now) right.old below.old }
    requires some { NoResidues (steps_in (field_lent lists.now) right.old below.old) → ⊥ }
    ensures crossed { IfOk result (λ turns. Crossed
        (field_lent lists.now) right.old below.old right.new below.new turns) }
    ensures small { IfOk result (λ turns. turns ≤ 274877906944000) }
{
    let n = (lists.high + 1) * (lists.wide + 1);
    let mut cells = vec![in alloc; Cell::default(); n]?;
    let mut costs = vec![in alloc; Costs::default(); n]?;
    let mut flows = vec![in alloc; Flows::default(); n]?;
    let mut marks = vec![in alloc; Mark::BLANK; n]?;
    let mut touched = vec![in alloc; 0; n + 1]?;
    let mut heap = vec![in alloc; Entry::default(); n]?;
    let mut stack = vec![in alloc; 0; n]?;
    let mut list = vec![in alloc; 0; n]?;
    let mut room = Room {
        cells: &mut cells,
        costs: &mut costs,
        flows: &mut flows,
        list: &mut list,
        search: Search {
            marks: &mut marks,
            touched: &mut touched,
            count: 0,
            queue: Queue::new(&mut heap, &mut stack),
            source: 0,
            within: 0,
            bound: 0,
            target: 0,
        },
    };
    Ok(cross_steps(lists, right, below, &mut room))
}

// Makes expected steps those of turns that cost least, and tells what these cost, in turns.
fn settle_steps(
    alloc: Global,
    lists: &Lists,
    right: &mut [i64],
    below: &mut [i64],
) -> Result<u64, AllocError>
    requires right_len { length right.old ≡ lists.now.wide * lists.now.high }
    requires below_len { length below.old ≡ lists.now.wide * lists.now.high }
    requires expected { ExpectedIn (field_lent lists.now) right.old below.old }
    ensures crossed { IfOk result (λ turns. Crossed
        (field_lent lists.now) right.old below.old right.new below.new turns) }
    ensures small { IfOk result (λ turns. turns ≤ 274877906944000) }
{
    if comes_back(lists, right, below) {
        return Ok(0);
    }
    cross(alloc, lists, right, below)
}

// Leaves turns that cost least in the room, and tells what they cost, with rooms for the steps.
fn write_by(
    alloc: Global,
    lists: &Lists,
    right: &mut [i64],
    below: &mut [i64],
    room: &mut [i64],
) -> Result<u64, AllocError>
    requires right_len { length right.old ≡ lists.now.wide * lists.now.high }
    requires below_len { length below.old ≡ lists.now.wide * lists.now.high }
    requires room_len { length room.old ≡ lists.now.wide * lists.now.high }
    ensures cost { IfOk result (λ told. told ≡
        cost_of (field_lent lists.now) (turns_in lists.now.wide room.new)) }
    ensures least { IfOk result (λ _. Least (field_lent lists.now)
        (turns_in lists.now.wide room.new)) }
{
    expect_steps(lists, right, below);
    let turns = settle_steps(alloc, lists, right, below)?;
    follow(lists.wide, lists.high, right, below, room);
    Ok(u64::from(lists.turn) * turns)
}

fn write_least(alloc: Global, lists: &Lists, room: &mut [i64]) -> Result<u64, AllocError>
    requires { length room.old ≡ lists.now.wide * lists.now.high }
    ensures cost { IfOk result (λ told. told ≡
        cost_of (field_lent lists.now) (turns_in lists.now.wide room.new)) }
    ensures least { IfOk result (λ _. Least (field_lent lists.now)
        (turns_in lists.now.wide room.new)) }
{
    let n = lists.wide * lists.high;
    let mut right = vec![in alloc; 0; n]?;
    let mut below = vec![in alloc; 0; n]?;
    write_by(alloc, lists, &mut right, &mut below, room)
}

/// Leaves turns that cost least in the room, and what they cost in `cost`, and answers 0. Answers 1 where it doesn't take the field, and 2
/// where there is too little memory.
#[unsafe(no_mangle)]
pub extern "C" fn mulantsy_bench_cells(
    alloc: Global,
    wide: u64,
    high: u64,
    turn: u32,
    seen: &[u32],
    right: &[u32],
    below: &[u32],
    room: &mut [i64],
    cost: &mut u64,
) -> u64
    ensures cost { result ≡ 0 →
        cost.new ≡ cost_of (field_in wide high turn seen.now right.now below.now)
        (turns_in wide room.new) }
    ensures least { result ≡ 0 →
        Least (field_in wide high turn seen.now right.now below.now) (turns_in wide room.new) }
{
    if wide == 0 || wide > 512 || high == 0 || high > 512 || turn < 2 || turn > 65536 {
        return 1;
    }
    let places = (wide * high) as usize;
    if seen.len() != places
        || right.len() != places
        || below.len() != places
        || room.len() != places
    {
        return 1;
    }
    if !all_below(seen, turn) || !all_below(right, 1001) || !all_below(below, 1001) {
        return 1;
    }
    let lists = Lists {
        wide: wide as usize,
        high: high as usize,
        turn,
        seen,
        right,
        below,
    };
    match write_least(alloc, &lists, room) {
        Ok(told) => {
            *cost = told;
            0
        }
        Err(_) => 2,
    }
}
