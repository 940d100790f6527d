// From lists to the steps of turns that cost least.
ghost use Rattle.std.specs.Prelude.{◌≡◌, true, false, ◌+◌, ◌*◌, ◌≤◌, length};
ghost use Rattle.phase_cost.specs.Steps.{steps_in, NoResidues};
ghost use Rattle.squares_solve.specs.Solved.{Solved, EndedBy, RoomOf};
ghost use Rattle.squares_turns.specs.Lists.{field_lent};
ghost use Rattle.squares_turns.specs.Least.{ExpectedIn, Crossed};

use crate::lists::Lists;
use net_cells::Flows;
use phase_turns::expect::expect;
use squares_build::Steps;
use squares_solve::{Room, add_flows, flow_cost, solve};

/// Writes the turns that are expected of the steps of a field.
pub fn expect_steps(lists: &Lists, right: &mut [i64], below: &mut [i64])
    requires right_len { length right.old ≡ lists.now.wide * lists.now.high }
    requires below_len { length below.old ≡ lists.now.wide * lists.now.high }
    ensures { ExpectedIn (field_lent lists.now) right.new below.new }
{
    expect(lists.turn, 1, lists.seen, right);
    expect(lists.turn, lists.wide, lists.seen, below);
}

/// Whether they come back round every square.
#[tactic(auto, unfolding(phase_cost::specs::Steps::steps_in))]
pub fn comes_back(lists: &Lists, right: &[i64], below: &[i64]) -> bool
    requires right_len { length right.now ≡ lists.now.wide * lists.now.high }
    requires below_len { length below.now ≡ lists.now.wide * lists.now.high }
    requires expected { ExpectedIn (field_lent lists.now) right.now below.now }
    ensures yes { result ≡ true → NoResidues (steps_in (field_lent lists.now) right.now below.now) }
    ensures no { result ≡ false →
        NoResidues (steps_in (field_lent lists.now) right.now below.now) → ⊥ }
{
    let steps = Steps {
        wide: lists.wide,
        high: lists.high,
        to_right: right,
        to_below: below,
        right: lists.right,
        below: lists.below,
    };
    steps.comes_back()
}

// Leaves what flows across them where that costs least in the room.
#[tactic(auto, unfolding(phase_cost::specs::Steps::steps_in))]
fn solve_steps(lists: &Lists, right: &[i64], below: &[i64], room: &mut Room)
    requires right_len { length right.now ≡ lists.now.wide * lists.now.high }
    requires below_len { length below.now ≡ lists.now.wide * lists.now.high }
    requires expected { ExpectedIn (field_lent lists.now) right.now below.now }
    requires some { NoResidues (steps_in (field_lent lists.now) right.now below.now) → ⊥ }
    requires room { RoomOf ((lists.now.high + 1) * (lists.now.wide + 1)) room.old }
    ensures ended { EndedBy (steps_in (field_lent lists.now) right.now below.now)
        room.new.flows.now }
    ensures flows { length room.new.flows.now ≡ length room.old.flows.now }
{
    let steps = Steps {
        wide: lists.wide,
        high: lists.high,
        to_right: right,
        to_below: below,
        right: lists.right,
        below: lists.below,
    };
    solve(&steps, room);
}

// What the flow costs, in turns.
#[tactic(auto, unfolding(phase_cost::specs::Steps::steps_in))]
fn told(lists: &Lists, right: &[i64], below: &[i64], flows: &[Flows]) -> u64
    requires right_len { length right.now ≡ lists.now.wide * lists.now.high }
    requires below_len { length below.now ≡ lists.now.wide * lists.now.high }
    requires expected { ExpectedIn (field_lent lists.now) right.now below.now }
    requires flows_len { length flows.now ≡ (lists.now.high + 1) * (lists.now.wide + 1) }
    requires ended { EndedBy (steps_in (field_lent lists.now) right.now below.now) flows.now }
    ensures solved { Solved (steps_in (field_lent lists.now) right.now below.now) flows.now result }
    ensures small { result ≤ 274877906944000 }
{
    let steps = Steps {
        wide: lists.wide,
        high: lists.high,
        to_right: right,
        to_below: below,
        right: lists.right,
        below: lists.below,
    };
    flow_cost(&steps, flows)
}

// Adds it to the steps, and tells what it costs.
fn add_settled(lists: &Lists, right: &mut [i64], below: &mut [i64], flows: &[Flows]) -> u64
    requires right_len { length right.old ≡ lists.now.wide * lists.now.high }
    requires below_len { length below.old ≡ lists.now.wide * lists.now.high }
    requires expected { ExpectedIn (field_lent lists.now) right.old below.old }
    requires flows_len { length flows.now ≡ (lists.now.high + 1) * (lists.now.wide + 1) }
    requires ended { EndedBy (steps_in (field_lent lists.now) right.old below.old) flows.now }
    ensures crossed { Crossed (field_lent lists.now) right.old below.old right.new below.new
        result }
    ensures small { result ≤ 274877906944000 }
{
    let cost = told(lists, right, below, flows);
    add_flows(lists.wide, lists.high, flows, right, below);
    cost
}

/// Adds to expected steps what flows across them where that costs least, and tells what it costs, in turns.
pub fn cross_steps(lists: &Lists, right: &mut [i64], below: &mut [i64], room: &mut Room) -> u64
    requires right_len { length right.old ≡ lists.now.wide * lists.now.high }
    requires below_len { length below.old ≡ lists.now.wide * lists.now.high }
    requires expected { ExpectedIn (field_lent lists.now) right.old below.old }
    requires some { NoResidues (steps_in (field_lent lists.now) right.old below.old) → ⊥ }
    requires room { RoomOf ((lists.now.high + 1) * (lists.now.wide + 1)) room.old }
    ensures crossed { Crossed (field_lent lists.now) right.old below.old right.new below.new
        result }
    ensures small { result ≤ 274877906944000 }
{
    solve_steps(lists, right, below, room);
    add_settled(lists, right, below, room.flows)
}
