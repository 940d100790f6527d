// What turns cost.
ghost use Rattle.std.specs.Prelude.{◌≡◌, ◌*◌, ◌≤◌, ◌↔◌, IsTrue, unsigned_abs};
ghost use Rattle.std.specs.Option.{SomeIff};
ghost use Rattle.phase_field.specs.Field.{turns_in};
ghost use Rattle.phase_field.specs.Model.{field_of};
ghost use Rattle.phase_cost.specs.Cost.{cost};
ghost use Rattle.phase_cost.specs.Steps.{heights_cost, steps_in};
ghost use Rattle.phase_turns.specs.Cost.{jump, Most, RoomFits, line_cost, LineFits, way_cost, WayFits};
ghost use Rattle.phase_turns.specs.Follow.{StepsSmall, Expected};

use crate::steps::Steps;
use phase_field::field::Field;
use phase_field::rows::part_of;

/// The most turns, either way, of which the cost is told.
pub const MOST: u64 = 1 << 20;

// Whether there is a number for each place, none beyond the most.
fn room_fits(field: &Field, room: &[i64]) -> bool
    ensures { IsTrue result ↔ RoomFits (field_of field.now) room.now }
{
    room.len() == field.places() && room.iter().all(|turns| turns.unsigned_abs() <= MOST)
}

// By how many turns the step between two places differs from what is expected.
fn jump(expected: i64, from: i64, to: i64) -> i64
    requires expected { unsigned_abs expected ≤ 8193 }
    requires from { Most from }
    requires to { Most to }
    ensures is { result ≡ jump expected from to }
    ensures small { unsigned_abs result ≤ 2105345 }
{
    (to - from) - expected
}

// What a step costs, in turns.
fn step_cost(price: u32, expected: i64, from: i64, to: i64) -> u64
    requires price { price ≤ 1000 }
    requires expected { unsigned_abs expected ≤ 8193 }
    requires from { Most from }
    requires to { Most to }
    ensures is { result ≡ price * unsigned_abs (jump expected from to) }
    ensures small { result ≤ 2105345000 }
{
    u64::from(price) * jump(expected, from, to).unsigned_abs()
}

// What steps cost whose prices, expected turns, and turns at their ends stand in lists.
fn line_cost(prices: &[u32], expected: &[i64], from: &[i64], to: &[i64]) -> u64
    requires { LineFits prices.now expected.now from.now to.now }
    ensures is { result ≡ line_cost prices.now expected.now from.now to.now }
    ensures small { result ≤ 134742080000 }
{
    let mut cost = 0;
    for x in 0..prices.len() {
        cost += step_cost(prices[x], expected[x], from[x], to[x]);
    }
    cost
}

// The steps of a field one way: their prices and the turns expected of them, row by row, and from how many rows and columns they lead how
// many places ahead.
#[derive(Clone, Copy)]
struct Way<'p, 'e> {
    prices: &'p [u32],
    expected: &'e [i64],
    rows: usize,
    columns: usize,
    ahead: usize,
}

// What the steps one way cost, in turns.
fn way_cost(wide: usize, way: &Way<'_, '_>, room: &[i64]) -> u64
    requires { WayFits wide way.now.rows way.now.columns way.now.ahead way.now.prices.now
        way.now.expected.now room.now }
    ensures is { result ≡ way_cost wide way.now.rows way.now.columns way.now.ahead
        way.now.prices.now way.now.expected.now room.now }
    ensures small { result ≤ 8623493120000 }
{
    let mut cost = 0;
    for y in 0..way.rows {
        let from = y * wide;
        cost += line_cost(
            part_of(way.prices, from, way.columns),
            part_of(way.expected, from, way.columns),
            part_of(room, from, way.columns),
            part_of(room, from + way.ahead, way.columns),
        );
    }
    cost
}

// What the turns in a room cost over steps that come from anywhere, at a field's prices.
fn steps_cost(field: &Field, steps: &Steps, room: &[i64]) -> Option<u64>
    requires right_small { StepsSmall steps.now.right }
    requires below_small { StepsSmall steps.now.below }
    ensures { let f = field_of field.now in let s = steps_in f steps.now.right steps.now.below in
        SomeIff result (RoomFits f room.now) (f.turn * heights_cost s (turns_in f.wide room.now)) }
{
    if !room_fits(field, room) {
        return None;
    }
    let right = Way {
        prices: &field.right,
        expected: &steps.right,
        rows: field.high,
        columns: field.wide - 1,
        ahead: 1,
    };
    let below = Way {
        prices: &field.below,
        expected: &steps.below,
        rows: field.high - 1,
        columns: field.wide,
        ahead: field.wide,
    };
    let turns = way_cost(field.wide, &right, room) + way_cost(field.wide, &below, room);
    Some(u64::from(field.turn) * turns)
}

/// What the turns in a room cost over the steps that are expected of the field; None where it isn't a number for each place, or one is
/// beyond the most of which the cost is told.
pub fn cost(field: &Field, expected: &Steps, room: &[i64]) -> Option<u64>
    requires { Expected (field_of field.now) expected.now.right expected.now.below }
    ensures { let f = field_of field.now in
        SomeIff result (RoomFits f room.now) (cost f (turns_in f.wide room.now)) }
{
    steps_cost(field, expected, room)
}
