// The least cost of turns from -2 to 2, found by trying them all.
#![tactic(auto)]

ghost use Rattle.std.specs.Prelude.{◌≡◌, ℕ, ◌*◌, ◌%◌, ◌^◌, ◌<◌, ◌≤◌, ◌↔◌, length, pos, ◌-ℤ◌, IsTrue, IsSome, IfSome, slice_index_or};
ghost use Rattle.phase_field.specs.Model.{field_of};
ghost use Rattle.phase_cost.specs.Cost.{cost};
ghost use Rattle.phase_turns.specs.Follow.{Expected};
ghost use Rattle.brute_force.specs.Tried.{Agrees, LeastTried, LeastOf, turns_at, turns_of};

use phase_field::field::Field;
use phase_turns::cost::cost;
use phase_turns::steps::Steps;

/// The most places of a field whose turns are tried.
pub const MOST: usize = 6;

// The turns of a code's first place. A digit: the cast loses nothing.
fn first_turns(code: u64) -> i64
    ensures { result ≡ (pos (code % 5) -ℤ pos 2) }
{
    (code % 5) as i64 - 2
}

// Writes the turns that a code stands for.
fn write_turns(code: u64, room: &mut [i64])
    ensures { (k : ℕ) → k < length room.new → slice_index_or room.new k (pos 0) ≡ turns_at code k }
{
    let mut rest = code;
    for turns in room.iter_mut() {
        *turns = first_turns(rest);
        rest /= 5;
    }
}

// What the turns cost that a code stands for.
fn cost_of(field: &Field, expected: &Steps, code: u64) -> u64
    requires few { field.now.wide * field.now.high ≤ 6 }
    requires expected { Expected (field_of field.now) expected.now.right expected.now.below }
    ensures { result ≡ cost (field_of field.now) (turns_of field.now.wide code) }
{
    let mut room = [0; MOST];
    let turns = &mut room[0..field.places()];
    write_turns(code, turns);
    cost(field, expected, turns).unwrap()
}

// The least cost of the turns of the first so many codes.
fn least_of(field: &Field, expected: &Steps, codes: u64) -> u64
    requires few { field.now.wide * field.now.high ≤ 6 }
    requires expected { Expected (field_of field.now) expected.now.right expected.now.below }
    requires some { 1 ≤ codes }
    ensures { LeastOf (λ k. cost (field_of field.now) (turns_of field.now.wide k)) codes result }
{
    let mut least = cost_of(field, expected, 0);
    for code in 1..codes {
        least = least.min(cost_of(field, expected, code));
    }
    least
}

// `least_tried` by steps that are as expected.
fn least_by(field: &Field, expected: &Steps) -> Option<u64>
    requires { Expected (field_of field.now) expected.now.right expected.now.below }
    ensures some { IsSome result ↔ (field.now.wide * field.now.high ≤ 6) }
    ensures least { IfSome result (LeastTried (field_of field.now)) }
{
    let places = field.places();
    if places > MOST {
        return None;
    }
    // At most six: the cast loses nothing.
    Some(least_of(field, expected, 5u64.pow(places as u32)))
}

/// The least cost of turns from -2 to 2 for a field of at most six places; None where it has more.
///
/// No turns whatever cost less. Some of those that cost least have a spanning tree of steps that are as expected, since places that no such
/// step joins to the rest can be turned together, one way or the other, at no more cost until one does. A way in the tree has five steps at
/// most, each of half a turn at most, so heights differ by two and a half turns at most, what was seen by less than one, and turns by three
/// at most. This is not proved.
pub fn least_tried(field: &Field) -> Option<u64>
    ensures some { IsSome result ↔ (field.now.wide * field.now.high ≤ 6) }
    ensures least { IfSome result (LeastTried (field_of field.now)) }
{
    least_by(field, &Steps::expected(field))
}

/// Whether the turns in a room cost what was answered, nothing that can be tried costs less, and the first of them is 0.
pub fn agrees(field: &Field, room: &[i64], answered: u64) -> bool
    ensures { IsTrue result ↔ Agrees (field_of field.now) room.now answered }
{
    let expected = Steps::expected(field);
    least_by(field, &expected) == Some(answered)
        && cost(field, &expected, room) == Some(answered)
        && room.first() == Some(&0)
}
