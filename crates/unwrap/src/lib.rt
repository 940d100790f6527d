// Turns put back into a field: least-cost unwrapping of phase, each step priced (L1).
#![tactic(auto)]

ghost use Rattle.std.specs.Prelude.{◌≡◌, ◌*◌, length, pos, slice_index_or, IfSome, IfNone};
ghost use Rattle.phase_field.specs.Field.{turns_in};
ghost use Rattle.phase_field.specs.Model.{field_of};
ghost use Rattle.phase_input.specs.Input.{input, field_lent, verdict, number};
ghost use Rattle.phase_cost.specs.Cost.{cost, Least, AllComeBack};
ghost use Rattle.unwrap.specs.Promise.{FindsAgain, FewTurns};
ghost use Rattle.unwrap.specs.declared.Done.TheVariants as done;

mod least;

use crate::least::write_least;
use phase_field::field::Field;
use phase_input::input::Input;
use phase_input::take::field;

/// What is answered.
#[derive(Clone, Copy, PartialEq, Eq, Debug)]
pub enum Done {
    /// What the turns cost.
    Back(u64),
    /// The number of the first reason for which it was refused.
    Refused(u64),
}

/// Leaves a whole number of turns for each place of the field in a room that has as many numbers, row by row, 0 for the first place, than
/// which no turns cost less, and answers what they cost. No place has more than 540,928 turns, either way.
pub fn unwrap_field(field: &Field, room: &mut [i64]) -> u64
    requires { length room.old ≡ field.now.wide * field.now.high }
    ensures cost { result ≡ cost (field_of field.now) (turns_in field.now.wide room.new) }
    ensures first { slice_index_or room.new 0 (pos 0) ≡ pos 0 }
    ensures least { Least (field_of field.now) (turns_in field.now.wide room.new) }
    ensures nothing { AllComeBack (field_of field.now) → result ≡ 0 }
    ensures found { FindsAgain (field_of field.now) (turns_in field.now.wide room.new) }
    ensures small { FewTurns 540928 room.new }
{
    write_least(field, room)
}

/// Puts turns back: leaves a whole number of turns for each place in the room, row by row, 0 for the first place, than which no turns
/// cost less, and answers what they cost; or refuses what is lent by the number of the first reason that applies, and leaves the room as it
/// was.
///
/// A field is 1 to 64 places `wide` and `high`, and a `turn`, a cycle of phase, has 2 to 65,536 units. The lists are row by row from the
/// upper left: what was `seen` at each place, the wrapped phase, below a turn; and the prices, 1,000 at most, of the steps to the `right` of
/// each place and `below` it, of which those beyond the edge don't count.
pub fn put_back(
    wide: u64,
    high: u64,
    turn: u64,
    seen: &[u32],
    right: &[u32],
    below: &[u32],
    room: &mut [i64],
) -> Done
    ensures refused { let i = input wide high turn seen.now right.now below.now (length room.old) in
        IfSome (verdict i) (λ why. result ≡ done.Refused (number why)) }
    ensures same { let i = input wide high turn seen.now right.now below.now (length room.old) in
        IfSome (verdict i) (λ _. room.new ≡ room.old) }
    ensures kept { length room.new ≡ length room.old }

    ensures back { let i = input wide high turn seen.now right.now below.now (length room.old) in
        IfNone (verdict i) (result ≡ done.Back (cost (field_lent i) (turns_in wide room.new))) }
    ensures first { let i = input wide high turn seen.now right.now below.now (length room.old) in
        IfNone (verdict i) (slice_index_or room.new 0 (pos 0) ≡ pos 0) }
    ensures least { let i = input wide high turn seen.now right.now below.now (length room.old) in
        IfNone (verdict i) (Least (field_lent i) (turns_in wide room.new)) }
    ensures nothing { let i = input wide high turn seen.now right.now below.now (length room.old) in
        IfNone (verdict i) (AllComeBack (field_lent i) → result ≡ done.Back 0) }
    ensures found { let i = input wide high turn seen.now right.now below.now (length room.old) in
        IfNone (verdict i) (FindsAgain (field_lent i) (turns_in wide room.new)) }
{
    let input = Input {
        wide,
        high,
        turn,
        seen,
        right,
        below,
    };
    let places = room.len() as u64;
    match input.verdict(places) {
        Some(refusal) => Done::Refused(refusal.number()),
        None => Done::Back(unwrap_field(&field(&input, places), room)),
    }
}
