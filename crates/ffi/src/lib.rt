// The entry for programs in C, and in languages that call C.
#![tactic(auto)]

ghost use Rattle.std.specs.Prelude.{◌≡◌, length, pos, slice_index_or, IfSome, IfNone};
ghost use Rattle.phase_field.specs.Field.{turns_in};
ghost use Rattle.phase_input.specs.Input.{input, field_lent, verdict, number};
ghost use Rattle.phase_cost.specs.Cost.{cost as cost_of, Least, AllComeBack};
ghost use Rattle.unwrap.specs.Promise.{FindsAgain};

use unwrap::{Done, put_back};

/// Puts turns back as `put_back` does: answers 0 and leaves what the turns cost in `cost`, or answers the number of the refusal with all
/// that was lent as it was.
#[unsafe(no_mangle)]
pub extern "C" fn mulantsy_put_back(
    wide: u64,
    high: u64,
    turn: u64,
    seen: &[u32],
    right: &[u32],
    below: &[u32],
    room: &mut [i64],
    cost: &mut u64,
) -> u64
    ensures refused { let i = input wide high turn seen.now right.now below.now (length room.old) in
        IfSome (verdict i) (λ why. result ≡ number why) }
    ensures same { let i = input wide high turn seen.now right.now below.now (length room.old) in
        IfSome (verdict i) (λ _. room.new ≡ room.old) }
    ensures no_cost { let i = input wide high turn seen.now right.now below.now (length room.old) in
        IfSome (verdict i) (λ _. cost.new ≡ cost.old) }
    ensures kept { length room.new ≡ length room.old }

    ensures taken { let i = input wide high turn seen.now right.now below.now (length room.old) in
        IfNone (verdict i) (result ≡ 0) }
    ensures cost { let i = input wide high turn seen.now right.now below.now (length room.old) in
        IfNone (verdict i) (cost.new ≡ cost_of (field_lent i) (turns_in wide room.new)) }
    ensures first { let i = input wide high turn seen.now right.now below.now (length room.old) in
        IfNone (verdict i) (slice_index_or room.new 0 (pos 0) ≡ pos 0) }
    ensures least { let i = input wide high turn seen.now right.now below.now (length room.old) in
        IfNone (verdict i) (Least (field_lent i) (turns_in wide room.new)) }
    ensures nothing { let i = input wide high turn seen.now right.now below.now (length room.old) in
        IfNone (verdict i) (AllComeBack (field_lent i) → cost.new ≡ 0) }
    ensures found { let i = input wide high turn seen.now right.now below.now (length room.old) in
        IfNone (verdict i) (FindsAgain (field_lent i) (turns_in wide room.new)) }
{
    match put_back(wide, high, turn, seen, right, below, room) {
        Done::Back(told) => {
            *cost = told;
            0
        }
        Done::Refused(number) => number,
    }
}
