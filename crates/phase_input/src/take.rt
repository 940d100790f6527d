// Fields taken from what is lent.
ghost use Rattle.std.specs.Prelude.{◌≡◌, ℕ, ◌*◌, ◌≤◌, length, Some, None, IfOk, IfErr, slice_index};
ghost use Rattle.phase_field.specs.Model.{field_of};
ghost use Rattle.phase_input.specs.Input.{field_lent, verdict};
ghost use Rattle.phase_input.specs.Verdict.{IsVerdict};
ghost use Rattle.phase_input.specs.Lent.{input_of};

use crate::input::Input;
use crate::refusal::Refusal;
use phase_field::field::{Field, PLACES};

// Puts a list where there are only 0s.
fn put(list: &[u32], all: &mut [u32; PLACES])
    requires few { length list.now ≤ 4096 }
    requires none { (k : ℕ) → slice_index all.old k ≡ 0 }
    ensures { (k : ℕ) → slice_index all.new k ≡ slice_index list.now k }
{
    all[..list.len()].copy_from_slice(list);
}

/// The field that is lent, where nothing speaks against it.
pub fn field(input: &Input<'_, '_, '_>, room: u64) -> Field
    requires { IsVerdict (input_of input.now room) None }
    ensures { field_of result ≡ field_lent (input_of input.now room) }
{
    let mut field = Field {
        wide: input.wide as usize,
        high: input.high as usize,
        turn: input.turn as u32,
        seen: [0; PLACES],
        right: [0; PLACES],
        below: [0; PLACES],
    };
    // Where they stand: else all three are copied once more.
    put(input.seen, &mut field.seen);
    put(input.right, &mut field.right);
    put(input.below, &mut field.below);
    field
}

/// The field that is lent, or why it is refused, with a room of so many numbers for its turns.
pub fn take(input: &Input<'_, '_, '_>, room: u64) -> Result<Field, Refusal>
    ensures taken { IfOk result (λ _. verdict (input_of input.now room) ≡ None) }
    ensures holds { IfOk result (λ f. field_of f ≡ field_lent (input_of input.now room)) }
    ensures room { IfOk result (λ f. room ≡ f.wide * f.high) }
    ensures refused { IfErr result (λ why. verdict (input_of input.now room) ≡ Some why) }
{
    match input.verdict(room) {
        Some(refusal) => Err(refusal),
        None => Ok(field(input, room)),
    }
}
