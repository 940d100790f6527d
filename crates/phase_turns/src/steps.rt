// Steps in whole turns.
ghost use Rattle.std.specs.Prelude.{◌≡◌, ℕ, ◌<◌, ◌≤◌, pos, slice_index_or, unsigned_abs};
ghost use Rattle.phase_field.specs.Model.{field_of, HasRight, HasBelow, turns_right_from, turns_below_from};
ghost use Rattle.phase_turns.specs.Follow.{Expected};

use phase_field::field::{Field, PLACES};

/// Steps in whole turns from each place, to the right and down, row by row; 0 past the last place.
#[derive(Clone, Copy)]
pub struct Steps {
    pub right: [i64; PLACES],
    pub below: [i64; PLACES],
}

// What is told of each of so many places, and 0 past the last. (`array::from_fn` has a clause for each of the 4,096.)
fn listed<F: Fn(usize) -> i64>(places: usize, told: F) -> [i64; PLACES]
    requires callable { F.IsAlwaysCallable told }
    requires few { places ≤ 4096 }
    ensures told { (p : ℕ) → p < places → F.post told p (slice_index_or result p (pos 0)) }
    ensures none { (p : ℕ) → places ≤ p → slice_index_or result p (pos 0) ≡ pos 0 }
{
    let mut all = [0; PLACES];
    for place in 0..places {
        all[place] = told(place);
    }
    all
}

impl Steps {
    /// The steps that one expects of a field, 0 where there is none.
    pub fn expected(field: &Field) -> Steps
        ensures { Expected (field_of field.now) result.right result.below }
    {
        let right = |place: usize| -> i64
            ensures is { HasRight (field_of field.entry.now) place →
                result ≡ turns_right_from (field_of field.entry.now) place }
            ensures none { (HasRight (field_of field.entry.now) place → ⊥) → result ≡ pos 0 }
            ensures small { unsigned_abs result ≤ 1 }
        { field.turns_right(place).unwrap_or(0) };
        let below = |place: usize| -> i64
            ensures is { HasBelow (field_of field.entry.now) place →
                result ≡ turns_below_from (field_of field.entry.now) place }
            ensures none { (HasBelow (field_of field.entry.now) place → ⊥) → result ≡ pos 0 }
            ensures small { unsigned_abs result ≤ 1 }
        { field.turns_below(place).unwrap_or(0) };
        let places = field.places();
        Steps {
            right: listed(places, right),
            below: listed(places, below),
        }
    }
}
