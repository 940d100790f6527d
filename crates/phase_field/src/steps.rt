// What is expected of steps.
ghost use Rattle.std.specs.Prelude.{◌≡◌, ◌<◌, ◌≤◌, pos, ◌-ℤ◌, unsigned_abs};
ghost use Rattle.std.specs.Option.{SomeIff};
ghost use Rattle.phase_field.specs.Field.{wrap_count};
ghost use Rattle.phase_field.specs.Model.{field_of, IsPlace, HasRight, HasBelow, row, column, right_from, below_from, ends_right, ends_below, turns_right_from, turns_below_from};

use crate::field::Field;

/// By how many turns the wrapped difference is more than the difference of what was seen at the two ends of a step: a turn less where that
/// is more than half a turn, a turn more where it is minus half a turn or less.
pub fn wrap_count(turn: u32, from: u32, to: u32) -> i64
    ensures is { result ≡ wrap_count turn (pos to -ℤ pos from) }
    ensures small { unsigned_abs result ≤ 1 }
{
    let jump = i64::from(to) - i64::from(from);
    let turn = i64::from(turn);
    if 2 * jump > turn {
        -1
    } else if 2 * jump <= -turn {
        1
    } else {
        0
    }
}

impl Field {
    // What was seen at a place of the field.
    fn seen_at(&self, x: usize, y: usize) -> u32
        requires column { x < self.now.wide }
        requires row { y < self.now.high }
        ensures { result ≡ (field_of self.now).seen x y }
    {
        self.seen[y * self.wide + x]
    }

    // The column and the row of a place; None where there is none.
    fn position(&self, place: usize) -> Option<(usize, usize)>
        ensures { let f = field_of self.now in
            SomeIff result (IsPlace f place) (column f place, row f place) }
    {
        let x = place % self.wide;
        let y = place / self.wide;
        (y < self.high).then_some((x, y))
    }

    /// The price of the step to the right from a place; None where there is no place.
    pub fn price_right(&self, place: usize) -> Option<u32>
        ensures { let f = field_of self.now in
            SomeIff result (IsPlace f place) (right_from f place) }
    {
        let (x, y) = self.position(place)?;
        Some(self.right_row(y)[x])
    }

    /// The price of the step down from a place; None where there is no place.
    pub fn price_below(&self, place: usize) -> Option<u32>
        ensures { let f = field_of self.now in
            SomeIff result (IsPlace f place) (below_from f place) }
    {
        let (x, y) = self.position(place)?;
        Some(self.below_row(y)[x])
    }

    // What was seen at a place and at the one at its right; None where there is none.
    fn ends_right(&self, place: usize) -> Option<(u32, u32)>
        ensures { let f = field_of self.now in
            SomeIff result (HasRight f place) (ends_right f place) }
    {
        let (x, y) = self.position(place)?;
        if x + 1 >= self.wide {
            return None;
        }
        Some((self.seen_at(x, y), self.seen_at(x + 1, y)))
    }

    // What was seen at a place and at the one below it; None where there is none.
    fn ends_below(&self, place: usize) -> Option<(u32, u32)>
        ensures { let f = field_of self.now in
            SomeIff result (HasBelow f place) (ends_below f place) }
    {
        let (x, y) = self.position(place)?;
        if y + 1 >= self.high {
            return None;
        }
        Some((self.seen_at(x, y), self.seen_at(x, y + 1)))
    }

    /// By how many turns the step that one expects from a place to the right is more than the difference of what was seen; None where there
    /// is none.
    pub fn turns_right(&self, place: usize) -> Option<i64>
        ensures { let f = field_of self.now in
            SomeIff result (HasRight f place) (turns_right_from f place) }
    {
        let (from, right) = self.ends_right(place)?;
        Some(wrap_count(self.turn, from, right))
    }

    /// The same down.
    pub fn turns_below(&self, place: usize) -> Option<i64>
        ensures { let f = field_of self.now in
            SomeIff result (HasBelow f place) (turns_below_from f place) }
    {
        let (from, below) = self.ends_below(place)?;
        Some(wrap_count(self.turn, from, below))
    }
}
