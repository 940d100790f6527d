// Expected steps of lists, whatever their size.
ghost use Rattle.std.specs.Prelude.{◌≡◌, ℕ, ◌+◌, ◌<◌, ◌≤◌, length, pos, ◌-ℤ◌, slice_index, slice_index_or, unsigned_abs};
ghost use Rattle.phase_field.specs.Field.{wrap_count};
ghost use Rattle.phase_turns.specs.Expect.{Counts};

use phase_field::steps::wrap_count;

// Writes by how many turns the wrapped differences from numbers to others are more than the differences.
fn wrap_counts(turn: u32, from: &[u32], to: &[u32], counts: &mut [i64])
    requires from_len { length from.now ≡ length counts.old }
    requires to_len { length to.now ≡ length counts.old }
    ensures is { Counts turn from.now to.now counts.new }
    ensures small { (k : ℕ) → unsigned_abs (slice_index_or counts.new k (pos 0)) ≤ 1 }
{
    for k in 0..counts.len() {
        counts[k] = wrap_count(turn, from[k], to[k]);
    }
}

// Writes 0 from one number of a list on.
fn clear(steps: &mut [i64], from: usize)
    requires { from ≤ length steps.old }
    ensures before { (k : ℕ) → k < from → slice_index_or steps.new k (pos 0) ≡
        slice_index_or steps.old k (pos 0) }
    ensures none { (k : ℕ) → from ≤ k → slice_index_or steps.new k (pos 0) ≡ pos 0 }
{
    for k in from..steps.len() {
        steps[k] = 0;
    }
}

/// Writes how many turns are expected of the step from each of the first numbers of a list to the one so many ahead, and 0 for the last ones.
pub fn expect(turn: u32, ahead: usize, seen: &[u32], steps: &mut [i64])
    requires ahead { ahead ≤ length steps.old }
    requires len { length steps.old ≤ length seen.now }
    ensures is { (k : ℕ) → k + ahead < length steps.new → slice_index_or steps.new k (pos 0) ≡
        wrap_count turn (pos (slice_index seen.now (k + ahead)) -ℤ pos (slice_index seen.now k)) }
    ensures small { (k : ℕ) → unsigned_abs (slice_index_or steps.new k (pos 0)) ≤ 1 }
{
    let count = steps.len() - ahead;
    wrap_counts(
        turn,
        &seen[..count],
        &seen[ahead..ahead + count],
        &mut steps[..count],
    );
    clear(steps, count);
}
