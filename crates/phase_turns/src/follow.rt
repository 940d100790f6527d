// Turns that follow steps: down the first column, and along each row.
ghost use Rattle.std.specs.Prelude.{◌≡◌, ℕ, ◌+◌, ◌*◌, ◌^◌, ◌≤◌, length, unsigned_abs};
ghost use Rattle.phase_turns.specs.Follow.{StepsFew, AllWithin, Follows, Integrated};

use phase_field::rows::row_of;

// Writes a row that follows steps from its first number on.
fn follow_row(start: i64, steps: &[i64], row: &mut [i64])
    requires start_bound { unsigned_abs start ≤ 2 ^ 59 }
    requires steps_len { length steps.now ≡ length row.old }
    requires row_len_bound { length row.old ≤ 512 }
    requires steps_few { StepsFew steps.now }
    ensures is { Follows start steps.now row.new }
    ensures small { (m : ℕ) → AllWithin m steps.now →
        AllWithin (unsigned_abs start + length row.new * m) row.new }
{
    let mut at = start;
    for (x, turns) in row.iter_mut().enumerate() {
        *turns = at;
        at += steps[x];
    }
}

/// Writes turns for places so wide and high, row by row, 0 for the first one, that follow steps down the first column and along each row.
pub fn follow(wide: usize, high: usize, right: &[i64], below: &[i64], room: &mut [i64])
    requires wide_bound { wide ≤ 512 }
    requires high_bound { high ≤ 512 }
    requires room_len { length room.old ≡ wide * high }
    requires right_len { wide * high ≤ length right.now }
    requires below_len { wide * high ≤ length below.now }
    requires right_few { StepsFew right.now }
    requires below_few { StepsFew below.now }
    ensures { Integrated wide high right.now below.now room.new }
{
    if wide == 0 {
        return;
    }
    let mut start = 0;
    for y in 0..high {
        let from = y * wide;
        follow_row(start, row_of(right, wide, y), &mut room[from..from + wide]);
        start += below[from];
    }
}
