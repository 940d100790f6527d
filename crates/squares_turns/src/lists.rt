// A field by its lists.
ghost use Rattle.std.specs.Prelude.{ℕ, ◌*◌, ◌<◌, ◌≤◌, length, slice_index};

/// A field that is lent: how many places it is wide and high, up to 512, how many units a turn has, and, row by row from the upper left, what
/// was seen at each place and the prices of the steps to the right and down. Numbers past the last place count nothing.
#[derive(Clone, Copy)]
pub struct Lists<'s, 'r, 'b> {
    pub wide: usize,
    pub high: usize,
    pub turn: u32,
    pub seen: &'s [u32],
    pub right: &'r [u32],
    pub below: &'b [u32],
    ghost wide_some: { 1 ≤ wide },
    ghost wide_fits: { wide ≤ 512 },
    ghost high_some: { 1 ≤ high },
    ghost high_fits: { high ≤ 512 },
    ghost turn_some: { 2 ≤ turn },
    ghost turn_fits: { turn ≤ 65536 },
    ghost seen_len: { wide * high ≤ length seen.now },
    ghost right_len: { wide * high ≤ length right.now },
    ghost below_len: { wide * high ≤ length below.now },
    ghost seen_fits: { (k : ℕ) → slice_index seen.now k < turn },
    ghost right_fits: { (k : ℕ) → slice_index right.now k ≤ 1000 },
    ghost below_fits: { (k : ℕ) → slice_index below.now k ≤ 1000 },
}
