// Expected steps with their prices.
ghost use Rattle.std.specs.Prelude.{ℕ, ◌≡◌, ◌+◌, ◌*◌, ◌≤◌, length, pos, slice_index, slice_index_or, unsigned_abs};

/// Expected steps and their prices, as they are lent: how many turns are expected of the steps to the right and down from each place, row by
/// row, of places so many wide and high, and what a turn more or less costs. What stands for steps beyond the edge counts nothing.
#[derive(Clone, Copy)]
pub struct Steps<'x, 'y, 'r, 'b> {
    pub wide: usize,
    pub high: usize,
    pub to_right: &'x [i64],
    pub to_below: &'y [i64],
    pub right: &'r [u32],
    pub below: &'b [u32],
    ghost wide_some: { 1 ≤ wide },
    ghost wide_fits: { wide ≤ 512 },
    ghost high_some: { 1 ≤ high },
    ghost high_fits: { high ≤ 512 },
    ghost to_right_len: { high * wide ≤ length to_right.now },
    ghost to_below_len: { high * wide ≤ length to_below.now },
    ghost right_len: { high * wide ≤ length right.now },
    ghost below_len: { high * wide ≤ length below.now },
    ghost to_right_small: { (k : ℕ) → unsigned_abs (slice_index_or to_right.now k (pos 0)) ≤
        4294967296 },
    ghost to_below_small: { (k : ℕ) → unsigned_abs (slice_index_or to_below.now k (pos 0)) ≤
        4294967296 },
    ghost right_small: { (k : ℕ) → slice_index right.now k ≤ 1000 },
    ghost below_small: { (k : ℕ) → slice_index below.now k ≤ 1000 },
}

impl Steps<'_, '_, '_, '_> {
    /// How many cells lie in a row between and round the squares.
    #[inline(always)]
    pub fn stride(&self) -> usize
        ensures { result ≡ self.now.wide + 1 }
    {
        self.wide + 1
    }
}
