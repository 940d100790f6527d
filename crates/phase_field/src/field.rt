// Fields of wrapped numbers.
ghost use Rattle.std.specs.Prelude.{ℕ, ◌≡◌, ◌*◌, ◌<◌, ◌≤◌, slice_index};

/// The most places that a field has: 64 by 64.
pub const PLACES: usize = 4096;

/// A field by value: how many places it is wide and high, how many units a turn (a cycle of phase) has, and for each place, row by row
/// from the upper left, the wrapped number that was seen, and the prices of the steps to the right and down. The lists are 0 past the last
/// place.
#[derive(Drop)]
pub struct Field {
    pub wide: usize,
    pub high: usize,
    pub turn: u32,
    pub seen: [u32; PLACES],
    pub right: [u32; PLACES],
    pub below: [u32; PLACES],
    ghost wide_some: { 1 ≤ wide },
    ghost wide_fits: { wide ≤ 64 },
    ghost high_some: { 1 ≤ high },
    ghost high_fits: { high ≤ 64 },
    ghost turn_some: { 2 ≤ turn },
    ghost turn_fits: { turn ≤ 65536 },
    ghost seen_fits: { (k : ℕ) → slice_index seen k < turn },
    ghost right_fits: { (k : ℕ) → slice_index right k ≤ 1000 },
    ghost below_fits: { (k : ℕ) → slice_index below k ≤ 1000 },
}

impl Field {
    /// How many places it has.
    pub fn places(&self) -> usize
        ensures { result ≡ self.now.wide * self.now.high }
    {
        self.wide * self.high
    }
}
