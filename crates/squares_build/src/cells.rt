// The cells of squares, before anything flows.
ghost use Rattle.std.specs.Prelude.{◌≡◌, ◌≢◌, ◌⊎◌, ℕ, true, false, ◌+◌, ◌-◌, ◌*◌, ◌<◌, ◌≤◌, length, pos, slice_index_or, ◌+ℤ◌, ◌-ℤ◌, unsigned_abs};
ghost use Rattle.net_cells.specs.Lists.{no_cell};
ghost use Rattle.squares_build.specs.Laid.{Laid};
ghost use Rattle.phase_cost.specs.Steps.{NoResidues};
ghost use Rattle.squares_cells.specs.Squares.{Corner};
ghost use Rattle.squares_build.specs.Cells.{IsCellAt, excess_at, CellsFor, RowComesBack};

use crate::steps::Steps;
use net_cells::Cell;

// Two steps after one another.
#[inline(always)]
fn both(a: i64, b: i64) -> i64
    requires a { unsigned_abs a ≤ 4294967296 }
    requires b { unsigned_abs b ≤ 4294967296 }
    ensures is { result ≡ a +ℤ b }
    ensures small { unsigned_abs result ≤ 8589934592 }
{
    a + b
}

// By how much one way round comes to more than the other.
#[inline(always)]
fn more(a: i64, b: i64) -> i64
    requires a { unsigned_abs a ≤ 8589934592 }
    requires b { unsigned_abs b ≤ 8589934592 }
    ensures is { result ≡ a -ℤ b }
    ensures small { unsigned_abs result ≤ 17179869184 }
{
    a - b
}

// Writes one cell, field by field, as there is some room between them in memory that isn't to be copied.
#[inline(always)]
fn put(cells: &mut [Cell], at: usize, excess: i64, inner: bool)
    requires { at < length cells.old }
    ensures here { slice_index_or cells.new at no_cell ≡
        record { excess = excess; potential = pos 0; inner = inner } }
    ensures kept { (k : ℕ) → (k ≢ at) → slice_index_or cells.new k no_cell ≡
        slice_index_or cells.old k no_cell }
{
    cells[at].excess = excess;
    cells[at].potential = 0;
    cells[at].inner = inner;
}

impl Steps<'_, '_, '_, '_> {
    ghost use Rattle.squares_build.specs.Steps.{lent};

    // How many turns are expected of the step from (x, y) to the right.
    #[inline(always)]
    #[tactic(auto, unfolding(phase_field::specs::Field::turns_in))]
    fn turns_right(&self, x: usize, y: usize) -> i64
        requires x { x < self.now.wide }
        requires y { y < self.now.high }
        ensures is { result ≡ (lent self.now).to_right x y }
        ensures small { unsigned_abs result ≤ 4294967296 }
    {
        self.to_right[y * self.wide + x]
    }

    // The same down.
    #[inline(always)]
    #[tactic(auto, unfolding(phase_field::specs::Field::turns_in))]
    fn turns_below(&self, x: usize, y: usize) -> i64
        requires x { x < self.now.wide }
        requires y { y < self.now.high }
        ensures is { result ≡ (lent self.now).to_below x y }
        ensures small { unsigned_abs result ≤ 4294967296 }
    {
        self.to_below[y * self.wide + x]
    }

    // What the square with the last corner (x, y) has in excess.
    #[inline(always)]
    fn excess(&self, x: usize, y: usize) -> i64
        requires { Corner self.now.wide self.now.high x y }
        ensures is { result ≡ excess_at (lent self.now) x y }
        ensures small { unsigned_abs result ≤ 17179869184 }
    {
        let right_down = both(self.turns_right(x - 1, y - 1), self.turns_below(x, y - 1));
        let down_right = both(self.turns_below(x - 1, y - 1), self.turns_right(x - 1, y));
        more(down_right, right_down)
    }

    // Whether the steps come back round all squares with the last corner in row y.
    fn row_comes_back(&self, y: usize) -> bool
        requires some { 1 ≤ y }
        requires y { y < self.now.high }
        ensures yes { result ≡ true → RowComesBack (lent self.now) y }
        ensures no { result ≡ false → RowComesBack (lent self.now) y → ⊥ }
    {
        for x in 1..self.wide {
            if self.excess(x, y) != 0 {
                return false;
            }
        }
        true
    }

    /// Whether the steps come back round every square: none has a residue.
    pub fn comes_back(&self) -> bool
        ensures yes { result ≡ true → NoResidues (lent self.now) }
        ensures no { result ≡ false → NoResidues (lent self.now) → ⊥ }
    {
        for y in 1..self.high {
            if !self.row_comes_back(y) {
                return false;
            }
        }
        true
    }

    // Writes the cells between two rows of places, from left to right.
    fn fill_row(&self, cells: &mut [Cell], y: usize)
        requires len { length cells.old ≡ (self.now.high + 1) * (self.now.wide + 1) }
        requires some { 1 ≤ y }
        requires y { y < self.now.high }
        requires laid { Laid (self.now.wide + 1) (IsCellAt (lent self.now)) no_cell 0 y cells.old }
        ensures { Laid (self.now.wide + 1) (IsCellAt (lent self.now)) no_cell (self.now.wide +
            1) y cells.new }
    {
        let from = y * (self.wide + 1);
        put(cells, from, 0, false);
        for x in 1..self.wide {
            put(cells, from + x, self.excess(x, y), true);
        }
        put(cells, from + self.wide, 0, false);
    }

    // Writes a row of cells outside.
    fn fill_outside(&self, cells: &mut [Cell], y: usize)
        requires len { length cells.old ≡ (self.now.high + 1) * (self.now.wide + 1) }
        requires edge { (y ≡ 0) ⊎ (y ≡ self.now.high) }
        requires laid { Laid (self.now.wide + 1) (IsCellAt (lent self.now)) no_cell 0 y cells.old }
        ensures { Laid (self.now.wide + 1) (IsCellAt (lent self.now)) no_cell (self.now.wide +
            1) y cells.new }
    {
        let from = y * (self.wide + 1);
        for x in 0..self.wide + 1 {
            put(cells, from + x, 0, false);
        }
    }

    /// Writes the cells of all squares, and those outside round them.
    pub fn fill_cells(&self, cells: &mut [Cell])
        requires { length cells.old ≡ (self.now.high + 1) * (self.now.wide + 1) }
        ensures { CellsFor (lent self.now) cells.new }
    {
        self.fill_outside(cells, 0);
        for y in 1..self.high {
            self.fill_row(cells, y);
        }
        self.fill_outside(cells, self.high);
    }
}
