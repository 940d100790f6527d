// Rows of lists that are kept row by row.
ghost use Rattle.std.specs.Prelude.{◌+◌, ◌*◌, ◌<◌, ◌≤◌, length};
ghost use Rattle.phase_field.specs.Model.{Part, Row};

use crate::field::{Field, PLACES};

/// So many numbers of a list, from a place on.
pub fn part_of<T>(all: &[T], from: usize, count: usize) -> &[T]
    requires { from + count ≤ length all.now }
    ensures { Part from count all.now result.now }
{
    &all[from..from + count]
}

/// A row of a list that is so many wide.
pub fn row_of<T>(all: &[T], wide: usize, y: usize) -> &[T]
    requires { y * wide + wide ≤ length all.now }
    ensures { Row wide y all.now result.now }
{
    part_of(all, y * wide, wide)
}

impl Field {
    // A row of a list of the field.
    fn row<'a>(&'a self, list: &'a [u32; PLACES], y: usize) -> &'a [u32]
        requires { y < self.now.high }
        ensures { Row self.now.wide y list.now result.now }
    {
        row_of(list, self.wide, y)
    }

    /// The prices of the steps to the right in a row.
    pub fn right_row(&self, y: usize) -> &[u32]
        requires { y < self.now.high }
        ensures { Row self.now.wide y self.now.right result.now }
    {
        self.row(&self.right, y)
    }

    /// The prices of the steps down from a row.
    pub fn below_row(&self, y: usize) -> &[u32]
        requires { y < self.now.high }
        ensures { Row self.now.wide y self.now.below result.now }
    {
        self.row(&self.below, y)
    }
}
