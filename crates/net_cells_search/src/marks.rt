// Marks, and the list of the cells that have a label.
ghost use Rattle.std.specs.Prelude.{◌≡◌, ℕ, ◌+◌, ◌^◌, ◌<◌, ◌≤◌, ◌≢◌, length, true, false, pos, ◌≤ℤ◌, ◌<ℤ◌, ◌⊎◌, slice_index};
ghost use Rattle.net_cells.specs.Lists.{number};
ghost use Rattle.net_cells_search.specs.Marks.{label_of, open_of, way_of, far, Marked, Listed, Shut};

use net_cells::{FAR, Mark, Way};

// Gives cell `v` the label `r` by one way, and puts it on the list if it had none. The list has room for one more always, so that no
// branch is needed.
#[inline(always)]
pub(crate) fn meet(marks: &mut [Mark], touched: &mut [u32], count: &mut usize, v: usize, mark: Mark)
    requires cell { v < length marks.old }
    requires small { length marks.old < 2 ^ 32 }
    requires room { count.old < length touched.old }
    ensures marked { Marked marks.old marks.new v mark }
    ensures listed { Listed (label_of marks.old v) touched.old touched.new count.old count.new v }
{
    touched[*count] = v as u32;
    *count += usize::from(marks[v].label == FAR);
    marks[v] = mark;
}

// The label of cell `v`.
#[inline(always)]
pub(crate) fn label_at(marks: &[Mark], v: usize) -> i32
    requires { v < length marks.now }
    ensures { result ≡ label_of marks.now v }
{
    marks[v].label
}

// Cell `u` waits no more.
#[inline(always)]
pub(crate) fn shut(marks: &mut [Mark], u: usize)
    requires { u < length marks.old }
    ensures { Shut marks.old marks.new u }
{
    marks[u].waits = false;
}
