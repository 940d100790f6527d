// Potentials after a search.
ghost use Rattle.std.specs.Prelude.{◌≡◌, ◌^◌, ◌<◌, ◌≤◌, length, pos, ◌≤ℤ◌, ◌<ℤ◌, unsigned_abs};
ghost use Rattle.net_cells.specs.Lists.{potential_of};
ghost use Rattle.net_cells_search.specs.Marks.{label_of, far};
ghost use Rattle.net_cells_search.specs.Lower.{Forgotten, FallenAt, lowered};

use crate::marks::label_at;
use net_cells::{Cell, FAR, Mark, Side, signed};

// A potential lowered by what the label is below the bound.
#[inline(always)]
fn fallen(potential: i32, side: Side, label: i32, bound: i32) -> i32
    requires potential { label <ℤ bound → unsigned_abs potential ≤ 2 ^ 28 }
    requires label { pos 0 ≤ℤ label }
    requires limit { bound ≤ℤ far }
    ensures { result ≡ lowered side label bound potential }
{
    if label < bound {
        potential + signed(side.back, label - bound)
    } else {
        potential
    }
}

// The potential of cell `v`.
#[inline(always)]
fn potential_of(cells: &[Cell], v: usize) -> i32
    requires { v < length cells.now }
    ensures { result ≡ potential_of cells.now v }
{
    cells[v].potential
}

// Gives cell `v` another potential.
#[inline(always)]
fn set_potential(cells: &mut [Cell], v: usize, potential: i32)
    requires { v < length cells.old }
    ensures { FallenAt cells.old cells.new v potential }
{
    cells[v].potential = potential;
}

// Forgets the label of cell `v`.
#[inline(always)]
fn forget(marks: &mut [Mark], v: usize)
    requires { v < length marks.old }
    ensures { Forgotten marks.old marks.new v }
{
    let way = marks[v].way;
    marks[v] = Mark {
        label: FAR,
        way,
        waits: false,
    };
}

// Lowers the potential of cell `v` by what its label is below the bound, and forgets the label.
#[inline(always)]
pub(crate) fn lower_one(cells: &mut [Cell], marks: &mut [Mark], v: usize, side: Side, bound: i32)
    requires cell { v < length cells.old }
    requires mark { v < length marks.old }
    requires potential { label_of marks.old v <ℤ bound → unsigned_abs (potential_of cells.old v) ≤
        2 ^ 28 }
    requires label { pos 0 ≤ℤ label_of marks.old v }
    requires limit { bound ≤ℤ far }
    ensures fallen { FallenAt cells.old cells.new v (lowered side (label_of marks.old v) bound
        (potential_of cells.old v)) }
    ensures forgotten { Forgotten marks.old marks.new v }
{
    let label = label_at(marks, v);
    let potential = fallen(potential_of(cells, v), side, label, bound);
    set_potential(cells, v, potential);
    forget(marks, v);
}
