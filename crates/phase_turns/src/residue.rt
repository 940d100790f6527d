// Residues: by how many turns steps don't come back round a square.
ghost use Rattle.std.specs.Prelude.{◌≡◌, suc, ◌<◌, ◌≤◌, ◌↔◌, ◌+ℤ◌, ◌-ℤ◌, IsTrue, unsigned_abs};
ghost use Rattle.phase_field.specs.Model.{field_of};
ghost use Rattle.phase_cost.specs.Steps.{residue, steps_in, NoResidues};
ghost use Rattle.phase_turns.specs.Follow.{StepsSmall};
ghost use Rattle.phase_turns.specs.Residue.{counted, row_residue_count, residue_count};

use crate::steps::Steps;
use phase_field::field::Field;

// Two steps one way round a square against two the other way.
fn against(right: i64, then_below: i64, below: i64, then_right: i64) -> i64
    requires right { unsigned_abs right ≤ 8193 }
    requires then_below { unsigned_abs then_below ≤ 8193 }
    requires below { unsigned_abs below ≤ 8193 }
    requires then_right { unsigned_abs then_right ≤ 8193 }
    ensures { result ≡ (right +ℤ then_below) -ℤ (below +ℤ then_right) }
{
    (right + then_below) - (below + then_right)
}

/// The residue of the square whose first place is in column x and row y: right and down against down and right (Goldstein, Zebker and
/// Werner 1988).
pub fn residue(field: &Field, steps: &Steps, x: usize, y: usize) -> i64
    requires wide { suc x < field.now.wide }
    requires high { suc y < field.now.high }
    requires right_small { StepsSmall steps.now.right }
    requires below_small { StepsSmall steps.now.below }
    ensures { result ≡ residue (steps_in (field_of field.now) steps.now.right steps.now.below) x y }
{
    let place = y * field.wide + x;
    against(
        steps.right[place],
        steps.below[place + 1],
        steps.below[place],
        steps.right[place + field.wide],
    )
}

// 1 for a residue, whichever way.
fn counted(residue: i64) -> usize
    ensures { result ≡ counted residue }
{
    if residue == 0 { 0 } else { 1 }
}

// How many squares between a row and the one below it have a residue.
fn row_residue_count(field: &Field, steps: &Steps, y: usize) -> usize
    requires high { suc y < field.now.high }
    requires right_small { StepsSmall steps.now.right }
    requires below_small { StepsSmall steps.now.below }
    ensures { result ≡
        row_residue_count (steps_in (field_of field.now) steps.now.right steps.now.below) y }
{
    let mut count = 0;
    for x in 0..field.wide - 1 {
        count += counted(residue(field, steps, x, y));
    }
    count
}

/// How many squares have a residue.
pub fn residue_count(field: &Field, steps: &Steps) -> usize
    requires right_small { StepsSmall steps.now.right }
    requires below_small { StepsSmall steps.now.below }
    ensures { result ≡
        residue_count (steps_in (field_of field.now) steps.now.right steps.now.below) }
{
    let mut count = 0;
    for y in 0..field.high - 1 {
        count += row_residue_count(field, steps, y);
    }
    count
}

/// Whether steps come back round every square.
pub fn has_no_residue(field: &Field, steps: &Steps) -> bool
    requires right_small { StepsSmall steps.now.right }
    requires below_small { StepsSmall steps.now.below }
    ensures { IsTrue result ↔
        NoResidues (steps_in (field_of field.now) steps.now.right steps.now.below) }
{
    residue_count(field, steps) == 0
}
