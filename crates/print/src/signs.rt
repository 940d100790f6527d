// Signs of squares: of their residues.
ghost use Rattle.std.specs.Prelude.{◌≡◌, suc, pred, ◌<◌, ◌++◌, string_bytes, OnOk};
ghost use Rattle.phase_field.specs.Model.{field_of};
ghost use Rattle.phase_cost.specs.Steps.{residue, turn_steps};
ghost use Rattle.phase_turns.specs.Follow.{Expected};
ghost use Rattle.print.specs.Signs.{sign, sign_row, signs_text};

use phase_field::field::Field;
use phase_turns::residue::residue;
use phase_turns::steps::Steps;
use std::alloc::AllocError;

// The sign of a residue.
fn sign(residue: i64) -> char
    ensures { result ≡ sign residue }
{
    if residue > 0 {
        '+'
    } else if residue < 0 {
        '-'
    } else {
        '.'
    }
}

// The sign of the square to the right of a place and below it.
fn sign_at(field: &Field, expected: &Steps, x: usize, y: usize) -> char
    requires wide { suc x < field.now.wide }
    requires high { suc y < field.now.high }
    requires expected { Expected (field_of field.now) expected.now.right expected.now.below }
    ensures { result ≡ sign (residue (turn_steps (field_of field.now)) x y) }
{
    sign(residue(field, expected, x, y))
}

/// Adds the signs of a row of squares.
pub fn push_sign_row(
    out: &mut String,
    field: &Field,
    expected: &Steps,
    y: usize,
) -> Result<(), AllocError>
    requires high { suc y < field.now.high }
    requires expected { Expected (field_of field.now) expected.now.right expected.now.below }
    ensures { OnOk result
        (string_bytes out.new ≡
        string_bytes out.old ++ sign_row (field_of field.now) y 0 (pred field.now.wide)) }
{
    for x in 0..field.wide - 1 {
        out.push(sign_at(field, expected, x, y))?;
    }
    Ok(())
}

/// Adds a line of signs for each row of squares: `+` for a residue above 0, where right and down is more than down and right, `-` for one
/// below, and `.` for none.
pub fn push_signs(out: &mut String, field: &Field) -> Result<(), AllocError>
    ensures { OnOk result (string_bytes out.new ≡
        string_bytes out.old ++ signs_text (field_of field.now)) }
{
    let expected = Steps::expected(field);
    for y in 0..field.high - 1 {
        push_sign_row(out, field, &expected, y)?;
        writeln!(out)?;
    }
    Ok(())
}
