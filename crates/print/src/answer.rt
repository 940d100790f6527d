// What is printed of a field that was worked on.
ghost use Rattle.std.specs.Prelude.{◌≡◌, IfOk, string_bytes};
ghost use Rattle.phase_field.specs.Model.{field_of};
ghost use Rattle.print.specs.Answer.{answer_text};

use crate::rows::{Parting, push_cost, push_rows};
use crate::signs::push_signs;
use phase_field::field::Field;
use std::alloc::{AllocError, Global};

/// A field with its heights, what their turns cost, and whether the signs of its squares are asked for.
#[derive(Clone, Copy)]
pub struct Report<'a> {
    pub field: &'a Field,
    pub heights: &'a [i64],
    pub cost: u64,
    pub squares: bool,
}

/// The heights row by row, the cost, and the signs where the squares are asked for.
pub fn answer(heap: Global, report: &Report<'_>) -> Result<String, AllocError>
    ensures { IfOk result (λ s.
        let r = report.now in
        string_bytes s ≡ answer_text (field_of r.field.now) r.heights.now r.cost r.squares) }
{
    let field = report.field;
    let mut out = String::new(heap);
    push_rows(
        &mut out,
        Parting::Space,
        field.wide,
        field.high,
        report.heights,
    )?;
    push_cost(&mut out, report.cost)?;
    if report.squares {
        push_signs(&mut out, field)?;
    }
    Ok(out)
}
