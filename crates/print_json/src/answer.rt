// What is said of a field with its turns put back, as JSON.
ghost use Rattle.std.specs.Prelude.{◌≡◌, codes, IfOk, string_bytes};
ghost use Rattle.phase_field.specs.Model.{field_of};
ghost use Rattle.serde_json.specs.View.{view};
ghost use Rattle.print_json.specs.Line.{json_line};
ghost use Rattle.print_json.specs.Answer.{signs_data, plain_data, squares_data, answer_data};

use crate::rows::rows_value;
use phase_field::field::Field;
use phase_turns::steps::Steps;
use print::answer::Report;
use print::signs::push_sign_row;
use serde_json::{Value, json};
use std::alloc::{AllocError, Global};

// A text of signs for each row of squares.
fn signs_value(heap: Global, field: &Field) -> Result<Value, AllocError>
    ensures { IfOk result (λ v. view v ≡ signs_data (field_of field.now)) }
{
    let expected = Steps::expected(field);
    let mut rows = Vec::new(heap);
    for y in 0..field.high - 1 {
        let mut row = String::new(heap);
        push_sign_row(&mut row, field, &expected, y)?;
        rows.push(Value::from(row))?;
    }
    Ok(Value::from(rows))
}

// The object without the squares, and with them.
fn plain_value(heap: Global, report: &Report<'_>, heights: Value) -> Result<Value, AllocError>
    ensures { IfOk result (λ v. view v ≡
        plain_data (field_of report.now.field.now) (view heights) report.now.cost) }
{
    let field = report.field;
    let (cost, high, turn, wide) = (report.cost, field.high, field.turn, field.wide);
    json!(in heap; {"command": "unwrap", "cost": cost, "heights": heights, "high": high, "turn": turn, "wide": wide})
}

fn squares_value(heap: Global, report: &Report<'_>, heights: Value) -> Result<Value, AllocError>
    ensures { IfOk result (λ v. view v ≡
        squares_data (field_of report.now.field.now) (view heights) report.now.cost) }
{
    let field = report.field;
    let squares = signs_value(heap, field)?;
    let (cost, high, turn, wide) = (report.cost, field.high, field.turn, field.wide);
    json!(in heap; {"command": "unwrap", "cost": cost, "heights": heights, "high": high, "squares": squares, "turn": turn, "wide": wide})
}

/// The heights row by row, the cost, and the signs where the squares are asked for, as one object.
pub fn answer_value(heap: Global, report: &Report<'_>) -> Result<Value, AllocError>
    ensures { IfOk result (λ v. view v ≡
        answer_data (field_of report.now.field.now)
        report.now.heights.now report.now.cost report.now.squares) }
{
    let heights = rows_value(heap, report.field.wide, report.field.high, report.heights)?;
    if report.squares {
        squares_value(heap, report, heights)
    } else {
        plain_value(heap, report, heights)
    }
}

/// The same as a text of one line.
pub fn answer_json(heap: Global, report: &Report<'_>) -> Result<String, AllocError>
    ensures { IfOk result (λ s. string_bytes s ≡
        json_line (answer_data (field_of report.now.field.now)
        report.now.heights.now report.now.cost report.now.squares)) }
{
    let mut text = answer_value(heap, report)?.to_string(heap)?;
    writeln!(text)?;
    Ok(text)
}
