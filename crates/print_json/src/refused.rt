// Why there is no answer, as JSON.
ghost use Rattle.std.specs.Prelude.{◌≡◌, IfOk, string_bytes};
ghost use Rattle.serde_json.specs.View.{view};
ghost use Rattle.print_json.specs.Line.{json_line};
ghost use Rattle.print_json.specs.Refused.{refused_data, reason_data, stood_data};

use serde_json::{Value, json};
use std::alloc::{AllocError, Global};

/// A line and a column, counted from 1.
#[derive(Clone, Copy, PartialEq, Eq, Debug)]
pub struct Position {
    pub line: u64,
    pub column: u64,
}

/// A refusal: its number and place, why, and where in a text it went wrong, if that has a place for it.
#[derive(Clone, Copy)]
pub struct Refused<'a> {
    pub number: u64,
    pub place: u64,
    pub reason: &'a str,
    pub position: Option<Position>,
}

// Without and with the position.
fn reason_value(heap: Global, refused: &Refused<'_>) -> Result<Value, AllocError>
    ensures { IfOk result (λ v. let r = refused.now in
        view v ≡ reason_data r.number r.place r.reason.now) }
{
    let (number, place, reason) = (refused.number, refused.place, refused.reason);
    json!(in heap; {"refused": {"number": number, "place": place, "reason": reason}})
}

fn stood_value(heap: Global, refused: &Refused<'_>, position: Position) -> Result<Value, AllocError>
    ensures { IfOk result (λ v. let r = refused.now in
        view v ≡ stood_data r.number r.place r.reason.now position) }
{
    let (number, place, reason) = (refused.number, refused.place, refused.reason);
    let (line, column) = (position.line, position.column);
    json!(in heap; {"refused": {"column": column, "line": line, "number": number, "place": place, "reason": reason}})
}

/// A refusal as an object.
pub fn refused_value(heap: Global, refused: &Refused<'_>) -> Result<Value, AllocError>
    ensures { IfOk result (λ v. view v ≡ refused_data refused.now) }
{
    match refused.position {
        None => reason_value(heap, refused),
        Some(position) => stood_value(heap, refused, position),
    }
}

/// The same as a text of one line.
pub fn refused_json(heap: Global, refused: &Refused<'_>) -> Result<String, AllocError>
    ensures { IfOk result (λ s. string_bytes s ≡ json_line (refused_data refused.now)) }
{
    let mut text = refused_value(heap, refused)?.to_string(heap)?;
    writeln!(text)?;
    Ok(text)
}
