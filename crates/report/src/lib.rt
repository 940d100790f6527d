// What a text is answered with.
#![tactic(auto)]

ghost use Rattle.std.specs.Prelude.{◌≡◌, map, pos, None, IfOk, IfErr, string_bytes};
ghost use Rattle.phase_field.specs.Model.{field_of};
ghost use Rattle.pictures.specs.Picture.{picture_text};
ghost use Rattle.text.specs.Document.{contents, reading};
ghost use Rattle.print.specs.Rows.{rows_text};
ghost use Rattle.print.specs.declared.rows.Parting.TheVariants.{Comma};
ghost use Rattle.report.specs.Promise.{refused_of, unanswered_of, form_text, Solved, Views, Shows};
ghost use Rattle.report.specs.Unanswered.{Explains};

pub mod stands;
pub mod unanswered;

use crate::unanswered::Unanswered;
use phase_field::field::Field;
use phase_input::input::Input;
use phase_input::take::take;
use pictures::{numbers_of, picture};
use print::answer::{Report, answer};
use print::heights::heights_of;
use print::rows::{Parting, push_rows};
use print_json::answer::answer_json;
use std::alloc::{AllocError, Global};
use text::document::{Document, read};
use unwrap::unwrap_field;

/// How heights are shown: as rows of numbers with their cost, both as JSON, the heights alone as CSV, or as a picture.
#[derive(Clone, Copy, PartialEq, Eq, Debug)]
pub enum Form {
    Rows,
    Json,
    Csv,
    Picture,
}

/// What is shown of a field: its heights, or the rings that were seen.
#[derive(Clone, Copy, PartialEq, Eq, Debug)]
pub enum View {
    Heights(Form),
    Rings,
}

// Heights row by row, parted by commas.
fn table(heap: Global, report: &Report<'_>) -> Result<String, AllocError>
    ensures { IfOk result (λ s.
        let r = report.now in
        string_bytes s ≡ rows_text Comma r.field.now.wide r.field.now.high r.heights.now) }
{
    let mut out = String::new(heap);
    let field = report.field;
    push_rows(
        &mut out,
        Parting::Comma,
        field.wide,
        field.high,
        report.heights,
    )?;
    Ok(out)
}

// The text of heights.
fn shown(heap: Global, form: Form, report: &Report<'_>) -> Result<String, AllocError>
    ensures { IfOk result (λ s.
        let r = report.now in
        string_bytes s ≡ form_text form (field_of r.field.now) r.heights.now r.cost r.squares) }
{
    match form {
        Form::Rows => answer(heap, report),
        Form::Json => answer_json(heap, report),
        Form::Csv => table(heap, report),
        Form::Picture => picture(heap, report.field.wide, report.field.high, report.heights),
    }
}

// The heights of a field in which this was seen.
fn heights_text(
    heap: Global,
    field: &Field,
    seen: &[u32],
    form: Form,
    squares: bool,
) -> Result<String, AllocError>
    ensures { IfOk result (λ s.
        Solved form (field_of field.now) seen.now squares (string_bytes s)) }
{
    let mut turns = vec![in heap; 0i64; field.places()]?;
    let cost = unwrap_field(field, turns.as_mut_slice());
    let heights = heights_of(heap, field.turn, seen, turns.as_slice())?;
    let report = Report {
        field,
        heights: heights.as_slice(),
        cost,
        squares,
    };
    shown(heap, form, &report)
}

// The rings that were seen in a field.
fn rings_text(heap: Global, field: &Field, seen: &[u32]) -> Result<String, AllocError>
    ensures { IfOk result (λ s.
        string_bytes s ≡ picture_text field.now.wide field.now.high (map pos seen.now)) }
{
    let numbers = numbers_of(heap, seen)?;
    picture(heap, field.wide, field.high, numbers.as_slice())
}

// What is shown of a field in which this was seen.
fn view_text(
    heap: Global,
    field: &Field,
    seen: &[u32],
    view: View,
    squares: bool,
) -> Result<String, AllocError>
    ensures { IfOk result (λ s. Views view (field_of field.now) seen.now squares (string_bytes s)) }
{
    match view {
        View::Heights(form) => heights_text(heap, field, seen, form, squares),
        View::Rings => rings_text(heap, field, seen),
    }
}

/// What is shown of a document, or why there is no answer.
pub fn answer_to(heap: Global, document: &Document, view: View) -> Result<String, Unanswered>
    ensures shown { IfOk result (λ s. Shows view (contents document.now) (string_bytes s)) }
    ensures taken { IfOk result (λ _. refused_of (contents document.now) ≡ None) }
    ensures refused { IfErr result (Explains (refused_of (contents document.now))) }
{
    let picture = document.picture(heap)?;
    let input = Input {
        wide: picture.wide,
        high: picture.high,
        turn: document.turn,
        seen: picture.seen.as_slice(),
        right: picture.right.as_slice(),
        below: picture.below.as_slice(),
    };
    let field = take(&input, input.seen.len() as u64)?;
    Ok(view_text(heap, &field, input.seen, view, document.squares)?)
}

/// What is shown of the document that a text is, or why there is no answer.
pub fn answer_to_text(heap: Global, text: &[u8], view: View) -> Result<String, Unanswered>
    ensures shown { IfOk result (λ s.
        IfOk (reading text.now) (λ d. Shows view d (string_bytes s))) }
    ensures taken { IfOk result (λ _. unanswered_of (reading text.now) ≡ None) }
    ensures refused { IfErr result (Explains (unanswered_of (reading text.now))) }
{
    let document = read(heap, text)?;
    answer_to(heap, &document, view)
}
