// What is said of a text that has no answer.
use phase_input::refusal::Refusal;
use print_json::refused::{Position, Refused, refused_json};
use report::stands::stands_at;
use report::unanswered::Unanswered;
use std::alloc::{AllocError, Global};
use text_locate::place::place_of;
use text_locate::word::{WordAt, word_at};

// A place, counted from 1.
fn position_of(text: &[u8], at: WordAt) -> Option<Position> {
    let place = place_of(text, at)?;
    Some(Position {
        line: (place.line as u64).saturating_add(1),
        column: (place.column as u64).saturating_add(1),
    })
}

// A word as it can be shown, of a long one the beginning.
fn shown(heap: Global, word: &[u8]) -> Result<String, AllocError> {
    let mut out = String::new(heap);
    for b in word.iter().take(40) {
        if b.is_ascii_graphic() {
            out.push(char::from(*b))?;
        } else {
            write!(out, "\\x{b:02x}")?;
        }
    }
    if word.len() > 40 {
        out.push_str("..")?;
    }
    Ok(out)
}

/// The line that says where it went wrong, and what stands there, as `field.txt:3:1: 10`, both counted from 1; None where the text has no
/// place for it.
pub fn place_line(
    heap: Global,
    name: &str,
    text: &[u8],
    why: Unanswered,
) -> Result<Option<String>, AllocError> {
    let Some(at) = stands_at(heap, text, why) else {
        return Ok(None);
    };
    let (Some(position), Some(word)) = (position_of(text, at), word_at(text, at)) else {
        return Ok(None);
    };
    let (line, column, word) = (position.line, position.column, shown(heap, word)?);
    let mut out = format!(in heap; "{name}:{line}:{column}: {word}")?;
    if let Some(flaw) = why.flaw() {
        let reason = flaw.reason();
        write!(out, ": {reason}")?;
    }
    Ok(Some(out))
}

/// A refusal as a line of JSON.
pub fn refusal_json(
    heap: Global,
    text: &[u8],
    refusal: Refusal,
    why: Unanswered,
) -> Result<String, AllocError> {
    let reason = match why.flaw() {
        Some(flaw) => flaw.reason(),
        None => refusal.reason(),
    };
    let refused = Refused {
        number: refusal.number(),
        place: refusal.place(),
        reason,
        position: stands_at(heap, text, why).and_then(|at| position_of(text, at)),
    };
    refused_json(heap, &refused)
}
