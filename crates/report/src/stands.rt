// Where in a text it stands that there is no answer.
ghost use Rattle.std.specs.Prelude.{◌≡◌, Some, IfSome};
ghost use Rattle.report.specs.Stands.{price_at, refused_at, stands};

use crate::unanswered::Unanswered;
use phase_input::refusal::{Dimension, Refusal};
use std::alloc::Global;
use text::document::read;
use text_locate::word::{Keyword, WordAt, cell, flawed, said};

// The price of a place and way: the one for all, or else that in a row below what was seen.
fn price_at(text: &[u8], places: usize, p: u64) -> Option<WordAt>
    ensures { result ≡ price_at text.now places p }
{
    match said(text, Keyword::Price) {
        Some(at) => Some(at),
        None => cell(text, places.saturating_add(p as usize)),
    }
}

// The word because of which a picture of so many rows and columns is refused, where there is one.
fn refused_at(text: &[u8], wide: usize, high: usize, why: Refusal) -> Option<WordAt>
    ensures { result ≡ refused_at text.now wide high why }
{
    match why {
        Refusal::Size(Dimension::Wide) => cell(text, 64),
        Refusal::Size(Dimension::High) => cell(text, wide.saturating_mul(64)),
        Refusal::Size(Dimension::Turn) => said(text, Keyword::Turn),
        Refusal::Seen(p) => cell(text, p as usize),
        Refusal::Price(p) => price_at(text, wide.saturating_mul(high), p),
        Refusal::Room(_) | Refusal::Text(_) => None,
    }
}

/// The word of a text because of which it has no answer: None where there is none, or no memory to find it.
pub fn stands_at(heap: Global, text: &[u8], why: Unanswered) -> Option<WordAt>
    ensures { IfSome result (λ at. stands text.now why ≡ Some at) }
{
    match why {
        Unanswered::Unreadable(line, flaw) => Some(flawed(text, line as usize, flaw)),
        Unanswered::Refused(refusal) => {
            let picture = read(heap, text).ok()?.picture(heap).ok()?;
            refused_at(text, picture.wide as usize, picture.high as usize, refusal)
        }
        Unanswered::Memory => None,
    }
}
