// What a line of a text says.
ghost use Rattle.std.specs.Prelude.{◌≡◌};
ghost use Rattle.text_lines.specs.Kind.{only_number, squares_alone, kind_of};
ghost use Rattle.text_words.specs.Pieces.{words};

use crate::flaw::{Flaw, number_of};
use text_words::pieces::next_word;

/// What a line says: nothing, the turn, one price for all steps, a wish for the squares, or a row of numbers, which is yet to be read.
#[derive(Clone, Copy, PartialEq, Eq, Debug)]
pub enum Kind {
    Nothing,
    Turn(u64),
    Price(u64),
    Squares,
    Row,
}

// The one number of what is left of a line.
fn only_number(rest: &[u8]) -> Result<u64, Flaw>
    ensures { result ≡ only_number (words rest.now) }
{
    let Some((word, after)) = next_word(rest) else {
        return Err(Flaw::NotOne);
    };
    if next_word(after).is_some() {
        return Err(Flaw::NotOne);
    }
    number_of(word)
}

// No word more.
fn squares_alone(rest: &[u8]) -> Result<Kind, Flaw>
    ensures { result ≡ squares_alone (words rest.now) }
{
    match next_word(rest) {
        None => Ok(Kind::Squares),
        Some(_) => Err(Flaw::NotAlone),
    }
}

/// What a line says.
// Inlined: a call and its answer through memory would cost an empty line as much as all else.
#[inline(always)]
pub fn kind_of(line: &[u8]) -> Result<Kind, Flaw>
    ensures { result ≡ kind_of (words line.now) }
{
    let Some((word, rest)) = next_word(line) else {
        return Ok(Kind::Nothing);
    };
    match word {
        [b'#', ..] => Ok(Kind::Nothing),
        b"turn" => Ok(Kind::Turn(only_number(rest)?)),
        b"price" => Ok(Kind::Price(only_number(rest)?)),
        b"squares" => squares_alone(rest),
        _ => Ok(Kind::Row),
    }
}
