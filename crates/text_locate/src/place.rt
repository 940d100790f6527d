// Lines and columns.
ghost use Rattle.std.specs.Prelude.{◌≡◌};
ghost use Rattle.text_locate.specs.Place.{place_of};

use crate::column::column_of;
use crate::word::{WordAt, line_at};

/// A line, and a byte in it, both counted from 0; a byte order mark at the beginning is not counted.
#[derive(Clone, Copy, PartialEq, Eq, Debug)]
pub struct Place {
    pub line: usize,
    pub column: usize,
}

/// The place of a word.
pub fn place_of(text: &[u8], at: WordAt) -> Option<Place>
    ensures { result ≡ place_of text.now at }
{
    let line = line_at(text, at.line)?;
    let column = column_of(line, at.word)?;
    Some(Place {
        line: at.line,
        column,
    })
}
