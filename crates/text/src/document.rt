// Documents: what a text says.
ghost use Rattle.std.specs.Prelude.{◌≡◌, IfOk};
ghost use Rattle.text.specs.Draft.{notes};
ghost use Rattle.text.specs.Document.{contents, finished, reading, Reads, stopped_at};
ghost use Rattle.text.specs.declared.document.Unread.TheVariants as unread;

use crate::draft::Draft;
use crate::section::Section;
use std::alloc::{AllocError, Global};
use text_lines::flaw::{Fault, Flaw};
use text_words::pieces::{Lines, unmarked};

/// What a text says: the turn, 0 where it says none; whether the squares are asked for; and its sections, of which the first is the picture that
/// every text begins with.
#[derive(Drop)]
pub struct Document {
    pub turn: u64,
    pub squares: bool,
    pub sections: Vec<Section>,
}

/// Why there is no document: a line, counted from 0, can't be read, or there is no memory for it.
#[derive(Clone, Copy, PartialEq, Eq, Debug)]
pub enum Unread {
    Flawed(u64, Flaw),
    Memory,
}

impl From<AllocError> for Unread {
    ghost from_gives = { λ _ r. r ≡ unread.Memory };

    fn from(_e: AllocError) -> Unread {
        Unread::Memory
    }
}

// A line that isn't taken.
fn stopped_at(fault: Fault, line: u64) -> Unread
    ensures { result ≡ stopped_at fault line }
{
    match fault {
        Fault::Flawed(why) => Unread::Flawed(line, why),
        Fault::Memory => Unread::Memory,
    }
}

impl Draft {
    /// The document that the lines make.
    pub fn finished(self) -> Result<Document, AllocError>
        ensures { IfOk result (λ d. contents d ≡ finished (notes self)) }
    {
        let Draft {
            turn,
            squares,
            before,
            rows,
        } = self;
        let mut sections = before;
        sections.push(rows)?;
        Ok(Document {
            turn: turn.unwrap_or(0),
            squares,
            sections,
        })
    }
}

/// What a text says, or the first line that can't be read, and why.
pub fn read(heap: Global, text: &[u8]) -> Result<Document, Unread>
    ensures { Reads (reading text.now) result }
{
    let mut draft = Draft::new(heap);
    for (number, line) in Lines(unmarked(text)).enumerate() {
        // As a u64, for which there is no From.
        let at_line = |fault: Fault| -> Unread
            ensures { result ≡ stopped_at fault number }
        { stopped_at(fault, number as u64) };
        draft.take_line(line).map_err(at_line)?;
    }
    Ok(draft.finished()?)
}
