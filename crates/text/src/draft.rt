// What has been read of a document.
ghost use Rattle.std.specs.Prelude.{◌≡◌};
ghost use Rattle.text.specs.Draft.{blank, notes, with_turn, with_price_of, with_row_of, step, Drafted};
ghost use Rattle.text.specs.Section.{leaving};
ghost use Rattle.text_lines.specs.Flaw.{mapped};
ghost use Rattle.text_words.specs.Pieces.{words};

use crate::section::Section;
use std::alloc::Global;
use text_lines::flaw::{Fault, Flaw};
use text_lines::kind::{Kind, kind_of};
use text_words::numeral::entry;

/// The lines so far: the turn where there was one, whether the squares are asked for, the sections that have ended, and the one that rows go to.
#[derive(Drop)]
pub struct Draft {
    pub(crate) turn: Option<u64>,
    pub(crate) squares: bool,
    pub(crate) before: Vec<Section>,
    pub(crate) rows: Section,
}

impl Draft {
    /// Before the first line.
    pub fn new(heap: Global) -> Draft
        ensures { notes result ≡ blank }
    {
        Draft {
            turn: None,
            squares: false,
            before: Vec::new(heap),
            rows: Section::picture(heap),
        }
    }

    // A turn, unless there is one.
    fn take_turn(&mut self, n: u64) -> Result<(), Flaw>
        ensures { mapped notes (leaving self.new result) ≡ with_turn (notes self.old) n }
    {
        if self.turn.is_some() {
            return Err(Flaw::SecondTurn);
        }
        self.turn = Some(n);
        Ok(())
    }

    // One price for all steps.
    fn take_price(&mut self, n: u64) -> Result<(), Flaw>
        ensures { mapped notes (leaving self.new result) ≡ with_price_of (notes self.old) n }
    {
        self.rows.take_price(entry(n))
    }

    // One more row.
    fn take_row(&mut self, line: &[u8]) -> Result<(), Fault>
        ensures { Drafted (with_row_of (notes self.old) (words line.now))
            (leaving self.new result) }
    {
        self.rows.take_row(line)
    }

    /// With one more line.
    pub fn with_line(mut self, line: &[u8]) -> Result<Draft, Fault>
        ensures { Drafted (step (notes self) line.now) result }
    {
        self.take_line(line)?;
        Ok(self)
    }

    /// One more line, written in place: a line costs no copy of what has been read.
    pub fn take_line(&mut self, line: &[u8]) -> Result<(), Fault>
        ensures { Drafted (step (notes self.old) line.now) (leaving self.new result) }
    {
        match kind_of(line)? {
            Kind::Nothing => {}
            Kind::Turn(n) => self.take_turn(n)?,
            Kind::Price(n) => self.take_price(n)?,
            Kind::Squares => self.squares = true,
            Kind::Row => self.take_row(line)?,
        }
        Ok(())
    }
}
