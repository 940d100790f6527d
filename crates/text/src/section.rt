// Rows that stand together.
ghost use Rattle.std.specs.Prelude.{◌≡◌, [], ◌∷◌, ◌++◌, Ok, OnOk, IfErr};
ghost use Rattle.text_words.specs.Numeral.{capped, largest_entry};
ghost use Rattle.text_words.specs.Pieces.{words};
ghost use Rattle.text_lines.specs.Flaw.{Stops, mapped};
ghost use Rattle.text.specs.Section.{row_onto, block, empty_picture, with_row, with_price, leaving, HasRow};

use std::alloc::{AllocError, Global};
use text_lines::flaw::{Fault, Flaw, number_of};
use text_words::numeral::entry;
use text_words::pieces::Words;

/// What the rows of a section are.
#[derive(Clone, Copy, PartialEq, Eq, Debug)]
pub enum Content {
    /// What was seen, with one price for all steps; or where there is none, what was seen in the upper third, in the middle one the prices of
    /// the steps to the right, and in the lower one those of the steps down.
    Picture(Option<u32>),
}

/// Rows that stand together, all as wide as the first, and their numbers row by row. The width is 0 before the first: no row is 0 wide.
#[derive(Drop)]
pub struct Section {
    pub content: Content,
    pub wide: usize,
    pub numbers: Vec<u32>,
}

// Puts a number after those that are there.
fn push_number(numbers: &mut Vec<u32>, n: u64) -> Result<(), AllocError>
    ensures { OnOk result (numbers.new.items ≡ numbers.old.items ++ (capped largest_entry n ∷ [])) }
{
    numbers.push(entry(n))?;
    Ok(())
}

/// Puts the numbers of a line after those that are there.
pub fn push_row(numbers: &mut Vec<u32>, line: &[u8]) -> Result<(), Fault>
    ensures ok { OnOk result (row_onto numbers.old.items (words line.now) ≡ Ok numbers.new.items) }
    ensures flawed { IfErr result (Stops (row_onto numbers.old.items (words line.now))) }
{
    for word in Words(line) {
        push_number(numbers, number_of(word)?)?;
    }
    Ok(())
}

impl Section {
    // A picture before its first row.
    pub(crate) fn picture(heap: Global) -> Section
        ensures { block result ≡ empty_picture }
    {
        Section {
            content: Content::Picture(None),
            wide: 0,
            numbers: Vec::new(heap),
        }
    }

    // One more row, if it is one, as wide as the others.
    pub(crate) fn take_row(&mut self, line: &[u8]) -> Result<(), Fault>
        ensures { HasRow (with_row (block self.old) (words line.now)) (leaving self.new result) }
    {
        let before = self.numbers.len();
        push_row(&mut self.numbers, line)?;
        let wide = self.numbers.len().saturating_sub(before);
        if self.wide != 0 && self.wide != wide {
            return Err(Fault::Flawed(Flaw::Width));
        }
        self.wide = wide;
        Ok(())
    }

    // One price for all steps of a picture, unless it has one.
    pub(crate) fn take_price(&mut self, price: u32) -> Result<(), Flaw>
        ensures { mapped block (leaving self.new result) ≡ with_price (block self.old) price }
    {
        match self.content {
            Content::Picture(None) => {
                self.content = Content::Picture(Some(price));
                Ok(())
            }
            Content::Picture(Some(_)) => Err(Flaw::SecondPrice),
        }
    }
}
