// The picture that a text begins with.
ghost use Rattle.std.specs.Prelude.{◌≡◌, IfOk};
ghost use Rattle.text.specs.Document.{contents};
ghost use Rattle.text.specs.Picture.{rows_in, shown, at_price, in_thirds, picture_of, first_picture};
ghost use Rattle.text.specs.Section.{block};

use crate::document::Document;
use crate::section::{Content, Section};
use std::alloc::{AllocError, Global};
use text_words::pieces::parted;

/// A picture with its prices: lists row by row from the upper left, those of the prices with a number for each place too.
#[derive(Drop)]
pub struct Picture {
    pub wide: u64,
    pub high: u64,
    pub seen: Vec<u32>,
    pub right: Vec<u32>,
    pub below: Vec<u32>,
}

// How many rows so many numbers are. Sizes are counted as usize and told as u64: by `as`, for want of a From.
fn rows_in(numbers: usize, wide: usize) -> usize
    ensures { result ≡ rows_in numbers wide }
{
    numbers.checked_div(wide).unwrap_or(0)
}

impl Section {
    // One price for all steps.
    fn at_price(&self, heap: Global, price: u32) -> Result<Picture, AllocError>
        ensures { IfOk result (λ p. shown p ≡ at_price (block self.now) price) }
    {
        let places = self.numbers.len();
        Ok(Picture {
            wide: self.wide as u64,
            high: rows_in(places, self.wide) as u64,
            seen: Vec::from_slice(heap, self.numbers.as_slice())?,
            right: vec![in heap; price; places]?,
            below: vec![in heap; price; places]?,
        })
    }

    // A third of the rows each: what was seen, the prices to the right, and those down.
    fn in_thirds(&self, heap: Global) -> Result<Picture, AllocError>
        ensures { IfOk result (λ p. shown p ≡ in_thirds (block self.now)) }
    {
        let high = rows_in(self.numbers.len(), self.wide).div_ceil(3);
        let places = high * self.wide;
        let (seen, prices) = parted(self.numbers.as_slice(), places);
        let (right, below) = parted(prices, places);
        Ok(Picture {
            wide: self.wide as u64,
            high: high as u64,
            seen: Vec::from_slice(heap, seen)?,
            right: Vec::from_slice(heap, right)?,
            below: Vec::from_slice(heap, below)?,
        })
    }

    // The rows as a picture.
    fn as_picture(&self, heap: Global) -> Result<Picture, AllocError>
        ensures { IfOk result (λ p. shown p ≡ picture_of (block self.now)) }
    {
        match self.content {
            Content::Picture(Some(price)) => self.at_price(heap, price),
            Content::Picture(None) => self.in_thirds(heap),
        }
    }
}

impl Document {
    /// The picture that the text begins with: a text without rows has an empty one.
    pub fn picture(&self, heap: Global) -> Result<Picture, AllocError>
        ensures { IfOk result (λ p. shown p ≡ first_picture (contents self.now)) }
    {
        match self.sections.as_slice() {
            [first, ..] => first.as_picture(heap),
            [] => Section::picture(heap).as_picture(heap),
        }
    }
}
