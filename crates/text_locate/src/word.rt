// Lines and words by number, counted from 0.
ghost use Rattle.std.specs.Prelude.{◌≡◌, length};
ghost use Rattle.std.specs.List.{slice_get};
ghost use Rattle.std.specs.Option.{option_copied};
ghost use Rattle.text_words.specs.Pieces.{words, lines, unmarked};
ghost use Rattle.text_locate.specs.Word.{cells_of, is_wrong, wrong_from, cell_from, flawed, is_said, said_from, word_at};

use text_lines::flaw::Flaw;
use text_lines::kind::{Kind, kind_of};
use text_words::numeral::numeral_of;
use text_words::pieces::{Words, next_line, next_word, unmarked};

/// A word of a text: its line, and which of the line's words it is.
#[derive(Clone, Copy, PartialEq, Eq, Debug)]
pub struct WordAt {
    pub line: usize,
    pub word: usize,
}

fn word_count(line: &[u8]) -> usize
    ensures { result ≡ length (words line.now) }
{
    Words(line).count()
}

// How many numbers a line has that is a row.
fn cells_of(line: &[u8]) -> usize
    ensures { result ≡ cells_of (words line.now) }
{
    match kind_of(line) {
        Ok(Kind::Row) => word_count(line),
        _ => 0,
    }
}

/// The n-th number of all rows.
pub fn cell(text: &[u8], n: usize) -> Option<WordAt>
    ensures { result ≡ cell_from 0 (lines (unmarked text.now)) n }
{
    let mut left = unmarked(text);
    let mut line = 0;
    let mut word = n;
    while let Some((first, after)) = next_line(left) {
        let cells = cells_of(first);
        if word < cells {
            return Some(WordAt { line, word });
        }
        word -= cells;
        left = after;
        line += 1;
    }
    None
}

/// A line.
pub fn line_at(text: &[u8], n: usize) -> Option<&[u8]>
    ensures { option_copied result ≡ slice_get (lines (unmarked text.now)) n }
{
    let mut left = unmarked(text);
    let mut line = n;
    while let Some((first, after)) = next_line(left) {
        if line == 0 {
            return Some(first);
        }
        left = after;
        line -= 1;
    }
    None
}

// Whether a word stands where a number is wanted, and is none: `turn` and `price` are wanted at the beginning.
fn is_wrong(word: &[u8], k: usize) -> bool
    ensures { result ≡ is_wrong word.now k }
{
    match word {
        b"turn" | b"price" => k != 0,
        _ => numeral_of(word).is_none(),
    }
}

/// Which word of a line is the first that is no number and should be one; 0 where there is none.
pub fn wrong_word(line: &[u8]) -> usize
    ensures { result ≡ wrong_from 0 (words line.now) }
{
    let mut left = line;
    let mut k = 0;
    while let Some((word, after)) = next_word(left) {
        if is_wrong(word, k) {
            return k;
        }
        left = after;
        k += 1;
    }
    0
}

/// The word of a line that can't be read, because of which it can't.
pub fn flawed(text: &[u8], line: usize, why: Flaw) -> WordAt
    ensures { result ≡ flawed text.now line why }
{
    let wrong = match line_at(text, line) {
        Some(found) => wrong_word(found),
        None => 0,
    };
    let word = match why {
        Flaw::Word | Flaw::Sign | Flaw::Fraction => wrong,
        _ => 0,
    };
    WordAt { line, word }
}

/// What a number is said for.
#[derive(Clone, Copy, PartialEq, Eq, Debug)]
pub enum Keyword {
    Turn,
    Price,
}

impl Keyword {
    // Whether a line says it.
    fn is_said(self, line: &[u8]) -> bool
        ensures { result ≡ is_said self (words line.now) }
    {
        match self {
            Keyword::Turn => matches!(kind_of(line), Ok(Kind::Turn(_))),
            Keyword::Price => matches!(kind_of(line), Ok(Kind::Price(_))),
        }
    }
}

/// The number that is said for it.
pub fn said(text: &[u8], keyword: Keyword) -> Option<WordAt>
    ensures { result ≡ said_from keyword 0 (lines (unmarked text.now)) }
{
    let mut left = unmarked(text);
    let mut line = 0;
    while let Some((first, after)) = next_line(left) {
        if keyword.is_said(first) {
            return Some(WordAt { line, word: 1 });
        }
        left = after;
        line += 1;
    }
    None
}

// A word of a line.
fn nth_word(line: &[u8], n: usize) -> Option<&[u8]>
    ensures { option_copied result ≡ slice_get (words line.now) n }
{
    let mut left = line;
    let mut k = n;
    while let Some((word, after)) = next_word(left) {
        if k == 0 {
            return Some(word);
        }
        left = after;
        k -= 1;
    }
    None
}

/// A word.
pub fn word_at(text: &[u8], at: WordAt) -> Option<&[u8]>
    ensures { option_copied result ≡ word_at text.now at }
{
    let line = line_at(text, at.line)?;
    nth_word(line, at.word)
}
