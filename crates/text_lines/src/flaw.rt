// Why a line can't be read.
ghost use Rattle.std.specs.Prelude.{◌≡◌};
ghost use Rattle.std.specs.List.{list_all};
ghost use Rattle.text_lines.specs.Flaw.{numeric, is_signed, flaw_of, number_of, reason_text};
ghost use Rattle.text_lines.specs.declared.flaw.Fault.TheVariants.{Flawed, Memory};

use std::alloc::AllocError;
use text_words::numeral::numeral_of;

/// Why a line can't be read.
#[derive(Clone, Copy, PartialEq, Eq, Debug)]
pub enum Flaw {
    /// A word where a number is wanted.
    Word,
    /// A number with a sign.
    Sign,
    /// Digits with a comma or a point.
    Fraction,
    /// `turn` or `price` without just one number after it.
    NotOne,
    /// `squares` with more after it.
    NotAlone,
    /// A second `turn`.
    SecondTurn,
    /// A second `price`.
    SecondPrice,
    /// A row of another width than the one before.
    Width,
}

impl Flaw {
    /// Why, in a few words.
    pub fn reason(self) -> &'static str
        ensures { result.now ≡ reason_text self }
    {
        match self {
            Flaw::Word => "not a number",
            Flaw::Sign => "a number with a sign",
            Flaw::Fraction => "a comma or a point: numbers are whole, and stand between blanks",
            Flaw::NotOne => "not just one number after it",
            Flaw::NotAlone => "something after it",
            Flaw::SecondTurn => "a second turn",
            Flaw::SecondPrice => "a second price",
            Flaw::Width => "a row of another width than those before",
        }
    }
}

/// Why a line isn't taken: it can't be read, or there is no memory for it.
#[derive(Clone, Copy, PartialEq, Eq, Debug)]
pub enum Fault {
    Flawed(Flaw),
    Memory,
}

impl From<AllocError> for Fault {
    ghost from_gives = { λ _ f. f ≡ Memory };

    fn from(_e: AllocError) -> Fault {
        Fault::Memory
    }
}

impl From<Flaw> for Fault {
    ghost from_gives = { λ why f. f ≡ Flawed why };

    fn from(why: Flaw) -> Fault {
        Fault::Flawed(why)
    }
}

// A digit, a comma or a point.
fn is_numeric(b: u8) -> bool
    ensures { result ≡ numeric b }
{
    matches!(b, b',' | b'.' | b'0'..=b'9')
}

fn all_numeric(word: &[u8]) -> bool
    ensures { result ≡ list_all numeric word.now }
{
    word.iter().all(|b| is_numeric(*b))
}

fn is_signed(word: &[u8]) -> bool
    ensures { result ≡ is_signed word.now }
{
    match word {
        [b'+' | b'-', digits @ ..] => all_numeric(digits),
        _ => false,
    }
}

// Why a word that is no numeral isn't one.
fn flaw_of(word: &[u8]) -> Flaw
    ensures { result ≡ flaw_of word.now }
{
    if is_signed(word) {
        Flaw::Sign
    } else if all_numeric(word) {
        Flaw::Fraction
    } else {
        Flaw::Word
    }
}

/// The number that a word writes, the largest where it is too large.
pub fn number_of(word: &[u8]) -> Result<u64, Flaw>
    ensures { result ≡ number_of word.now }
{
    match numeral_of(word) {
        Some(n) => Ok(n),
        None => Err(flaw_of(word)),
    }
}
