// Numbers written in decimal digits.
ghost use Rattle.std.specs.Prelude.{◌≡◌, ◌+◌, ◌*◌};
ghost use Rattle.std.specs.Option.{option_map};
ghost use Rattle.text_words.specs.Numeral.{digit, numeral, capped};

// What a digit is worth; None for another byte. A pattern by the name that numerals are defined by.
fn digit(b: u8) -> Option<u8>
    ensures { result ≡ digit b }
{
    match b {
        b'0'..=b'9' => Some(b - b'0'),
        _ => None,
    }
}

// One digit more after a number, which stays at the largest where it is too large.
fn extended(n: u64, d: u8) -> u64
    ensures { result ≡ capped u64.MAX (n * 10 + d) }
{
    n.saturating_mul(10).saturating_add(u64::from(d))
}

/// The number that a word writes, the largest where it is too large; None where it is no number.
pub fn numeral_of(word: &[u8]) -> Option<u64>
    ensures { result ≡ option_map (capped u64.MAX) (numeral word.now) }
{
    if word.is_empty() {
        return None;
    }
    let mut n = 0;
    for b in word {
        n = extended(n, digit(*b)?);
    }
    Some(n)
}

/// A number in the range of a list's entries: `try_from`, the largest where it is too large.
pub fn entry(n: u64) -> u32
    ensures { result ≡ capped u32.MAX n }
{
    u32::try_from(n).unwrap_or(u32::MAX)
}
