// Lines and words: the pieces of a text between marks.
ghost use Rattle.std.specs.Prelude.{◌≡◌, ℕ, ◌+◌, ◌<◌, ◌≤◌, IsTrue, IsFalse, List, ◌∷◌, length, take, drop};
ghost use Rattle.std.specs.Iterator.{YieldsFirstBy, item_count};
ghost use Rattle.text_words.specs.Pieces.{parts, pieces, lines, words, unmarked, First};

/// What parts the pieces: ends of lines, or blanks. An enum and no closure: the definition of pieces takes one too, where a closure would
/// need a test beside it in each contract, and a proof at each call that it is the one.
#[derive(Clone, Copy, PartialEq, Eq, Debug)]
pub enum Mark {
    Newline,
    Blank,
}

impl Mark {
    /// Whether what is left of a text begins with a byte that parts two pieces. A line ends with a newline, or with a carriage return alone; one
    /// before a newline is a blank at the end of its line.
    pub fn parts(self, left: &[u8]) -> bool
        ensures { result ≡ parts self left.now }
    {
        match (self, left) {
            (Mark::Newline, [b'\n', ..]) => true,
            (Mark::Newline, [b'\r', after @ ..]) => !matches!(after, [b'\n', ..]),
            (Mark::Blank, [b' ' | b'\t' | b'\r', ..]) => true,
            _ => false,
        }
    }

    // Whether a byte is low enough to part two pieces: most aren't, and need no look at what comes after them.
    fn may_part(self, b: u8) -> bool
        ensures { IsFalse result → (after : List ℕ) → IsFalse (parts self (b ∷ after)) }
    {
        match self {
            Mark::Newline => b <= b'\r',
            Mark::Blank => b <= b' ',
        }
    }
}

// How many bytes come before the first that parts two pieces. By number, since a carriage return looks at the byte after it.
fn piece_len(mark: Mark, text: &[u8]) -> usize
    ensures within { result ≤ length text.now }
    ensures before { (k : ℕ) → k < result → IsFalse (parts mark (drop k text.now)) }
    ensures found { result < length text.now → IsTrue (parts mark (drop result text.now)) }
{
    for k in 0..text.len() {
        if mark.may_part(text[k]) && mark.parts(&text[k..]) {
            return k;
        }
    }
    text.len()
}

/// The first n elements, or all where there are fewer, and the rest.
pub fn parted<T>(list: &[T], n: usize) -> (&[T], &[T])
    ensures front { result.0.now ≡ take n list.now }
    ensures back { result.1.now ≡ drop n list.now }
{
    list.split_at(n.min(list.len()))
}

/// A text without the byte order mark that editors may put before it.
pub fn unmarked(text: &[u8]) -> &[u8]
    ensures { result.now ≡ unmarked text.now }
{
    match parted(text, 3) {
        (b"\xef\xbb\xbf", after) => after,
        _ => text,
    }
}

// What comes before a byte, and what comes after it.
fn around(text: &[u8], at: usize) -> (&[u8], &[u8])
    requires { at ≤ length text.now }
    ensures before { result.0.now ≡ take at text.now }
    ensures after { result.1.now ≡ drop (at + 1) text.now }
{
    if at >= text.len() {
        return (&text[0..at], &text[at..]);
    }
    (&text[0..at], &text[at + 1..])
}

// The first piece, and what comes after it.
fn first_piece(mark: Mark, text: &[u8]) -> (&[u8], &[u8])
    requires { 0 < length text.now }
    ensures first { pieces mark text.now ≡ result.0.now ∷ pieces mark result.1.now }
    ensures shorter { length result.1.now < length text.now }
{
    around(text, piece_len(mark, text))
}

/// The first line, and the text after it; None where there is none.
pub fn next_line(text: &[u8]) -> Option<(&[u8], &[u8])>
    ensures { First lines text.now result }
{
    if text.is_empty() {
        return None;
    }
    Some(first_piece(Mark::Newline, text))
}

/// The first word of a line, and what comes after it; None where there is none.
pub fn next_word(line: &[u8]) -> Option<(&[u8], &[u8])>
    ensures { First words line.now result }
{
    let mut rest = line;
    // Until there is a word: nothing is counted.
    while !rest.is_empty() {
        let (word, after) = first_piece(Mark::Blank, rest);
        if !word.is_empty() {
            return Some((word, after));
        }
        rest = after;
    }
    None
}

/// The lines of a text, from the first.
#[derive(Drop)]
pub struct Lines<'a>(pub &'a [u8]);

impl<'a> Iterator for Lines<'a> {
    type Item = &'a [u8];

    ghost next_gives = { YieldsFirstBy (λ line. line.now) (λ left. lines left.0.now) };

    ghost remaining = { item_count (λ left. lines left.0.now) };

    fn next(&mut self) -> Option<&'a [u8]> {
        let (line, rest) = next_line(self.0)?;
        self.0 = rest;
        Some(line)
    }
}

/// The words of a line, from the first.
#[derive(Drop)]
pub struct Words<'a>(pub &'a [u8]);

impl<'a> Iterator for Words<'a> {
    type Item = &'a [u8];

    ghost next_gives = { YieldsFirstBy (λ word. word.now) (λ left. words left.0.now) };

    ghost remaining = { item_count (λ left. words left.0.now) };

    fn next(&mut self) -> Option<&'a [u8]> {
        let (word, rest) = next_word(self.0)?;
        self.0 = rest;
        Some(word)
    }
}
