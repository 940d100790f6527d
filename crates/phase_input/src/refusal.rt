// Why what is lent is refused, and where it went wrong.
ghost use Rattle.std.specs.Prelude.{◌≡◌, Some};
ghost use Rattle.phase_input.specs.Input.{number};
ghost use Rattle.phase_input.specs.Refusal.{place, reason_text, refusal_text};

use std::fmt;

/// What a field's size is told by.
#[derive(Clone, Copy, PartialEq, Eq, Debug)]
pub enum Dimension {
    Wide,
    High,
    Turn,
}

/// Why it is refused. Places count from 0, row by row from the upper left.
#[derive(Clone, Copy, PartialEq, Eq, Debug)]
pub enum Refusal {
    /// A field that isn't 1 to 64 wide and high, or a turn that isn't 2 to 65,536.
    Size(Dimension),
    /// Not a number for each place, or one that is a turn or more: its place.
    Seen(u64),
    /// Not a price for each place and way, or one above 1,000: its place, those down after those to the right.
    Price(u64),
    /// A room that isn't a number for each place: its length.
    Room(u64),
    /// A text that can't be read: its line.
    Text(u64),
}

impl Refusal {
    /// The number by which it is printed, and answered to callers in C.
    pub fn number(self) -> u64
        ensures { result ≡ number self }
    {
        match self {
            Refusal::Size(_) => 1,
            Refusal::Seen(_) => 2,
            Refusal::Price(_) => 3,
            Refusal::Room(_) => 4,
            Refusal::Text(_) => 5,
        }
    }

    /// Where it went wrong: a place, which of the three dimensions, the length of a room, or a line.
    pub fn place(self) -> u64
        ensures { result ≡ place self }
    {
        match self {
            Refusal::Size(Dimension::Wide) => 0,
            Refusal::Size(Dimension::High) => 1,
            Refusal::Size(Dimension::Turn) => 2,
            Refusal::Seen(p) | Refusal::Price(p) => p,
            Refusal::Room(n) => n,
            Refusal::Text(line) => line,
        }
    }

    /// Why, in a few words.
    pub fn reason(self) -> &'static str
        ensures { result.now ≡ reason_text self }
    {
        match self {
            Refusal::Size(Dimension::Wide) => "a field that isn't 1 to 64 wide",
            Refusal::Size(Dimension::High) => "a field that isn't 1 to 64 high",
            Refusal::Size(Dimension::Turn) => "a turn that isn't 2 to 65,536",
            Refusal::Seen(_) => "a number that is a turn or more",
            Refusal::Price(_) => "a price that is above 1,000 or lacks",
            Refusal::Room(_) => "a room that isn't a number for each place",
            Refusal::Text(_) => "a line that can't be read",
        }
    }
}

// The number, the place and the reason, as `refused 2 at 5: a number that is a turn or more`.
impl fmt::Display for Refusal {
    ghost output = { λ r. Some (refusal_text r) };

    fn fmt<W: fmt::Write>(&self, f: &mut fmt::Formatter<W>) -> fmt::Result {
        let number = self.number();
        let place = self.place();
        let reason = self.reason();
        write!(f, "refused {number} at {place}: {reason}")
    }
}
