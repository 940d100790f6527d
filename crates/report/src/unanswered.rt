// Why a text has no answer.
ghost use Rattle.std.specs.Prelude.{◌≡◌};
ghost use Rattle.report.specs.Unanswered.{unanswered_by, refusal_by, flaw_by};
ghost use Rattle.report.specs.declared.unanswered.Unanswered.TheVariants.{Refused, Memory};

use phase_input::refusal::Refusal;
use std::alloc::AllocError;
use text::document::Unread;
use text_lines::flaw::Flaw;

/// A line that can't be read, counted from 0, and why; what the text says is refused; or there is no memory.
#[derive(Clone, Copy, PartialEq, Eq, Debug)]
pub enum Unanswered {
    Unreadable(u64, Flaw),
    Refused(Refusal),
    Memory,
}

impl From<AllocError> for Unanswered {
    ghost from_gives = { λ _ why. why ≡ Memory };

    fn from(_e: AllocError) -> Unanswered {
        Unanswered::Memory
    }
}

impl From<Refusal> for Unanswered {
    ghost from_gives = { λ refusal why. why ≡ Refused refusal };

    fn from(refusal: Refusal) -> Unanswered {
        Unanswered::Refused(refusal)
    }
}

impl From<Unread> for Unanswered {
    ghost from_gives = { λ unread why. why ≡ unanswered_by unread };

    fn from(unread: Unread) -> Unanswered {
        match unread {
            Unread::Flawed(line, why) => Unanswered::Unreadable(line, why),
            Unread::Memory => Unanswered::Memory,
        }
    }
}

impl Unanswered {
    /// The refusal that it is; None where there is no memory.
    pub fn refusal(self) -> Option<Refusal>
        ensures { result ≡ refusal_by self }
    {
        match self {
            Unanswered::Unreadable(line, _) => Some(Refusal::Text(line)),
            Unanswered::Refused(refusal) => Some(refusal),
            Unanswered::Memory => None,
        }
    }

    /// Why in a few words, of a line that can't be read.
    pub fn flaw(self) -> Option<Flaw>
        ensures { result ≡ flaw_by self }
    {
        match self {
            Unanswered::Unreadable(_, why) => Some(why),
            Unanswered::Refused(_) | Unanswered::Memory => None,
        }
    }
}
