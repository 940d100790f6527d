// What is true of expected steps: each function stands for the statement that its contract names.
ghost use Rattle.phase_field.specs.Theorems.{NearLies, ExpectedLies, WholeTurns, OneTurn, HalfUpward, NearUnique, NearTurns};

/// What is expected of a difference of less than a turn lies within half a turn.
pub fn near_lies()
    ensures { NearLies }
{}

/// So do the expected steps of a field.
pub fn expected_lies()
    ensures { ExpectedLies }
{}

/// Steps differ from what is expected by whole turns, to the right and down.
pub fn whole_turns()
    ensures { WholeTurns }
{}

/// Round a square it is nothing, a turn more or a turn less.
pub fn one_turn()
    ensures { OneTurn }
{}

/// Half a turn counts upward, whichever way it was seen.
pub fn half_upward()
    ensures { HalfUpward }
{}

/// Only one number within half a turn differs from what is expected by whole turns.
pub fn near_unique()
    ensures { NearUnique }
{}

/// What is expected of a difference is the difference and as many turns as it is wrapped by.
pub fn near_turns()
    ensures { NearTurns }
{}
