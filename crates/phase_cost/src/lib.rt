// What turns cost, and what is true of it: each function stands for the statement that its contract names. The rest is specs and proofs.
#![tactic(auto)]

ghost use Rattle.phase_cost.specs.Theorems.{HasLeast, StepsHaveLeast, CostsNothing, FoundAgain, AllTheSame, Dearer, CertifiedHeights, CertifiedTurns, TwoRows, HalfUp, HalfOver, ResidueTurns};

/// Every field has turns that cost least.
pub fn has_least()
    ensures { HasLeast }
{}

/// So have expected steps that come from anywhere.
pub fn steps_have_least()
    ensures { StepsHaveLeast }
{}

/// If all comes back round every square there are turns that cost nothing; and with every price at least 1, only then.
pub fn costs_nothing()
    ensures { CostsNothing }
{}

/// Heights whose every step is within half a turn are found again by any turns that cost least, but for whole turns over all.
pub fn found_again()
    ensures { FoundAgain }
{}

/// All turned by as much costs the same.
pub fn all_the_same()
    ensures { AllTheSame }
{}

/// Larger prices never make the least smaller.
pub fn dearer()
    ensures { Dearer }
{}

/// Potentials of the squares show that no heights cost less than their value, and that heights that reach it cost least.
pub fn certified_heights()
    ensures { CertifiedHeights }
{}

/// Turns of a field that reach the value cost least.
pub fn certified_turns()
    ensures { CertifiedTurns }
{}

/// The round of expected steps is as many turns as the residue says.
pub fn residue_turns()
    ensures { ResidueTurns }
{}

/// Worked example: 1 4 7 0 / 2 5 8 1 at turn 10.
pub fn two_rows()
    ensures { TwoRows }
{}

/// Worked example: 0 5 at turn 10.
pub fn half_up()
    ensures { HalfUp }
{}

/// Worked example: 5 0 at turn 10.
pub fn half_over()
    ensures { HalfOver }
{}
