// The squares of expected steps as cells, and what is true of a flow between them: each function stands for the statement that its contract
// names. The rest is specs and proofs.
#![tactic(auto)]

ghost use Rattle.squares_cells.specs.Theorems.{SquaresPaired, SquaresAway, SuppliesFew, FlowsAcross, SettledIsLeast, SettledTurns, UnsolvedIsSound};

/// Each way out of a square leads to another cell, and back.
pub fn squares_paired()
    ensures { SquaresPaired }
{}

/// How far squares are from outside.
pub fn squares_away()
    ensures { SquaresAway }
{}

/// How much all squares supply.
pub fn supplies_few()
    ensures { SuppliesFew }
{}

/// What flows out of a square flows across its steps.
pub fn flows_across()
    ensures { FlowsAcross }
{}

/// The heights of a settled flow cost least, whatever steps are expected.
pub fn settled_is_least()
    ensures { SettledIsLeast }
{}

/// So do turns over the steps of a field.
pub fn settled_turns()
    ensures { SettledTurns }
{}

/// Before anything flows no reduced cost is below 0.
pub fn unsolved_is_sound()
    ensures { UnsolvedIsSound }
{}
