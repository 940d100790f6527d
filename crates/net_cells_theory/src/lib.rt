// What searches for cheapest ways between cells keep, and why they end. Each function stands for the statement that its contract names.
#![tactic(auto)]

ghost use Rattle.net_cells_theory.specs.Promise.{LoweringKeeps};

/// Lowering potentials by what a search found keeps reduced costs at 0 or above.
pub fn lowering_keeps()
    ensures { LoweringKeeps }
{}
