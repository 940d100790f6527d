// Optimality by reduced costs, and infeasibility by cuts: theorems on all flows of a network, without code.
#![tactic(auto)]

ghost use Rattle.net_theory.specs.Theorems.{ReducedCostOptimalIsCheapest, CutIsInfeasible, JoinedHasNoCut};

/// A flow whose open arcs have reduced costs of at least 0 costs no more than any flow that meets
/// the same supplies.
pub fn reduced_cost_optimal_is_cheapest()
    ensures { ReducedCostOptimalIsCheapest }
{}

/// No flow meets the supplies where a set of nodes has more than can leave it.
pub fn cut_is_infeasible()
    ensures { CutIsInfeasible }
{}

/// No set of nodes has more than can leave it where arcs that take all supplies join every two nodes.
pub fn joined_has_no_cut()
    ensures { JoinedHasNoCut }
{}
