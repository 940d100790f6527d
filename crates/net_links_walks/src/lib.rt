// Walks along links of which one difference is expected, and numbers that cost nothing. All of it is specs and proofs.
#![tactic(auto)]

ghost use Rattle.net_links_walks.specs.Theorems.{ZeroCostRisesAsExpected, ZeroCostIffClosedWalksVanish, ZeroCostUniqueByPart};

/// Numbers that cost nothing rise along each walk by what is expected.
pub fn zero_cost_rises_as_expected()
    ensures { ZeroCostRisesAsExpected }
{}

/// Some numbers cost nothing if and only if what is expected adds up to 0 along every closed walk.
pub fn zero_cost_iff_closed_walks_vanish()
    ensures { ZeroCostIffClosedWalksVanish }
{}

/// Over each connected part, numbers that cost nothing differ by one number.
pub fn zero_cost_unique_by_part()
    ensures { ZeroCostUniqueByPart }
{}
