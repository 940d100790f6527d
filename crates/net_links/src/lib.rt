// Links between nodes, and numbers of the nodes that cost least: the number at the end of a link is expected to lie `low` up to `high`
// above the one where it begins, and each by which it lies beyond costs the link's price. All of it is specs and proofs.
#![tactic(auto)]

ghost use Rattle.net_links.specs.Theorems.{CirculationBoundsCost, CertifiedIsLeast, DearLinkHolds, ShiftedCost, RisesTellCost};

/// No numbers cost less than a circulation within the prices shows (weak duality).
pub fn circulation_bounds_cost()
    ensures { CirculationBoundsCost }
{}

/// Numbers that cost what a circulation shows cost least: anyone can check it by the circulation.
pub fn certified_is_least()
    ensures { CertifiedIsLeast }
{}

/// A link that is dearer than all else at one of its ends holds wherever numbers cost least.
pub fn dear_link_holds()
    ensures { DearLinkHolds }
{}

/// Numbers that are known before may be taken from what is expected.
pub fn shifted_cost()
    ensures { ShiftedCost }
{}

/// Numbers cost the same if they rise alike along all links: one number more at all nodes changes nothing.
pub fn rises_tell_cost()
    ensures { RisesTellCost }
{}
