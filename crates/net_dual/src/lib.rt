// The dual of a cheapest flow: what potentials cost, which no flow that meets the supplies exceeds. All of it is specs and proofs.
#![tactic(auto)]

ghost use Rattle.net_dual.specs.Dual.{FlowsBoundPotentials};

/// No potentials cost less than a flow's cost shows, and potentials that prove the flow cheapest cost just that (weak and strong
/// duality).
pub fn flows_bound_potentials()
    ensures { FlowsBoundPotentials }
{}
