// The network of links: a cheapest circulation in it leaves potentials that are numbers which cost least. All of it is specs and proofs.
#![tactic(auto)]

ghost use Rattle.net_links_flow.specs.Theorems.{LinksFit, OptimalIsLeast};

/// Links that are fit make edges that are.
pub fn links_fit()
    ensures { LinksFit }
{}

/// The potentials that make a circulation in the network of links cheapest cost least as numbers of the nodes, and the circulation is the
/// certificate (complementary slackness).
pub fn optimal_is_least()
    ensures { OptimalIsLeast }
{}
