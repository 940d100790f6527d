// Where numbers cost more than others, moving one level set of the difference by one is better. All of it is specs and proofs.
#![tactic(auto)]

ghost use Rattle.net_links_levels.specs.Levels.{SomeLevelSetIsBetter};

/// Numbers that cost more than others are better with the nodes of some level set of the difference one higher: numbers cost least if no
/// set of nodes is better one higher, or one lower.
pub fn some_level_set_is_better()
    ensures { SomeLevelSetIsBetter }
{}
