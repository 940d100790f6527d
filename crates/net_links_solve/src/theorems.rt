// What the solver makes of links: the function stands for the statement that its contract names.
ghost use Rattle.net_links_solve.specs.Settled.{SolvedIsLeast};

/// The solver always settles the network of links, and its potentials cost least.
pub fn solved_is_least()
    ensures { SolvedIsLeast }
{}
