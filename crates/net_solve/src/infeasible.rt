// When no flow meets the supplies.

/// No flow meets the supplies: the nodes at the first `nodes` places of the search are a cut, and have more than can leave them.
#[derive(Clone, Copy, PartialEq, Eq, Debug)]
pub struct Infeasible {
    pub nodes: usize,
}

ghost use Rattle.net_solve.specs.Promise.{AlwaysFeasible};

/// Where arcs whose limits take all supplies join every two nodes, the solver always finds a flow.
pub fn always_feasible()
    ensures { AlwaysFeasible }
{}
