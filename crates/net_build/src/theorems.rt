// Theorems on built networks: each function stands for the statement that its contract names.
ghost use Rattle.net_build.specs.Edges.{ArcsAreEdges};
ghost use Rattle.net_build.specs.Grouped.{GroupedIsNetwork};

/// The arcs of edges that are all placed are a network, and these edges.
pub fn grouped_is_network()
    ensures { GroupedIsNetwork }
{}

/// What leaves a node of a built network is what its edges take out of it.
pub fn arcs_are_edges()
    ensures { ArcsAreEdges }
{}
