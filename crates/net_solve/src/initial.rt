// The initial flow.
ghost use Rattle.std.specs.Prelude.{◌≡◌, ℕ, ◌^◌, ◌<◌, ◌≤◌, length, pos, ◌-ℤ◌, unsigned_abs};
ghost use Rattle.sums.specs.Sum.{sum_to};
ghost use borrow.Author.Differences.{up};
ghost use Rattle.net_graph.specs.Network.{graph};
ghost use Rattle.net_graph.specs.Node.{excess_of, potential_of};
ghost use Rattle.net_graph.specs.Sound.{state};
ghost use Rattle.net_solve.specs.Promise.{SameFlow};
ghost use Rattle.net_solve.specs.Promise.{initial_flow, Balanced};
ghost use Rattle.net_solve.specs.Inner.{initial_outflow, IsInitial};

use net_graph::{Flow, Network, Node};

// What arc `a` has at first: its limit if its cost is negative, the opposite of what its pair has, or nothing.
fn initial_arc_flow(net: &Network, a: usize) -> i64
    requires { a < (graph net.now).arcs }
    ensures { result ≡ initial_flow (graph net.now) a }
{
    let arc = net.arcs[a];
    let reverse = net.arcs[arc.pair];
    if arc.cost < 0 {
        arc.limit
    } else if reverse.cost < 0 {
        -reverse.limit
    } else {
        0
    }
}

// Fills the arcs of negative cost, and takes what goes along them from the supplies.
fn fill(flow: &mut Flow)
    requires { (v : ℕ) → v < (graph flow.old.net).nodes →
        unsigned_abs ((state flow.old).excess v) ≤ 2 ^ 59 }
    ensures same { SameFlow flow.old flow.new }
    ensures flow { (a : ℕ) → a < (graph flow.old.net).arcs →
        (state flow.new).flow a ≡ initial_flow (graph flow.old.net) a }
    ensures excess { (v : ℕ) → v < (graph flow.old.net).nodes →
        (state flow.new).excess v ≡ ((state flow.old).excess v -ℤ initial_outflow
        (graph flow.old.net) v (graph flow.old.net).arcs) }
{
    let net = flow.net;
    for (a, arc) in net.arcs.iter().enumerate() {
        let x = initial_arc_flow(&net, a);
        flow.flow[a] = x;
        flow.nodes[arc.tail].excess -= x;
    }
}

// Makes each potential 0.
fn clear_potentials(nodes: &mut [Node])
    ensures potential { (v : ℕ) → v < length nodes.new → potential_of nodes.new v ≡ pos 0 }
    ensures excess { (v : ℕ) → excess_of nodes.new v ≡ excess_of nodes.old v }
{
    for node in nodes.iter_mut() {
        node.potential = 0;
    }
}

/// Puts the supplies, which are in excess, onto the initial flow, with no potentials.
pub fn start(flow: &mut Flow)
    requires { Balanced (graph flow.old.net).nodes (state flow.old).excess }
    ensures same { SameFlow flow.old flow.new }
    ensures initial { let given = sum_to (graph flow.old.net).nodes
        (λ v. up ((state flow.old).excess v)) in
        IsInitial (graph flow.old.net) (state flow.old).excess given (state flow.new) }
{
    fill(flow);
    clear_potentials(flow.nodes);
}
