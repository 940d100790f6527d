// Units pushed along one arc of reduced cost 0.
ghost use Rattle.std.specs.Prelude.{◌≡◌, ◌<◌, ◌⊎◌, ◌≤ℤ◌, length};
ghost use Rattle.net_graph.specs.Network.{graph};
ghost use Rattle.net_graph.specs.Sound.{state, Sound};
ghost use Rattle.net_waves.specs.Promise.{Kept};

use crate::slices::Tight;
use net_graph::Flow;

// The lesser of two, by what a push needs of it.
fn lesser(a: i64, b: i64) -> i64
    ensures first { result ≤ℤ a }
    ensures second { result ≤ℤ b }
    ensures either { (result ≡ a) ⊎ (result ≡ b) }
{
    a.min(b)
}

// Pushes along arc `a` what its tail has in excess, as far as the arc's residual capacity allows. Nothing where the tail has no excess,
// or where the arc is full or its reduced cost is not 0. How much.
pub(crate) fn push_tight(flow: &mut Flow, a: usize) -> i64
    requires sound { Sound (graph flow.old.net) (state flow.old) }
    requires arc { a < (graph flow.old.net).arcs }
    ensures { Kept flow.old flow.new }
{
    let tail = flow.net.arcs[a].tail;
    let excess = flow.nodes[tail].excess;
    if excess <= 0 || !flow.open(a) || flow.reduced_cost(a) != 0 {
        return 0;
    }
    let amount = lesser(excess, flow.residual_capacity(a));
    flow.push(a, amount);
    amount
}

// Takes what was pushed along arc `a` from what is left to push, and adds it to that of its pair.
pub(crate) fn take_from_rest(tight: &mut [Tight], a: usize, amount: i64)
    requires { a < length tight.old }
{
    tight[a].rest = tight[a].rest.saturating_sub(amount);
    let pair = tight[a].pair as usize;
    if pair < tight.len() {
        tight[pair].rest = tight[pair].rest.saturating_add(amount);
    }
}
