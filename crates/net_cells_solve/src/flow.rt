// Flow over the edges between cells, and what a unit more costs there.
ghost use Rattle.std.specs.Prelude.{◌≡◌, ℕ, ◌+◌, ◌-◌, ◌^◌, ◌<◌, ◌≤◌, ◌≢◌, length, pos, ◌+ℤ◌, ◌≤ℤ◌, ◌<ℤ◌, neg_ℤ, unsigned_abs};
ghost use Rattle.net_cells.specs.Lists.{number, head, right_of, up_of, flow_of, flow_in, cost_of, cost_in};
ghost use Rattle.net_cells_theory.specs.Slots.{Added, SetCost, Pushed};

use net_cells::{Costs, Flows, Side, Way, signed_flow};

// What flows from cell `u` by one way.
#[inline(always)]
#[tactic(auto, unfolding(net_cells::specs::Lists::flow_of))]
fn plain_flow(flows: &[Flows], stride: usize, u: usize, way: Way) -> i64
    requires low { stride < u }
    requires high { u + stride < length flows.now }
    requires small { unsigned_abs (flow_of flows.now stride u (number way)) ≤ 2 ^ 62 }
    ensures { result ≡ flow_of flows.now stride u (number way) }
{
    match way {
        Way::Right => flows[u].right,
        Way::Left => -flows[u - 1].right,
        Way::Up => flows[u].up,
        Way::Down => -flows[u + stride].up,
    }
}

// The same, as it is seen.
#[inline(always)]
#[tactic(auto, unfolding(net_cells::specs::Lists::flow_in))]
pub(crate) fn flow_at(flows: &[Flows], side: Side, u: usize, way: Way) -> i64
    requires low { side.stride < u }
    requires high { u + side.stride < length flows.now }
    requires small { unsigned_abs (flow_of flows.now side.stride u (number way)) ≤ 2 ^ 62 }
    ensures { result ≡ flow_in flows.now side u (number way) }
{
    signed_flow(side.back, plain_flow(flows, side.stride, u, way))
}

#[inline(always)]
fn add_right(flows: &mut [Flows], u: usize, z: i64)
    requires cell { u < length flows.old }
    requires small { unsigned_abs (right_of flows.old u) + unsigned_abs z ≤ 2 ^ 62 }
    ensures here { right_of flows.new u ≡ right_of flows.old u +ℤ z }
    ensures kept { (w : ℕ) → (w ≢ u) → right_of flows.new w ≡ right_of flows.old w }
    ensures up { (w : ℕ) → up_of flows.new w ≡ up_of flows.old w }
{
    flows[u].right += z;
}

#[inline(always)]
fn add_up(flows: &mut [Flows], u: usize, z: i64)
    requires cell { u < length flows.old }
    requires small { unsigned_abs (up_of flows.old u) + unsigned_abs z ≤ 2 ^ 62 }
    ensures here { up_of flows.new u ≡ up_of flows.old u +ℤ z }
    ensures kept { (w : ℕ) → (w ≢ u) → up_of flows.new w ≡ up_of flows.old w }
    ensures right { (w : ℕ) → right_of flows.new w ≡ right_of flows.old w }
{
    flows[u].up += z;
}

// Sends `z` more from cell `u` by one way.
#[inline(always)]
#[tactic(auto, unfolding(net_cells::specs::Lists::flow_of))]
fn add(flows: &mut [Flows], stride: usize, u: usize, way: Way, z: i64)
    requires some { 1 ≤ stride }
    requires low { stride < u }
    requires high { u + stride < length flows.old }
    requires small { unsigned_abs (flow_of flows.old stride u (number way)) + unsigned_abs z ≤
        2 ^ 62 }
    ensures { Added flows.old flows.new stride u (number way) z }
{
    match way {
        Way::Right => add_right(flows, u, z),
        Way::Left => add_right(flows, u - 1, -z),
        Way::Up => add_up(flows, u, z),
        Way::Down => add_up(flows, u + stride, -z),
    }
}

// What a unit more costs by one way out of cell `u` from now on.
#[inline(always)]
fn set_cost(costs: &mut [Costs], u: usize, way: Way, cost: i16)
    requires { u < length costs.old }
    ensures { SetCost costs.old costs.new u (number way) cost }
{
    match way {
        Way::Right => costs[u].right = cost,
        Way::Left => costs[u].left = cost,
        Way::Up => costs[u].up = cost,
        Way::Down => costs[u].down = cost,
    }
}

// The price of an edge.
#[inline(always)]
fn price_of(cost: i32) -> i16
    requires { unsigned_abs cost ≤ 1000 }
    ensures { result ≡ pos (unsigned_abs cost) }
{
    if cost < 0 { -cost as i16 } else { cost as i16 }
}

// What a unit more costs where `flow` goes over an edge of this price.
#[inline(always)]
fn unit(price: i16, flow: i64) -> i16
    requires { unsigned_abs price ≤ 1000 }
    ensures along { pos 0 ≤ℤ flow → result ≡ price }
    ensures against { flow <ℤ pos 0 → result ≡ neg_ℤ price }
{
    if flow < 0 { -price } else { price }
}

// Sends `amount` more from cell `u` to `v`, as it is seen, and makes the costs of that edge ready again.
#[inline(always)]
pub(crate) fn push(
    flows: &mut [Flows],
    costs: &mut [Costs],
    side: Side,
    u: usize,
    v: usize,
    way: Way,
    amount: i64,
)
    requires some { 1 ≤ side.stride }
    requires low { side.stride < u }
    requires high { u + side.stride < length flows.old }
    requires costs { length costs.old ≡ length flows.old }
    requires size { length flows.old ≤ 263169 }
    requires cell { v < length flows.old }
    requires leads { v ≡ head side.stride u (number way) }
    requires price { unsigned_abs (cost_in costs.old side u (number way)) ≤ 1000 }
    requires small { unsigned_abs (flow_of flows.old side.stride u (number way)) +
        unsigned_abs amount ≤ 2 ^ 62 }
    ensures { Pushed flows.old flows.new costs.old costs.new side u (number way) amount }
{
    let price = price_of(side.cost(costs, u, v, way));
    add(flows, side.stride, u, way, signed_flow(side.back, amount));
    let flow = plain_flow(flows, side.stride, u, way);
    set_cost(costs, u, way, unit(price, flow));
    set_cost(costs, v, way.back(), unit(price, -flow));
}
