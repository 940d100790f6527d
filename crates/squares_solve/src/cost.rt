// What a flow across steps costs.
ghost use Rattle.std.specs.Prelude.{◌≡◌, pred, suc, ◌+◌, ◌*◌, ◌^◌, ◌<◌, ◌≤◌, length, unsigned_abs};
ghost use Rattle.squares_cells.specs.Squares.{across, flow_cost};
ghost use Rattle.squares_build.specs.Steps.{lent};
ghost use Rattle.squares_solve.specs.Flows.{Within};
ghost use Rattle.squares_solve.specs.Cost.{row_right_cost, row_below_cost, right_cost, below_cost};

use crate::flows::{right_across, up_across};
use net_cells::Flows;
use squares_build::Steps;

// What so much flow costs at a price.
#[inline(always)]
fn paid(price: u32, flow: i64) -> u64
    requires price { price ≤ 1000 }
    requires flow { unsigned_abs flow ≤ 2 ^ 19 }
    ensures is { result ≡ price * unsigned_abs flow }
    ensures small { result ≤ 524288000 }
{
    u64::from(price) * flow.unsigned_abs()
}

// What the flow across the step to the right from (x, y) costs.
#[inline(always)]
fn step_right_cost(steps: &Steps, flows: &[Flows], x: usize, y: usize) -> u64
    requires x { suc x < steps.now.wide }
    requires y { y < steps.now.high }
    requires flows_len { length flows.now ≡ (steps.now.high + 1) * (steps.now.wide + 1) }
    requires within { let s = lent steps.now in Within (2 ^ 19) s (across s flows.now) }
    ensures is { let s = lent steps.now in result ≡
        s.right x y * unsigned_abs ((across s flows.now).right x y) }
    ensures small { result ≤ 524288000 }
{
    let flow = up_across(steps.wide, steps.high, flows, x, y);
    paid(steps.right[y * steps.wide + x], flow)
}

// What the flow across the step down from it costs.
#[inline(always)]
fn step_below_cost(steps: &Steps, flows: &[Flows], x: usize, y: usize) -> u64
    requires x { x < steps.now.wide }
    requires y { suc y < steps.now.high }
    requires flows_len { length flows.now ≡ (steps.now.high + 1) * (steps.now.wide + 1) }
    requires within { let s = lent steps.now in Within (2 ^ 19) s (across s flows.now) }
    ensures is { let s = lent steps.now in result ≡
        s.below x y * unsigned_abs ((across s flows.now).below x y) }
    ensures small { result ≤ 524288000 }
{
    let flow = right_across(steps.wide, steps.high, flows, x, y);
    paid(steps.below[y * steps.wide + x], flow)
}

// What the flow across the steps to the right in row y costs.
fn row_right_cost(steps: &Steps, flows: &[Flows], y: usize) -> u64
    requires y { y < steps.now.high }
    requires flows_len { length flows.now ≡ (steps.now.high + 1) * (steps.now.wide + 1) }
    requires within { let s = lent steps.now in Within (2 ^ 19) s (across s flows.now) }
    ensures is { let s = lent steps.now in result ≡ row_right_cost s (across s flows.now) y }
    ensures small { result ≤ 268435456000 }
{
    let mut cost = 0;
    for x in 0..steps.wide - 1 {
        cost += step_right_cost(steps, flows, x, y);
    }
    cost
}

// What it costs across the steps down from row y.
fn row_below_cost(steps: &Steps, flows: &[Flows], y: usize) -> u64
    requires y { suc y < steps.now.high }
    requires flows_len { length flows.now ≡ (steps.now.high + 1) * (steps.now.wide + 1) }
    requires within { let s = lent steps.now in Within (2 ^ 19) s (across s flows.now) }
    ensures is { let s = lent steps.now in result ≡ row_below_cost s (across s flows.now) y }
    ensures small { result ≤ 268435456000 }
{
    let mut cost = 0;
    for x in 0..steps.wide {
        cost += step_below_cost(steps, flows, x, y);
    }
    cost
}

fn right_cost(steps: &Steps, flows: &[Flows]) -> u64
    requires flows_len { length flows.now ≡ (steps.now.high + 1) * (steps.now.wide + 1) }
    requires within { let s = lent steps.now in Within (2 ^ 19) s (across s flows.now) }
    ensures is { let s = lent steps.now in result ≡ right_cost s (across s flows.now) }
    ensures small { result ≤ 137438953472000 }
{
    let mut cost = 0;
    for y in 0..steps.high {
        cost += row_right_cost(steps, flows, y);
    }
    cost
}

fn below_cost(steps: &Steps, flows: &[Flows]) -> u64
    requires flows_len { length flows.now ≡ (steps.now.high + 1) * (steps.now.wide + 1) }
    requires within { let s = lent steps.now in Within (2 ^ 19) s (across s flows.now) }
    ensures is { let s = lent steps.now in result ≡ below_cost s (across s flows.now) }
    ensures small { result ≤ 137438953472000 }
{
    let mut cost = 0;
    for y in 0..steps.high - 1 {
        cost += row_below_cost(steps, flows, y);
    }
    cost
}

/// What a flow across the steps costs, in turns.
pub fn flow_cost(steps: &Steps, flows: &[Flows]) -> u64
    requires flows_len { length flows.now ≡ (steps.now.high + 1) * (steps.now.wide + 1) }
    requires within { let s = lent steps.now in Within (2 ^ 19) s (across s flows.now) }
    ensures is { let s = lent steps.now in result ≡ flow_cost s (across s flows.now) }
    ensures small { result ≤ 274877906944000 }
{
    right_cost(steps, flows) + below_cost(steps, flows)
}
