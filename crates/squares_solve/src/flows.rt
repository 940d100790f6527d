// What flows across steps, and what that costs.
ghost use Rattle.std.specs.Prelude.{◌≡◌, ℕ, pred, suc, ◌+◌, ◌*◌, ◌^◌, ◌<◌, ◌≤◌, length, pos, ◌+ℤ◌, slice_index_or, unsigned_abs};
ghost use Rattle.net_cells.specs.Lists.{right_of, up_of};
ghost use Rattle.squares_cells.specs.Squares.{across};
ghost use Rattle.squares_build.specs.Steps.{sized};
ghost use Rattle.squares_solve.specs.Flows.{Within, Added};

use net_cells::Flows;

// What is expected of a step, and what flows across it.
#[inline(always)]
fn with(expected: i64, across: i64) -> i64
    requires expected { unsigned_abs expected ≤ 2 ^ 32 }
    requires across { unsigned_abs across ≤ 2 ^ 49 }
    ensures is { result ≡ expected +ℤ across }
    ensures small { unsigned_abs result ≤ 2 ^ 50 }
{
    expected + across
}

// What flows up from a cell.
#[inline(always)]
fn up_at(flows: &[Flows], cell: usize) -> i64
    requires { cell < length flows.now }
    ensures { result ≡ up_of flows.now cell }
{
    flows[cell].up
}

// What flows to the right from it.
#[inline(always)]
fn right_at(flows: &[Flows], cell: usize) -> i64
    requires { cell < length flows.now }
    ensures { result ≡ right_of flows.now cell }
{
    flows[cell].right
}

// What flows up across the step to the right from (x, y).
#[inline(always)]
pub(crate) fn up_across(wide: usize, high: usize, flows: &[Flows], x: usize, y: usize) -> i64
    requires x { suc x < wide }
    requires y { y < high }
    requires wide_fits { wide ≤ 512 }
    requires high_fits { high ≤ 512 }
    requires flows_len { length flows.now ≡ (high + 1) * (wide + 1) }
    ensures { result ≡ (across (sized wide high) flows.now).right x y }
{
    up_at(flows, (y + 1) * (wide + 1) + (x + 1))
}

// What flows to the right across the step down from it.
#[inline(always)]
pub(crate) fn right_across(wide: usize, high: usize, flows: &[Flows], x: usize, y: usize) -> i64
    requires x { x < wide }
    requires y { suc y < high }
    requires wide_fits { wide ≤ 512 }
    requires high_fits { high ≤ 512 }
    requires flows_len { length flows.now ≡ (high + 1) * (wide + 1) }
    ensures { result ≡ (across (sized wide high) flows.now).below x y }
{
    right_at(flows, (y + 1) * (wide + 1) + x)
}

// Adds to the steps to the right what flows up across them.
fn add_up(wide: usize, high: usize, flows: &[Flows], steps: &mut [i64])
    requires wide_some { 1 ≤ wide }
    requires wide_fits { wide ≤ 512 }
    requires high_some { 1 ≤ high }
    requires high_fits { high ≤ 512 }
    requires len { length steps.old ≡ high * wide }
    requires flows_len { length flows.now ≡ (high + 1) * (wide + 1) }
    requires few { (k : ℕ) → unsigned_abs (slice_index_or steps.old k (pos 0)) ≤ 2 ^ 32 }
    requires within { Within (2 ^ 49) (sized wide high) (across (sized wide high) flows.now) }
    ensures { Added wide (pred wide) high (across
        (sized wide high) flows.now).right steps.old steps.new }
{
    for y in 0..high {
        for x in 0..wide - 1 {
            let place = y * wide + x;
            let across = up_across(wide, high, flows, x, y);
            steps[place] = with(steps[place], across);
        }
    }
}

// Adds to the steps down what flows to the right across them.
fn add_right(wide: usize, high: usize, flows: &[Flows], steps: &mut [i64])
    requires wide_some { 1 ≤ wide }
    requires wide_fits { wide ≤ 512 }
    requires high_some { 1 ≤ high }
    requires high_fits { high ≤ 512 }
    requires len { length steps.old ≡ high * wide }
    requires flows_len { length flows.now ≡ (high + 1) * (wide + 1) }
    requires few { (k : ℕ) → unsigned_abs (slice_index_or steps.old k (pos 0)) ≤ 2 ^ 32 }
    requires within { Within (2 ^ 49) (sized wide high) (across (sized wide high) flows.now) }
    ensures { Added wide wide (pred high) (across
        (sized wide high) flows.now).below steps.old steps.new }
{
    for y in 0..high - 1 {
        for x in 0..wide {
            let place = y * wide + x;
            let across = right_across(wide, high, flows, x, y);
            steps[place] = with(steps[place], across);
        }
    }
}

/// Adds to expected steps what flows across them.
pub fn add_flows(
    wide: usize,
    high: usize,
    flows: &[Flows],
    to_right: &mut [i64],
    to_below: &mut [i64],
)
    requires wide_some { 1 ≤ wide }
    requires wide_fits { wide ≤ 512 }
    requires high_some { 1 ≤ high }
    requires high_fits { high ≤ 512 }
    requires right_len { length to_right.old ≡ high * wide }
    requires below_len { length to_below.old ≡ high * wide }
    requires flows_len { length flows.now ≡ (high + 1) * (wide + 1) }
    requires right_few { (k : ℕ) → unsigned_abs (slice_index_or to_right.old k (pos 0)) ≤ 2 ^ 32 }
    requires below_few { (k : ℕ) → unsigned_abs (slice_index_or to_below.old k (pos 0)) ≤ 2 ^ 32 }
    requires within { Within (2 ^ 49) (sized wide high) (across (sized wide high) flows.now) }
    ensures right { let a = across (sized wide high) flows.now in
        Added wide (pred wide) high a.right to_right.old to_right.new }
    ensures below { let a = across (sized wide high) flows.now in
        Added wide wide (pred high) a.below to_below.old to_below.new }
{
    add_up(wide, high, flows, to_right);
    add_right(wide, high, flows, to_below);
}
