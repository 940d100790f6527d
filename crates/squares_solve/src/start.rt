// What the solver begins with: the cells that have something in excess or lack something, and how far it looks at first.
ghost use Rattle.std.specs.Prelude.{◌≡◌, ◌≢◌, ◌⊎◌, ℕ, ◌+◌, ◌*◌, ◌^◌, ◌<◌, ◌≤◌, ◌≤ℤ◌, length, pos, slice_index, true, false};
ghost use Rattle.net_cells.specs.Lists.{inner_of, excess_of};
ghost use Rattle.net_cells_solve.specs.Listing.{Listing};

use net_cells::Cell;
use squares_build::Steps;

// Writes cell `v` behind the first of a list, and counts it if it has something in excess or lacks something. No branch, since none foresees it.
#[inline(always)]
fn list_one(cells: &[Cell], list: &mut [u32], count: usize, v: usize) -> usize
    requires cell { v < length cells.now }
    requires size { v < 2 ^ 32 }
    requires count { count ≤ v }
    requires room { count < length list.old }
    ensures last { slice_index list.new count ≡ v }
    ensures kept { (k : ℕ) → k < count → slice_index list.new k ≡ slice_index list.old k }
    ensures counted { (result ≡ count + 1) × (excess_of cells.now v ≢ pos 0) ⊎ (result ≡ count) ×
        (excess_of cells.now v ≡ pos 0) }
{
    list[count] = v as u32;
    count + usize::from(cells[v].excess != 0)
}

// Lists the cells that have something in excess or lack something, and tells how many they are.
pub(crate) fn list_off(cells: &[Cell], list: &mut [u32]) -> usize
    requires size { length cells.now < 2 ^ 32 }
    requires len { length list.old ≡ length cells.now }
    requires outside { (u : ℕ) → (excess_of cells.now u ≢ pos 0) → inner_of cells.now u ≡ true }
    ensures count { result ≤ length list.new }
    ensures listed { Listing cells.now list.new result }
{
    let mut count = 0;
    for v in 0..cells.len() {
        count = list_one(cells, list, count, v);
    }
    count
}

// The prices of a list added up.
fn total(prices: &[u32]) -> u64
    requires few { length prices.now ≤ 262144 }
    requires small { (k : ℕ) → slice_index prices.now k ≤ 1000 }
    ensures { result ≤ 262144000 }
{
    let mut sum = 0;
    for price in prices {
        sum += u64::from(*price);
    }
    sum
}

// Half the mean price of steps, and 1 at least: how far a search looks at first. Any number would do.
pub(crate) fn first_radius(steps: &Steps) -> i32
    ensures { pos 1 ≤ℤ result }
{
    let places = steps.wide * steps.high;
    let sum = total(&steps.right[..places]) + total(&steps.below[..places]);
    let half = sum / (4 * places as u64);
    half.clamp(1, 1000) as i32
}
