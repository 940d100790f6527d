// What numbers cost.
ghost use Rattle.std.specs.Prelude.{◌≡◌, ◌+◌, ◌*◌, ◌^◌, ◌<◌, ◌≤◌, length, ℕ, pos, ◌-ℤ◌, ◌≤ℤ◌, neg_ℤ, unsigned_abs, slice_index_or};
ghost use borrow.Author.Differences.{up};
ghost use Rattle.net_links.specs.Links.{beyond, links_cost};
ghost use Rattle.net_links_solve.specs.Link.{links_of, numbers_in};

use crate::list::LinkList;
use net_build::Edge;

// By how much one number lies above another.
fn rise(from: i64, to: i64) -> i128
    ensures value { result ≡ (to -ℤ from) }
    ensures small { unsigned_abs result ≤ 2 ^ 64 }
{
    i128::from(to) - i128::from(from)
}

// What lies above 0.
fn excess(difference: i128) -> u128
    requires { unsigned_abs difference ≤ 2 ^ 65 }
    ensures value { result ≡ up difference }
    ensures small { result ≤ 2 ^ 65 }
{
    difference.max(0).unsigned_abs()
}

// By how much a difference lies beyond what is expected.
fn beyond(low: i128, high: i128, rise: i128) -> u128
    requires low { unsigned_abs low ≤ 2 ^ 30 }
    requires high { unsigned_abs high ≤ 2 ^ 30 }
    requires small { unsigned_abs rise ≤ 2 ^ 64 }
    ensures value { result ≡ beyond low high rise }
    ensures small { result ≤ 2 ^ 66 }
{
    excess(rise - high) + excess(low - rise)
}

// What a link costs: its price for each by which it lies beyond.
fn link_cost(edge: &Edge, numbers: &[i64]) -> u128
    requires from { edge.now.from < length numbers.now }
    requires to { edge.now.to < length numbers.now }
    requires high { unsigned_abs edge.now.cost ≤ 2 ^ 30 }
    requires low { unsigned_abs edge.now.reverse_cost ≤ 2 ^ 30 }
    requires price { pos 0 ≤ℤ edge.now.limit }
    requires few { up edge.now.limit ≤ 2 ^ 59 }
    ensures value { result ≡ up edge.now.limit * beyond (neg_ℤ edge.now.reverse_cost) edge.now.cost
        (numbers_in numbers.now edge.now.to -ℤ numbers_in numbers.now edge.now.from) }
    ensures small { result ≤ up edge.now.limit * 2 ^ 66 }
{
    let low = i128::from(-edge.reverse_cost);
    let high = i128::from(edge.cost);
    let rise = rise(numbers[edge.from], numbers[edge.to]);
    u128::from(edge.limit.unsigned_abs()) * beyond(low, high, rise)
}

/// What numbers of the nodes cost over links. It is exact whatever they are.
pub fn cost(links: LinkList<'_>, numbers: &[i64]) -> u128
    requires { length numbers.now ≡ links.nodes }
    ensures { result ≡ links_cost (links_of links.entry.edges.now) (numbers_in numbers.now) }
{
    let mut sum = 0;
    for edge in links.edges {
        sum += link_cost(edge, numbers);
    }
    sum
}
