// Small networks of links that look random, the same at every run.
ghost use Rattle.std.specs.Prelude.{◌<◌};

use net_build::Edge;
use net_links_solve::link;
use rand_core::utils::NextWord;
use rand_pcg::Pcg32;

// A number below the bound.
pub(crate) fn below(draws: &mut Pcg32, bound: u32) -> u32
    requires { 0 < bound }
    ensures { result < bound }
{
    draws.next_word() % bound
}

// A link between some of the nodes: mostly of a price of its own, a third of them free, a quarter with a range, and some loops.
pub(crate) fn draw_link(draws: &mut Pcg32, nodes: u32) -> Edge
    requires { 0 < nodes }
{
    let from = below(draws, nodes) as usize;
    let to = below(draws, nodes) as usize;
    let low = i64::from(below(draws, 5)) - 2;
    let high = (low + i64::from(below(draws, 4) / 3 * 2)).min(2);
    let price = u64::from(below(draws, 6) / 2);
    link(from, to, low, high, price)
}

// What has been drawn.
#[derive(Clone, Copy, Default)]
pub(crate) struct Seen {
    pub(crate) loops: u32,
    pub(crate) parallel: u32,
    pub(crate) free: u32,
    pub(crate) ranges: u32,
    pub(crate) costly: u32,
}

impl Seen {
    // One network more, and what its numbers cost.
    pub(crate) fn add(&mut self, edges: &[Edge], cost: u128) {
        let loops = edges.iter().any(|edge| edge.from == edge.to);
        let free = edges.iter().any(|edge| edge.limit == 0);
        let ranges = edges
            .iter()
            .any(|edge| edge.reverse_cost.wrapping_neg() < edge.cost);
        let parallel = edges.array_windows::<2>().any(|[a, b]| a.from == b.from
            && a.to == b.to
            && a.from != a.to);
        self.loops = self.loops.saturating_add(u32::from(loops));
        self.parallel = self.parallel.saturating_add(u32::from(parallel));
        self.free = self.free.saturating_add(u32::from(free));
        self.ranges = self.ranges.saturating_add(u32::from(ranges));
        self.costly = self.costly.saturating_add(u32::from(cost > 0));
    }
}
