// Numbers that cost least over links, for programs in C and C++ that time them.
#![tactic(auto)]

use net_build::Edge;
use net_links_solve::{LinkList, settle};
use net_workspace::Buffers;
use std::alloc::{AllocError, Global};

/// A link as C writes it: the number of node `to` is expected to lie `low` up to `high` above that of node `from`, at `price` for each
/// beyond.
#[repr(C)]
#[derive(Clone, Copy)]
pub struct Link {
    pub from: u64,
    pub to: u64,
    pub low: i64,
    pub high: i64,
    pub price: i64,
}

impl From<Link> for Edge {
    fn from(link: Link) -> Edge {
        Edge {
            from: link.from as usize,
            to: link.to as usize,
            cost: link.high,
            reverse_cost: 0i64.saturating_sub(link.low),
            limit: link.price,
            reverse_limit: link.price,
        }
    }
}

// The links as edges.
fn edges(heap: Global, links: &[Link]) -> Result<Vec<Edge>, AllocError> {
    let mut edges = Vec::with_capacity(heap, links.len())?;
    for link in links {
        edges.push(Edge::from(*link))?;
    }
    Ok(edges)
}

// Writes numbers that cost least. None if the links are not fit, or memory ran out.
fn write_least(heap: Global, links: &[Link], numbers: &mut [i64]) -> Option<()> {
    let edges = edges(heap, links).ok()?;
    let list = LinkList::new(numbers.len(), &edges[..]).ok()?;
    let mut buffers = Buffers::new(heap, list.nodes, list.edges.len()).ok()?;
    let mut workspace = buffers.lend();
    settle(list, &mut workspace);
    workspace.copy_potentials(numbers);
    Some(())
}

/// Writes numbers that cost least over the links, one for each node: as many nodes as there is room for numbers. Whether it could: not
/// if the links are not fit, or memory ran out.
#[unsafe(no_mangle)]
pub extern "C" fn mulantsy_settle(heap: Global, links: &[Link], numbers: &mut [i64]) -> bool {
    write_least(heap, links, numbers).is_some()
}
