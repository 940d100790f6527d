// Numbers that can be tried, and those that are left.
ghost use Rattle.std.specs.Prelude.{◌≡◌, ◌≤◌, length};

use net_graph::{Arc, Node};
use net_links_solve::{LinkList, cost, settle};
use net_search::Label;
use net_waves::{Height, Tight};
use net_workspace::Workspace;

// The most nodes and links of a drawn network.
pub(crate) const NODES: usize = 4;

pub(crate) const LINKS: usize = 6;

// Writes the numbers that a code in base 13 stands for, 0 for the first node and from -6 to 6 for each other.
fn write_numbers(code: u32, numbers: &mut [i64]) {
    let mut rest = code;
    for (v, number) in numbers.iter_mut().enumerate() {
        if v == 0 {
            *number = 0;
        } else {
            *number = i64::from(rest % 13) - 6;
            rest /= 13;
        }
    }
}

// The least cost of all numbers that codes stand for. No numbers cost less: some that cost least have a spanning tree of links that are
// at an end of what is expected, if need be after nodes that no link joins to the rest are moved together; and what is expected along
// three links adds up to 6 at most. This is not proved.
pub(crate) fn least_tried(links: LinkList<'_>) -> u128
    requires { links.nodes ≤ 4 }
{
    let mut numbers = [0; NODES];
    let numbers = &mut numbers[..links.nodes];
    let mut least = cost(links, numbers);
    for code in 0..2197 {
        write_numbers(code, numbers);
        least = least.min(cost(links, numbers));
    }
    least
}

// The numbers that `settle` leaves in local arrays.
fn settled(links: LinkList<'_>, numbers: &mut [i64])
    requires nodes { links.nodes ≤ 4 }
    requires links { length links.edges.now ≤ 6 }
    requires numbers { length numbers.old ≡ links.nodes }
{
    let n = links.nodes;
    let m = links.edges.len();
    let mut first = [0; NODES + 1];
    let mut next = [0; NODES];
    let mut arcs = [Arc::default(); 2 * LINKS];
    let mut arc_of = [0; LINKS];
    let mut flow = [0; 2 * LINKS];
    let mut nodes = [Node::default(); NODES];
    let mut labels = [Label::default(); NODES];
    let mut order = [0; NODES];
    let mut frontier = [0; NODES];
    let mut tight = [Tight::default(); 2 * LINKS];
    let mut heights = [Height::default(); NODES];
    let mut slots = [0; NODES];
    let mut workspace = Workspace {
        first: &mut first[..n + 1],
        next: &mut next[..n],
        arcs: &mut arcs[..2 * m],
        arc_of: &mut arc_of[..m],
        flow: &mut flow[..2 * m],
        nodes: &mut nodes[..n],
        labels: &mut labels[..n],
        order: &mut order[..n],
        frontier: &mut frontier[..n],
        tight: &mut tight[..2 * m],
        heights: &mut heights[..n],
        slots: &mut slots[..n],
    };
    settle(links, &mut workspace);
    workspace.copy_potentials(numbers);
}

// What numbers cost that `settle` leaves.
pub(crate) fn cost_settled(links: LinkList<'_>) -> u128
    requires nodes { links.nodes ≤ 4 }
    requires links { length links.edges.now ≤ 6 }
{
    let mut numbers = [0; NODES];
    let numbers = &mut numbers[..links.nodes];
    settled(links, numbers);
    cost(links, numbers)
}
