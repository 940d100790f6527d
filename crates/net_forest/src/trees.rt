// A spanning forest, by a search in breadth.
ghost use Rattle.std.specs.Prelude.{◌≡◌, ◌+◌, ◌<◌, length};
ghost use Rattle.net_graph.specs.Network.{graph};
ghost use Rattle.net_forest.specs.Forest.{root_of, place_of, Free, Within, Closed, Single, Kept, Forest, Grows, NodeAdded};

use crate::tree_node::TreeNode;
use net_graph::Network;

// Writes node `v` as the next one that is found.
fn add(
    tree_nodes: &mut [TreeNode],
    order: &mut [usize],
    found: &mut usize,
    v: usize,
    node: TreeNode,
)
    requires node { v < length tree_nodes.old }
    requires lengths { found.old < length order.old }
    ensures { NodeAdded tree_nodes.old tree_nodes.new order.old order.new found.old found.new v
        node }
{
    tree_nodes[v] = node;
    order[*found] = v;
    *found += 1;
}

// Finds the node that arc `a` leads to, unless it was found, or a unit along the arc or back costs something.
fn reach(
    net: Network<'_>,
    tree_nodes: &mut [TreeNode],
    order: &mut [usize],
    found: &mut usize,
    a: usize,
)
    requires tree_nodes { length tree_nodes.old ≡ (graph net).nodes }
    requires order { length order.old ≡ (graph net).nodes }
    requires grows { Grows (graph net) tree_nodes.old order.old found.old }
    requires arc { a < (graph net).arcs }
    requires tail { place_of tree_nodes.old ((graph net).tail a) < found.old }
    requires together { Free (graph net) a →
        place_of tree_nodes.old ((graph net).head a) < found.old →
        root_of tree_nodes.old ((graph net).head a) ≡ root_of tree_nodes.old ((graph net).tail a) }
    ensures grows { Grows (graph net.entry) tree_nodes.new order.new found.new }
    ensures kept { Kept (graph net.entry) tree_nodes.old tree_nodes.new order.old order.new
        found.old found.new }
    ensures single { Single (graph net.entry) (root_of tree_nodes.new)
        (place_of tree_nodes.new) found.new found.old
        (root_of tree_nodes.old ((graph net.entry).tail a)) }
    ensures within { Free (graph net.entry) a →
        Within (graph net.entry) (root_of tree_nodes.new) (place_of tree_nodes.new) found.new
        (root_of tree_nodes.old ((graph net.entry).tail a)) a }
{
    let arc = net.arcs[a];
    if arc.cost != 0 || net.arcs[arc.pair].cost != 0 {
        return;
    }
    if tree_nodes[arc.head].place < *found {
        return;
    }
    let node = TreeNode {
        root: tree_nodes[arc.tail].root,
        pred: a,
        place: *found,
    };
    add(tree_nodes, order, found, arc.head, node);
}

// Finds what the arcs of node `u` that cost nothing lead to. The nodes before it are done, and those after it are of its tree.
fn scan(
    net: Network<'_>,
    tree_nodes: &mut [TreeNode],
    order: &mut [usize],
    found: &mut usize,
    u: usize,
)
    requires tree_nodes { length tree_nodes.old ≡ (graph net).nodes }
    requires order { length order.old ≡ (graph net).nodes }
    requires grows { Grows (graph net) tree_nodes.old order.old found.old }
    requires node { u < (graph net).nodes }
    requires was_found { place_of tree_nodes.old u < found.old }
    requires closed { Closed (graph net) (root_of tree_nodes.old)
        (place_of tree_nodes.old) found.old (place_of tree_nodes.old u) }
    requires single { Single (graph net) (root_of tree_nodes.old)
        (place_of tree_nodes.old) found.old (place_of tree_nodes.old u) (root_of tree_nodes.old u) }
    ensures grows { Grows (graph net.entry) tree_nodes.new order.new found.new }
    ensures kept { Kept (graph net.entry) tree_nodes.old tree_nodes.new order.old order.new
        found.old found.new }
    ensures closed { Closed (graph net.entry) (root_of tree_nodes.new)
        (place_of tree_nodes.new) found.new (place_of tree_nodes.old u + 1) }
    ensures single { Single (graph net.entry) (root_of tree_nodes.new)
        (place_of tree_nodes.new) found.new (place_of tree_nodes.old u) (root_of tree_nodes.old u) }
{
    for a in net.first[u]..net.first[u + 1] {
        reach(net, tree_nodes, order, found, a);
    }
}

// Finds the tree of node `v`, unless it was found.
fn grow_tree(
    net: Network<'_>,
    tree_nodes: &mut [TreeNode],
    order: &mut [usize],
    found: &mut usize,
    v: usize,
)
    requires tree_nodes { length tree_nodes.old ≡ (graph net).nodes }
    requires order { length order.old ≡ (graph net).nodes }
    requires grows { Grows (graph net) tree_nodes.old order.old found.old }
    requires node { v < (graph net).nodes }
    requires closed { Closed (graph net) (root_of tree_nodes.old)
        (place_of tree_nodes.old) found.old found.old }
    ensures grows { Grows (graph net.entry) tree_nodes.new order.new found.new }
    ensures kept { Kept (graph net.entry) tree_nodes.old tree_nodes.new order.old order.new
        found.old found.new }
    ensures this { place_of tree_nodes.new v < found.new }
    ensures closed { Closed (graph net.entry) (root_of tree_nodes.new)
        (place_of tree_nodes.new) found.new found.new }
{
    if tree_nodes[v].place < *found {
        return;
    }
    let mut done = *found;
    let node = TreeNode {
        root: v,
        pred: 0,
        place: done,
    };
    add(tree_nodes, order, found, v, node);
    while done < *found {
        let u = order[done];
        scan(net, tree_nodes, order, found, u);
        done += 1;
    }
}

/// A spanning forest of the arcs that cost nothing in either direction: two nodes that such arcs join are in one tree. `order` gets the
/// nodes in the order in which they were found, each after its parent.
pub fn spanning_forest(net: Network<'_>, tree_nodes: &mut [TreeNode], order: &mut [usize])
    requires tree_nodes { length tree_nodes.old ≡ (graph net).nodes }
    requires order { length order.old ≡ (graph net).nodes }
    ensures { Forest (graph net.entry) tree_nodes.new order.new }
{
    let n = tree_nodes.len();
    tree_nodes.fill(TreeNode {
        root: 0,
        pred: 0,
        place: n,
    });
    let mut found = 0;
    for v in 0..n {
        grow_tree(net, tree_nodes, order, &mut found, v);
    }
}
