// Numbers that cost least.
ghost use Rattle.std.specs.Prelude.{◌≡◌, ℕ, ◌*◌, ◌^◌, ◌<◌, ◌≤◌, length, pos, unsigned_abs};
ghost use Rattle.net_graph.specs.Node.{excess_of};
ghost use Rattle.net_links.specs.Links.{CostLeast, Certified};
ghost use Rattle.net_links_solve.specs.Link.{links_of};
ghost use Rattle.net_links_solve.specs.Settled.{numbers, flows};
ghost use Rattle.net_workspace.specs.Workspace.{SameLoans};

use crate::list::LinkList;
use net_graph::Node;
use net_workspace::Workspace;

// No node has anything in excess.
fn clear(nodes: &mut [Node])
    ensures { (v : ℕ) → excess_of nodes.new v ≡ pos 0 }
{
    nodes.fill(Node::default());
}

/// Leaves numbers of the nodes that cost least, as their potentials, and along the links the circulation that shows it. It always can.
pub fn settle(links: LinkList<'_>, workspace: &mut Workspace)
    requires nodes { length workspace.old.nodes.now ≡ links.nodes }
    requires links { length workspace.old.arc_of.now ≡ length links.edges.now }
    ensures same { SameLoans workspace.old workspace.new }
    ensures least { CostLeast (links_of links.entry.edges.now) (numbers workspace.new) }
    ensures certified { Certified (links_of links.entry.edges.now) links.entry.nodes
        (numbers workspace.new) (flows workspace.new) }
    ensures bounded { (v : ℕ) → v < links.entry.nodes →
        unsigned_abs (numbers workspace.new v) ≤ 2 ^ 31 * links.entry.nodes }
{
    clear(workspace.nodes);
    let _ = workspace.solve_by_waves(links.edges);
}
