// Numbers that cost least, beside all numbers that can be tried.
#![tactic(auto)]

mod draw;
mod trying;

#[cfg(test)]
mod tests {
    use crate::draw::{Seen, below, draw_link};
    use crate::trying::{LINKS, cost_settled, least_tried};
    use net_build::Edge;
    use net_links_solve::{LinkList, UnfitLinks, cost, link, self_link, settle};
    use net_workspace::Buffers;
    use rand_pcg::Pcg32;
    use std::test::Fail;

    // Over 600 drawn networks no numbers that can be tried cost less than those that are left, and some as much.
    #[test]
    fn as_all_tried(rt: HostRuntime) -> Result<(), Fail> {
        let mut draws = Pcg32::new(42, 54);
        let mut seen = Seen::default();
        for trial in 0..600 {
            let nodes = 1 + below(&mut draws, 4);
            let count = below(&mut draws, 7) as usize;
            let mut edges = [Edge::default(); LINKS];
            let edges = &mut edges[..count];
            for edge in edges.iter_mut() {
                *edge = draw_link(&mut draws, nodes);
            }
            let links = LinkList::new(nodes as usize, edges).expect(&rt, "fit");
            let told = cost_settled(links);
            assert_eq!(rt; told, least_tried(links), "network {trial}");
            seen.add(edges, told);
        }
        assert!(rt; seen.loops > 100 && seen.parallel > 50 && seen.free > 100);
        assert!(rt; seen.ranges > 100 && seen.costly > 100);
        Ok(())
    }

    // A ring of three nodes, each expected one above the one before: two cheap links give way for the dear one, at 3 in all. A fourth node
    // is linked to itself alone.
    #[test]
    fn ring_in_vectors(rt: HostRuntime) -> Result<(), Fail> {
        let edges = [
            link(0, 1, 1, 1, 1),
            link(1, 2, 1, 1, 1),
            link(2, 0, 1, 1, 5),
            self_link(3, 7),
        ];
        let links = LinkList::new(4, &edges).expect(&rt, "fit");
        let mut buffers = Buffers::new(rt.alloc(), 4, 4)?;
        let mut workspace = buffers.lend();
        settle(links, &mut workspace);
        let mut numbers = [0; 4];
        workspace.copy_potentials(&mut numbers);
        assert_eq!(rt; cost(links, &numbers), 3);
        assert_eq!(rt; numbers[0] - numbers[2], 1);
        Ok(())
    }

    // An end that is no node, more expected at least than at most, and prices that add up to too much.
    #[test]
    fn unfit(rt: HostRuntime) -> Result<(), Fail> {
        let dear = link(0, 1, 0, 0, 1 << 59);
        for edges in [
            [link(0, 2, 0, 0, 1), self_link(0, 1)],
            [link(0, 1, 1, 0, 1), self_link(0, 1)],
            [dear, self_link(0, 1)],
        ] {
            assert_eq!(rt; LinkList::new(2, &edges).err(), Some(UnfitLinks));
        }
        assert!(rt; LinkList::new(2, &[dear]).is_ok());
        Ok(())
    }
}
