// Small networks, solved.
#![tactic(auto)]

#[cfg(test)]
mod tests {
    use net_graph::{Arc, Node};
    use net_search::Label;
    use net_solve::Infeasible;
    use std::array;
    use std::test::Fail;
    use test_solver::{Lists, Refusal, Slices, try_solve};

    // Where an arc begins and ends, and its pair.
    type Ends = (usize, usize, usize);

    // Nodes 0 and 1, joined by an edge.
    const EDGE: [Ends; 2] = [(0, 1, 1), (1, 0, 0)];

    const EDGE_FIRST: [usize; 5] = [0, 1, 2, 2, 2];

    // The same, joined by two edges.
    const EDGES: [Ends; 4] = [(0, 1, 2), (0, 1, 3), (1, 0, 0), (1, 0, 1)];

    const EDGES_FIRST: [usize; 5] = [0, 2, 4, 4, 4];

    // Nodes 0 and 3 at opposite corners of a square.
    const SQUARE: [Ends; 8] = [
        (0, 1, 2),
        (0, 2, 4),
        (1, 0, 0),
        (1, 3, 6),
        (2, 0, 1),
        (2, 3, 7),
        (3, 1, 3),
        (3, 2, 5),
    ];

    const SQUARE_FIRST: [usize; 5] = [0, 2, 4, 6, 8];

    fn arcs<const N: usize>(ends: [Ends; N], cost: [i64; N], limit: [i64; N]) -> [Arc; N] {
        array::from_fn(|a| {
            let (tail, head, pair) = ends[a];
            Arc {
                tail,
                head,
                pair,
                cost: cost[a],
                limit: limit[a],
            }
        })
    }

    // What becomes of the supplies of four nodes.
    fn solved(
        first: &[usize],
        arcs: &[Arc],
        flow: &mut [i64],
        supplies: [i64; 4],
    ) -> Result<(), Refusal> {
        let mut nodes = supplies.map(|excess| Node {
            excess,
            potential: 0,
        });
        let mut labels = [Label::default(); 4];
        let mut order = [0; 4];
        let mut frontier = [0; 4];
        let mut slices = Slices {
            flow,
            nodes: &mut nodes,
            labels: &mut labels,
            order: &mut order,
            frontier: &mut frontier,
        };
        try_solve(Lists { first, arcs }, &mut slices)
    }

    // A single arc takes what there is.
    #[test]
    fn single_arc(rt: HostRuntime) -> Result<(), Fail> {
        let net = arcs(EDGE, [3, 3], [9, 9]);
        let mut x = [0; 2];
        assert_eq!(rt; solved(&EDGE_FIRST, &net, &mut x, [2, -2, 0, 0]), Ok(()));
        assert_eq!(rt; x, [2, -2]);
        Ok(())
    }

    // The dearer of two arcs takes what the limit of the other leaves.
    #[test]
    fn parallel_arcs(rt: HostRuntime) -> Result<(), Fail> {
        let net = arcs(EDGES, [1, 5, 1, 5], [2, 9, 2, 9]);
        let mut x = [0; 4];
        assert_eq!(rt; solved(&EDGES_FIRST, &net, &mut x, [3, -3, 0, 0]), Ok(()));
        assert_eq!(rt; x[0], 2);
        assert_eq!(rt; x[1], 1);
        Ok(())
    }

    // An arc that costs less than nothing is filled, and the other brings it back.
    #[test]
    fn negative_cost(rt: HostRuntime) -> Result<(), Fail> {
        let net = arcs(EDGES, [-4, 1, 4, 1], [3, 9, 0, 9]);
        let mut x = [0; 4];
        assert_eq!(rt; solved(&EDGES_FIRST, &net, &mut x, [0, 0, 0, 0]), Ok(()));
        assert_eq!(rt; x[0], 3);
        assert_eq!(rt; x[1], -3);
        Ok(())
    }

    // It is not where the reverse arc costs more.
    #[test]
    fn negative_cost_too_small(rt: HostRuntime) -> Result<(), Fail> {
        let net = arcs(EDGES, [-4, 5, 4, 5], [3, 9, 0, 9]);
        let mut x = [0; 4];
        assert_eq!(rt; solved(&EDGES_FIRST, &net, &mut x, [0, 0, 0, 0]), Ok(()));
        assert_eq!(rt; x[0], 0);
        assert_eq!(rt; x[1], 0);
        Ok(())
    }

    // Of two paths that cost the same one is taken.
    #[test]
    fn ties(rt: HostRuntime) -> Result<(), Fail> {
        let net = arcs(SQUARE, [1; 8], [9; 8]);
        let mut x = [0; 8];
        assert_eq!(rt; solved(&SQUARE_FIRST, &net, &mut x, [1, 0, 0, -1]), Ok(()));
        assert!(rt; (x[0] == 1) != (x[1] == 1));
        assert!(rt; (x[3] == 1) != (x[5] == 1));
        Ok(())
    }

    // The cheap path takes what its limit allows, and the other the rest.
    #[test]
    fn limit_that_binds(rt: HostRuntime) -> Result<(), Fail> {
        let net = arcs(SQUARE, [1, 7, 1, 1, 7, 1, 1, 1], [9, 9, 9, 2, 9, 9, 2, 9]);
        let mut x = [0; 8];
        assert_eq!(rt; solved(&SQUARE_FIRST, &net, &mut x, [5, 0, 0, -5]), Ok(()));
        assert_eq!(rt; x[0], 2);
        assert_eq!(rt; x[1], 3);
        Ok(())
    }

    // Ways that cost nothing.
    #[test]
    fn prices_of_0(rt: HostRuntime) -> Result<(), Fail> {
        let net = arcs(SQUARE, [0; 8], [1, 9, 9, 9, 9, 9, 9, 9]);
        let mut x = [0; 8];
        assert_eq!(rt; solved(&SQUARE_FIRST, &net, &mut x, [2, -1, 0, -1]), Ok(()));
        assert_eq!(rt; x[0], 1);
        assert_eq!(rt; x[1], 1);
        Ok(())
    }

    // Node 0 has more than can leave it.
    #[test]
    fn infeasible(rt: HostRuntime) -> Result<(), Fail> {
        let net = arcs(EDGE, [3, 3], [1, 1]);
        let mut x = [0; 2];
        assert_eq!(rt;
            solved(&EDGE_FIRST, &net, &mut x, [3, -3, 0, 0]),
            Err(Refusal::Infeasible(Infeasible { nodes: 1 }))
        );
        assert_eq!(rt; x[0], 1);
        Ok(())
    }

    // What node 0 has cannot come to node 3.
    #[test]
    fn nothing_joins(rt: HostRuntime) -> Result<(), Fail> {
        let net = arcs(EDGE, [3, 3], [9, 9]);
        let mut x = [0; 2];
        assert_eq!(rt;
            solved(&EDGE_FIRST, &net, &mut x, [1, 0, 0, -1]),
            Err(Refusal::Infeasible(Infeasible { nodes: 2 }))
        );
        Ok(())
    }
}
