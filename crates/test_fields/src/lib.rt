// Worked examples: small fields at turn 10 whose answers are known.
#![tactic(auto)]

#[cfg(test)]
mod tests {
    use phase_input::input::Input;
    use phase_input::take::take;
    use phase_turns::residue::residue_count;
    use phase_turns::steps::Steps;
    use unwrap::{Done, put_back};

    // What putting turns back answers where every price is 1, for a field of at most eight places.
    fn at_one_price(wide: u64, high: u64, seen: &[u32], room: &mut [i64]) -> Done {
        let prices = [1; 8];
        let places = seen.len();
        if places > 8 {
            return Done::Refused(2);
        }
        put_back(
            wide,
            high,
            10,
            seen,
            &prices[0..places],
            &prices[0..places],
            room,
        )
    }

    // How many squares have a residue, or None where the field is refused.
    fn residues(wide: u64, high: u64, seen: &[u32]) -> Option<usize> {
        let prices = [1; 8];
        let places = seen.len();
        if places > 8 {
            return None;
        }
        let input = Input {
            wide,
            high,
            turn: 10,
            seen,
            right: &prices[0..places],
            below: &prices[0..places],
        };
        let field = take(&input, places as u64).ok()?;
        Some(residue_count(&field, &Steps::expected(&field)))
    }

    #[test]
    fn a_slope_costs_nothing(rt: HostRuntime) {
        let mut room = [9; 6];
        assert_eq!(rt;
            at_one_price(3, 2, &[1, 4, 7, 2, 5, 8], &mut room),
            Done::Back(0)
        );
        assert!(rt; room == [0, 0, 0, 0, 0, 0]);
        assert_eq!(rt; residues(3, 2, &[1, 4, 7, 2, 5, 8]), Some(0));
    }

    #[test]
    fn a_turn_is_put_back(rt: HostRuntime) {
        let mut room = [9; 8];
        assert_eq!(rt;
            at_one_price(4, 2, &[1, 4, 7, 0, 2, 5, 8, 1], &mut room),
            Done::Back(0)
        );
        assert!(rt; room == [0, 0, 0, 1, 0, 0, 0, 1]);
        assert_eq!(rt; residues(4, 2, &[1, 4, 7, 0, 2, 5, 8, 1]), Some(0));
    }

    #[test]
    fn half_a_turn_goes_up(rt: HostRuntime) {
        let mut room = [9; 2];
        assert_eq!(rt; at_one_price(2, 1, &[0, 5], &mut room), Done::Back(0));
        assert!(rt; room == [0, 0]);
        assert_eq!(rt; at_one_price(2, 1, &[5, 0], &mut room), Done::Back(0));
        assert!(rt; room == [0, 1]);
    }

    #[test]
    fn a_square_that_is_off_costs_a_turn(rt: HostRuntime) {
        assert_eq!(rt; residues(2, 2, &[0, 3, 9, 6]), Some(1));
        let mut room = [9; 4];
        assert_eq!(rt;
            at_one_price(2, 2, &[0, 3, 9, 6], &mut room),
            Done::Back(10)
        );
        assert!(rt; room[0] == 0);
        assert_eq!(rt; residues(3, 2, &[0, 3, 6, 8, 9, 7]), Some(1));
        let mut wider = [9; 6];
        assert_eq!(rt;
            at_one_price(3, 2, &[0, 3, 6, 8, 9, 7], &mut wider),
            Done::Back(10)
        );
        assert!(rt; wider[0] == 0);
    }

    // The first step to the right is dear, so it is not the one that differs: its height is as expected.
    #[test]
    fn a_dear_step_is_spared(rt: HostRuntime) {
        let mut room = [9; 4];
        assert_eq!(rt;
            put_back(
                2,
                2,
                10,
                &[0, 3, 9, 6],
                &[4, 1, 1, 1],
                &[1, 1, 1, 1],
                &mut room,
            ),
            Done::Back(10)
        );
        assert!(rt; room[0] == 0 && room[1] == 0);
    }

    // Steps that cost nothing take what is off: prices count.
    #[test]
    fn a_free_step_takes_it(rt: HostRuntime) {
        let mut room = [9; 4];
        assert_eq!(rt;
            put_back(
                2,
                2,
                10,
                &[0, 3, 9, 6],
                &[5, 1, 5, 1],
                &[5, 0, 1, 1],
                &mut room,
            ),
            Done::Back(0)
        );
        assert!(rt; room[1] == 0 && room[2] == -1);
    }

    // A square that is off alone is joined to the outside, across its cheapest step.
    #[test]
    fn flows_leave_at_the_edge(rt: HostRuntime) {
        let mut room = [9; 4];
        assert_eq!(rt;
            put_back(
                2,
                2,
                10,
                &[0, 3, 9, 6],
                &[7, 9, 7, 9],
                &[7, 2, 9, 9],
                &mut room,
            ),
            Done::Back(20)
        );
    }

    // Two squares side by side are off, one each way, and the step between them is dear: it is cheaper to join each to the outside
    // than to the nearest.
    #[test]
    fn the_nearest_is_not_the_cheapest(rt: HostRuntime) {
        let seen = [6, 9, 0, 7, 3, 6];
        assert_eq!(rt; residues(3, 2, &seen), Some(2));
        let mut room = [9; 6];
        assert_eq!(rt; at_one_price(3, 2, &seen, &mut room), Done::Back(10));
        let ones = [1, 1, 1, 1, 1, 1];
        assert_eq!(rt;
            put_back(3, 2, 10, &seen, &ones, &[1, 100, 1, 1, 1, 1], &mut room),
            Done::Back(20)
        );
    }

    // Free steps make the first square one with the outside. What the second is off by goes out at the cheapest of its steps, and
    // on to the first for nothing.
    #[test]
    fn free_steps_join_squares(rt: HostRuntime) {
        let mut room = [9; 6];
        assert_eq!(rt;
            put_back(
                3,
                2,
                10,
                &[6, 9, 0, 7, 3, 6],
                &[0, 3, 1, 0, 6, 1],
                &[5, 4, 6, 1, 1, 1],
                &mut room,
            ),
            Done::Back(30)
        );
        assert!(rt; room[0] == 0);
    }

    // A column alone goes past a turn.
    #[test]
    fn columns_count(rt: HostRuntime) {
        let mut room = [9; 2];
        assert_eq!(rt; at_one_price(1, 2, &[9, 1], &mut room), Done::Back(0));
        assert!(rt; room == [0, 1]);
    }

    // Turns may be below 0.
    #[test]
    fn turns_below_nothing(rt: HostRuntime) {
        let mut room = [9; 2];
        assert_eq!(rt; at_one_price(2, 1, &[1, 9], &mut room), Done::Back(0));
        assert!(rt; room == [0, -1]);
    }

    #[test]
    fn the_first_reason_counts(rt: HostRuntime) {
        let mut room = [9; 2];
        assert_eq!(rt;
            put_back(0, 65, 1, &[], &[], &[], &mut room),
            Done::Refused(1)
        );
        assert_eq!(rt;
            put_back(2, 1, 10, &[0, 10], &[1001], &[], &mut room),
            Done::Refused(2)
        );
        assert_eq!(rt;
            put_back(2, 1, 10, &[0, 9], &[1, 1001], &[1], &mut room),
            Done::Refused(3)
        );
        assert_eq!(rt;
            put_back(1, 1, 10, &[0], &[1], &[1], &mut room),
            Done::Refused(4)
        );
        assert!(rt; room == [9, 9]);
    }
}
