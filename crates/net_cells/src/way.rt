// The ways out of a cell.
ghost use Rattle.std.specs.Prelude.{◌≡◌};
ghost use Rattle.net_cells.specs.Net.{back};

/// One of the four ways out of a cell, each to a neighbour.
#[derive(Clone, Copy, PartialEq, Eq, Debug)]
pub enum Way {
    Right,
    Left,
    Up,
    Down,
}

impl Way {
    ghost use Rattle.net_cells.specs.Lists.{number};

    /// The same step the other way.
    #[inline(always)]
    #[tactic(auto, unfolding(crate::specs::Net::back))]
    pub fn back(self) -> Way
        ensures { number result ≡ back (number self) }
    {
        match self {
            Way::Right => Way::Left,
            Way::Left => Way::Right,
            Way::Up => Way::Down,
            Way::Down => Way::Up,
        }
    }
}
