// What is known of a cell. A row of cells is as long as the next, and cells are numbered row by row, so the numbers of neighbours are told
// from a cell's own.
use crate::way::Way;

/// Farther than any way that a search follows.
pub const FAR: i32 = 1 << 30;

/// A cell: what it has in excess, or lacks where that is below 0, its potential, and whether it is one of the net's own. All others are
/// outside: they take and give whatever comes, and their potential is 0.
#[derive(Clone, Copy, PartialEq, Eq, Debug, Default)]
pub struct Cell {
    pub excess: i64,
    pub potential: i32,
    pub inner: bool,
}

/// What a unit more costs by each way out of a cell: the edge's price, or minus that where flow comes the other way.
#[derive(Clone, Copy, PartialEq, Eq, Debug, Default)]
pub struct Costs {
    pub right: i16,
    pub left: i16,
    pub up: i16,
    pub down: i16,
}

/// What flows from a cell to its right neighbour, and to the one above.
#[derive(Clone, Copy, PartialEq, Eq, Debug, Default)]
pub struct Flows {
    pub right: i64,
    pub up: i64,
}

/// What a search knows of a cell: how far it is from the source, `FAR` where it was not met; the last step to it; and whether it waits to
/// be scanned.
#[derive(Clone, Copy, PartialEq, Eq, Debug)]
pub struct Mark {
    pub label: i32,
    pub way: Way,
    pub waits: bool,
}

impl Mark {
    /// Of a cell that was not met.
    pub const BLANK: Mark = Mark {
        label: FAR,
        way: Way::Right,
        waits: false,
    };
}
