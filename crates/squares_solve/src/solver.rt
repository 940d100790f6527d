// The flow between squares that costs least.
ghost use Rattle.std.specs.Prelude.{◌≡◌, ℕ, ◌+◌, ◌*◌, ◌^◌, ◌<◌, ◌≤◌, ◌-ℤ◌, ◌+ℤ◌, length, pos, pred, suc, unsigned_abs};
ghost use Rattle.phase_cost.specs.Steps.{residue, NoResidues};
ghost use Rattle.squares_build.specs.Steps.{lent};
ghost use Rattle.squares_build.specs.Cells.{CellsFor, CostsFor};
ghost use Rattle.net_cells_solve.specs.Listing.{Listing};
ghost use Rattle.squares_solve.specs.Solved.{EndedBy, RoomOf};

use crate::start::{first_radius, list_off};
use net_cells::{Cell, Costs, Flows};
use net_cells_search::Room as Search;
use net_cells_solve::settle;
use squares_build::Steps;

/// What the solver works in, as it is lent: for each cell what is known of it, its costs, and what flows out of it; a search; and a list of
/// cells.
#[derive(Drop)]
pub struct Room<'c, 'p, 'f, 'l, 'm, 't, 'h, 's> {
    pub cells: &'c mut [Cell],
    pub costs: &'p mut [Costs],
    pub flows: &'f mut [Flows],
    pub list: &'l mut [u32],
    pub search: Search<'m, 't, 'h, 's>,
}

// Lays out the cells of squares, their costs, and the list of those that have a residue. How many they are.
fn lay_out(steps: &Steps, cells: &mut [Cell], costs: &mut [Costs], list: &mut [u32]) -> usize
    requires cells { length cells.old ≡ (steps.now.high + 1) * (steps.now.wide + 1) }
    requires costs { length costs.old ≡ (steps.now.high + 1) * (steps.now.wide + 1) }
    requires list { length list.old ≡ (steps.now.high + 1) * (steps.now.wide + 1) }
    ensures cells { CellsFor (lent steps.now) cells.new }
    ensures costs { CostsFor (lent steps.now) costs.new }
    ensures count { result ≤ length list.new }
    ensures listed { Listing cells.new list.new result }
{
    steps.fill_cells(cells);
    steps.fill_costs(costs);
    list_off(cells, list)
}

/// Leaves a flow between the squares of steps that costs least in the room.
pub fn solve(steps: &Steps, room: &mut Room)
    requires room { RoomOf ((steps.now.high + 1) * (steps.now.wide + 1)) room.old }
    requires few { (x y : ℕ) → suc x < steps.now.wide → suc y < steps.now.high →
        unsigned_abs (residue (lent steps.now) x y) ≤ 1 }
    requires some { NoResidues (lent steps.now) → ⊥ }
    ensures ended { EndedBy (lent steps.now) room.new.flows.now }
    ensures flows { length room.new.flows.now ≡ length room.old.flows.now }
{
    let count = lay_out(steps, room.cells, room.costs, room.list);
    let stride = steps.stride();
    let first = first_radius(steps);
    settle(
        room.cells,
        room.flows,
        room.costs,
        stride,
        &mut room.search,
        &mut room.list[..count],
        first,
    );
}
