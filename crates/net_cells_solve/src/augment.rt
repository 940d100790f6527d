// One search, and what it found.
ghost use Rattle.std.specs.Prelude.{◌≡◌, ◌<◌, length, true, pos, ◌≤ℤ◌, ◌<ℤ◌};
ghost use Rattle.net_cells.specs.Fenced.{Fenced};
ghost use Rattle.net_cells.specs.Lists.{inner_of, excess_in};
ghost use Rattle.net_cells.specs.Sound.{Sound, Later, left_in};
ghost use Rattle.net_cells_search.specs.Marks.{far, Blank};
ghost use Rattle.net_cells_search.specs.Room.{RoomFor};

use crate::walk::{most, send};
use net_cells::{Cell, Costs, Flows, Side};
use net_cells_search::Room;

// Searches for an end nearer than `within`, and sends there what can go along one way. Whether there is one.
pub(crate) fn augment(
    cells: &mut [Cell],
    flows: &mut [Flows],
    costs: &mut [Costs],
    side: Side,
    room: &mut Room,
    source: usize,
    within: i32,
) -> bool
    requires fenced { Fenced cells.old costs.old side }
    requires sound { Sound cells.old flows.old costs.old side }
    requires room { RoomFor (length cells.old) room.old }
    requires blank { Blank room.old.marks.now }
    requires cell { source < length cells.old }
    requires inner { inner_of cells.old source ≡ true }
    requires excess { pos 0 <ℤ excess_in cells.old side source }
    requires ahead { pos 0 ≤ℤ within }
    requires near { within ≤ℤ far }
    ensures fenced { Fenced cells.new costs.new side }
    ensures sound { Sound cells.new flows.new costs.new side }
    ensures room { RoomFor (length cells.new) room.new }
    ensures blank { Blank room.new.marks.now }
    ensures later { Later cells.old cells.new flows.old flows.new costs.old costs.new side }
    ensures less { result ≡ true → left_in cells.new side < left_in cells.old side }
    ensures everywhere { within ≡ far → result ≡ true }
{
    match room.search(cells, costs, side, source, within) {
        Some(target) => {
            let amount = most(cells, flows, room, side, source, target);
            send(cells, flows, costs, room, side, source, target, amount);
            true
        }
        None => false,
    }
}
