// A field as it is lent, and whether it is taken.
ghost use Rattle.std.specs.Prelude.{◌≡◌, ◌≤◌, IfNone, IfSome};
ghost use Rattle.phase_input.specs.Input.{wrong_size, verdict};
ghost use Rattle.phase_input.specs.Verdict.{IsVerdict, RightList, WrongFirst};

use crate::refusal::{Dimension, Refusal};

/// A field as it is lent: how many places it is wide and high, how many units a turn has, and a list each, row by row from the upper left,
/// of what was seen and of the prices of the steps to the right and down.
#[derive(Clone, Copy)]
pub struct Input<'s, 'r, 'b> {
    pub wide: u64,
    pub high: u64,
    pub turn: u64,
    pub seen: &'s [u32],
    pub right: &'r [u32],
    pub below: &'b [u32],
}

/// Which of the three isn't right: a field is 1 to 64 wide and high, and a turn has 2 to 65,536 units.
pub fn wrong_dimension(wide: u64, high: u64, turn: u64) -> Option<Dimension>
    ensures { result ≡ wrong_size wide high turn }
{
    if !(1..=64).contains(&wide) {
        return Some(Dimension::Wide);
    }
    if !(1..=64).contains(&high) {
        return Some(Dimension::High);
    }
    if !(2..=65536).contains(&turn) {
        return Some(Dimension::Turn);
    }
    None
}

/// The first place at which a list isn't one number below the bound for each of so many places.
pub fn first_wrong(list: &[u32], places: u64, bound: u64) -> Option<u64>
    ensures right { IfNone result (RightList places bound list.now) }
    ensures wrong { IfSome result (WrongFirst places bound list.now) }
{
    for (i, x) in list.iter().enumerate() {
        if i as u64 >= places || u64::from(*x) >= bound {
            return Some(i as u64);
        }
    }
    if (list.len() as u64) < places {
        return Some(list.len() as u64);
    }
    None
}

impl Input<'_, '_, '_> {
    ghost use Rattle.phase_input.specs.Lent.{input_of};

    // The same as `verdict`, in words.
    fn first_reason(&self, room: u64) -> Option<Refusal>
        ensures { IsVerdict (input_of self.now room) result }
    {
        if let Some(dimension) = wrong_dimension(self.wide, self.high, self.turn) {
            return Some(Refusal::Size(dimension));
        }
        let places = self.wide * self.high;
        if let Some(place) = first_wrong(self.seen, places, self.turn) {
            return Some(Refusal::Seen(place));
        }
        if let Some(place) = first_wrong(self.right, places, 1001) {
            return Some(Refusal::Price(place));
        }
        if let Some(place) = first_wrong(self.below, places, 1001) {
            return Some(Refusal::Price(places + place));
        }
        if room != places {
            return Some(Refusal::Room(room));
        }
        None
    }

    /// Why the field, with a room of so many numbers for its turns, is refused: the first reason that applies.
    pub fn verdict(&self, room: u64) -> Option<Refusal>
        ensures value { result ≡ verdict (input_of self.now room) }
        ensures words { IsVerdict (input_of self.now room) result }
    {
        self.first_reason(room)
    }
}
