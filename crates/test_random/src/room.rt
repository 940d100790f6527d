// A room that was not taken.
ghost use Rattle.std.specs.Prelude.{◌↔◌, IsTrue};
ghost use Rattle.test_random.specs.Left.{LeftAlone};

use unwrap::Done;

/// Whether a room that was not taken was turned away as such, and left with its marks.
pub fn left_alone(done: Done, room: &[i64], mark: i64) -> bool
    ensures { IsTrue result ↔ LeftAlone done room.now mark }
{
    // 4 is the number of a room of another length.
    done == Done::Refused(4) && room.iter().all(|turns| *turns == mark)
}
