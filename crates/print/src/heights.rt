// Heights: what was seen with its turns put back.
ghost use Rattle.std.specs.Prelude.{◌≡◌, pos, ◌+ℤ◌, ◌*ℤ◌, IfOk};
ghost use Rattle.std.specs.Int.{saturate_to_bits};
ghost use Rattle.print.specs.Heights.{heights_of};

use std::alloc::{AllocError, Global};

// A number in the range of heights, the nearest where it is too large or too small. After `clamp` the cast loses nothing.
fn clamped(z: i128) -> i64
    ensures { result ≡ saturate_to_bits 63 z }
{
    z.clamp(i128::from(i64::MIN), i128::from(i64::MAX)) as i64
}

/// What was seen and so many turns.
pub fn height(turn: u32, seen: u32, turns: i64) -> i64
    ensures { result ≡ saturate_to_bits 63 (pos seen +ℤ (turns *ℤ pos turn)) }
{
    clamped(i128::from(seen) + i128::from(turns) * i128::from(turn))
}

/// The heights of all places.
pub fn heights_of(
    heap: Global,
    turn: u32,
    seen: &[u32],
    turns: &[i64],
) -> Result<Vec<i64>, AllocError>
    ensures { IfOk result (λ v. v.items ≡ heights_of turn seen.now turns.now) }
{
    let mut heights = Vec::new(heap);
    for (s, k) in seen.iter().zip(turns) {
        heights.push(height(turn, *s, *k))?;
    }
    Ok(heights)
}
