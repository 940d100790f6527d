// Plain pictures of grey: the least number is black, and the greatest white.
#![tactic(auto)]

ghost use Rattle.std.specs.Prelude.{◌≡◌, ◌<◌, ◌↔◌, [], map, pos, ◌≤ℤ◌, IfOk, IfSome, IsNone, Contains, All, string_bytes};
ghost use Rattle.pictures.specs.Picture.{scaled, shade, least, greatest, shades, head_text, picture_text, NeverDarker};

use print::rows::{Parting, push_rows};
use std::alloc::{AllocError, Global};

// So much of a span, of 255.
fn part_of(part: u64, span: u64) -> u8
    ensures { result ≡ scaled part span }
{
    if span == 0 {
        return 0;
    }
    if part >= span {
        return 255;
    }
    // A part less than the whole: the cast loses nothing.
    (u128::from(part) * 255 / u128::from(span)) as u8
}

/// The shade of a number between the least and the greatest.
pub fn shade_of(low: i64, high: i64, z: i64) -> u8
    ensures { result ≡ shade low high z }
{
    part_of(z.abs_diff(low), high.abs_diff(low))
}

// The least of the numbers; None where there are none.
fn lowest(values: &[i64]) -> Option<i64>
    ensures none { IsNone result ↔ (values.now ≡ []) }
    ensures one { IfSome result (Contains values.now) }
    ensures least { IfSome result (λ low. All (λ z. low ≤ℤ z) values.now) }
{
    values.iter().copied().min()
}

/// The least of the numbers, 0 where there are none.
pub fn least_of(values: &[i64]) -> i64
    ensures { result ≡ least values.now }
{
    lowest(values).unwrap_or(0)
}

// The greatest of the numbers; None where there are none.
fn highest(values: &[i64]) -> Option<i64>
    ensures none { IsNone result ↔ (values.now ≡ []) }
    ensures one { IfSome result (Contains values.now) }
    ensures greatest { IfSome result (λ high. All (λ z. z ≤ℤ high) values.now) }
{
    values.iter().copied().max()
}

/// The greatest of the numbers, 0 where there are none.
pub fn greatest_of(values: &[i64]) -> i64
    ensures { result ≡ greatest values.now }
{
    highest(values).unwrap_or(0)
}

// The shades of numbers between the least and the greatest.
fn shades_of(heap: Global, low: i64, high: i64, values: &[i64]) -> Result<Vec<i64>, AllocError>
    ensures { IfOk result (λ v. v.items ≡ shades low high values.now) }
{
    values
        .iter()
        .map(|z| i64::from(shade_of(low, high, *z)))
        .collect(heap)
}

// The first lines of a picture: a text of its own, so `format!`.
fn head_of(heap: Global, wide: usize, high: usize) -> Result<String, AllocError>
    ensures { IfOk result (λ s. string_bytes s ≡ head_text wide high) }
{
    format!(in heap; "P2\n{wide} {high}\n255\n")
}

/// A picture of numbers, so many wide and high.
pub fn picture(heap: Global, wide: usize, high: usize, values: &[i64]) -> Result<String, AllocError>
    ensures { IfOk result (λ s. string_bytes s ≡ picture_text wide high values.now) }
{
    let shades = shades_of(heap, least_of(values), greatest_of(values), values)?;
    let mut out = head_of(heap, wide, high)?;
    push_rows(&mut out, Parting::Space, wide, high, shades.as_slice())?;
    Ok(out)
}

/// What was seen, as numbers of a picture.
pub fn numbers_of(heap: Global, seen: &[u32]) -> Result<Vec<i64>, AllocError>
    ensures { IfOk result (λ v. v.items ≡ map pos seen.now) }
{
    seen.iter().map(|n| i64::from(*n)).collect(heap)
}

/// Shades are 255 at most, and what is higher is never darker.
pub fn never_darker()
    ensures { NeverDarker }
{}
