// Rows of numbers, and the cost.
ghost use Rattle.std.specs.Prelude.{◌≡◌, ◌∷◌, ◌++◌, string_bytes, OnOk};
ghost use Rattle.std.specs.Fmt.{signed_decimal};
ghost use Rattle.print.specs.Rows.{code_of, more_text, row_text, rows_text, cost_text};

use std::alloc::AllocError;
use text_words::pieces::parted;

/// What parts the numbers of a row.
#[derive(Clone, Copy, PartialEq, Eq, Debug)]
pub enum Parting {
    Space,
    Comma,
}

// Adds a number after what parts it from the one before.
fn push_parted(out: &mut String, parting: Parting, z: i64) -> Result<(), AllocError>
    ensures { OnOk result (string_bytes out.new ≡
        string_bytes out.old ++ (code_of parting ∷ signed_decimal z)) }
{
    match parting {
        Parting::Space => write!(out, " {z}"),
        Parting::Comma => write!(out, ",{z}"),
    }
}

// Adds the numbers, each after what parts it from the one before.
fn push_more(out: &mut String, parting: Parting, row: &[i64]) -> Result<(), AllocError>
    ensures { OnOk result (string_bytes out.new ≡
        string_bytes out.old ++ more_text parting row.now) }
{
    for z in row {
        push_parted(out, parting, *z)?;
    }
    Ok(())
}

/// Adds a row of numbers.
pub fn push_row(out: &mut String, parting: Parting, row: &[i64]) -> Result<(), AllocError>
    ensures { OnOk result (string_bytes out.new ≡
        string_bytes out.old ++ row_text parting row.now) }
{
    let Some((first, others)) = row.split_first() else {
        return Ok(());
    };
    write!(out, "{first}")?;
    push_more(out, parting, others)
}

/// Adds so many rows of numbers, a line each.
pub fn push_rows(
    out: &mut String,
    parting: Parting,
    wide: usize,
    high: usize,
    list: &[i64],
) -> Result<(), AllocError>
    ensures { OnOk result (string_bytes out.new ≡
        string_bytes out.old ++ rows_text parting wide high list.now) }
{
    let mut rest = list;
    // So many times: a row may be empty, so the list does not tell how many there are.
    for _y in 0..high {
        let (row, after) = parted(rest, wide);
        push_row(out, parting, row)?;
        writeln!(out)?;
        rest = after;
    }
    Ok(())
}

/// Adds the line of a cost.
pub fn push_cost(out: &mut String, cost: u64) -> Result<(), AllocError>
    ensures { OnOk result (string_bytes out.new ≡ string_bytes out.old ++ cost_text cost) }
{
    writeln!(out, "cost {cost}")
}
