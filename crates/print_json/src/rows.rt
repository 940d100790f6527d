// Rows of numbers as JSON.
ghost use Rattle.std.specs.Prelude.{◌≡◌, IfOk};
ghost use Rattle.serde_json.specs.View.{view};
ghost use Rattle.print_json.specs.Rows.{number_data, row_data, rows_data};

use serde_json::Value;
use std::alloc::{AllocError, Global};
use text_words::pieces::parted;

fn number_value(z: i64) -> Value
    ensures { view result ≡ number_data z }
{
    Value::from(z)
}

// A row of numbers.
fn row_value(heap: Global, row: &[i64]) -> Result<Value, AllocError>
    ensures { IfOk result (λ v. view v ≡ row_data row.now) }
{
    let mut values = Vec::new(heap);
    for z in row {
        values.push(number_value(*z))?;
    }
    Ok(Value::from(values))
}

/// So many rows of numbers.
pub fn rows_value(heap: Global, wide: usize, high: usize, list: &[i64]) -> Result<Value, AllocError>
    ensures { IfOk result (λ v. view v ≡ rows_data wide high list.now) }
{
    let mut rows = Vec::new(heap);
    let mut rest = list;
    for _y in 0..high {
        let (row, after) = parted(rest, wide);
        rows.push(row_value(heap, row)?)?;
        rest = after;
    }
    Ok(Value::from(rows))
}
