//! New rows, of a full list of values.
ghost use Rattle.std.specs.Prelude.{◌≡◌, remove, IfOk};
ghost use Rattle.vo_spec.specs.Values.{key_of};
ghost use Rattle.vo_spec.specs.Tables.{row_of, value_at};

use crate::copies::copy_onto;
use row_bytes::key_of;
use std::alloc::{AllocError, Global};
use vo_spec::{Key, List, Row, Schema, Value};

/// The key of the value of this number, past the end that of FALSE.
pub fn key_at(alloc: Global, values: &[Value], number: usize) -> Result<Key, AllocError>
    ensures { IfOk result (λ key. key ≡ key_of (value_at values.now number)) }
{
    match values.get(number) {
        Some(value) => key_of(alloc, value),
        None => key_of(alloc, &Value::Bool(false)),
    }
}

/// The values but for that of this number.
fn others(alloc: Global, values: &[Value], number: usize) -> Result<List<Value>, AllocError>
    ensures { IfOk result (λ cells. cells ≡ remove values.now number) }
{
    let mut cells = Vec::with_capacity(alloc, values.len())?;
    if number < values.len() {
        copy_onto(alloc, &mut cells, &values[..number])?;
        copy_onto(alloc, &mut cells, &values[number + 1..])?;
    } else {
        copy_onto(alloc, &mut cells, values)?;
    }
    Ok(List::from_vec(cells))
}

/// The row of a full list of values.
pub fn row_of(alloc: Global, schema: &Schema, values: &[Value]) -> Result<Row, AllocError>
    ensures { IfOk result (λ row. row ≡ row_of schema.now values.now) }
{
    let number = schema.key as usize;
    Ok(Row {
        key: key_at(alloc, values, number)?,
        cells: others(alloc, values, number)?,
    })
}
