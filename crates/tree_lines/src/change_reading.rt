//! Changes as bytes.
//!
//! The kind, the key behind its length, and behind their number the values that an insertion gives,
//! or the columns and values that a replacement sets.
ghost use Rattle.std.specs.Prelude.{All, IfOk};
ghost use Rattle.vo_spec.specs.Fits.{FitsCells, FitsKey};
ghost use Rattle.vo_spec.specs.Values.{FitsValue};
ghost use Rattle.mb_update.specs.Sets.{FitsSets};
ghost use Rattle.tree_lines.specs.Fitting.{FitsOp};

use crate::part_reading::at_end;
use mb_update::{Op, SetCell};
use row_bytes::{Cursor, ReadFault, take_value};
use std::alloc::Global;
use vo_spec::{Key, List, MAX_KEY, Row, Value};

/// The change that all the bytes are.
pub fn read_change<'b>(alloc: Global, bytes: &[u8]) -> Result<Op<'b>, ReadFault>
    ensures { IfOk result (λ op. FitsOp op) }
{
    let mut cursor = Cursor::new(bytes);
    let op = take_change(alloc, &mut cursor)?;
    at_end(&cursor, op)
}

/// The changes that all the bytes are, one behind the other.
pub fn read_changes<'b>(alloc: Global, bytes: &[u8]) -> Result<Vec<Op<'b>>, ReadFault>
    ensures { IfOk result (λ ops. All FitsOp ops.items) }
{
    let mut cursor = Cursor::new(bytes);
    let mut ops = Vec::new(alloc);
    for _ in 0..bytes.len() {
        if cursor.is_empty() {
            break;
        }
        ops.push(take_change(alloc, &mut cursor)?)?;
    }
    Ok(ops)
}

fn take_change<'b>(alloc: Global, cursor: &mut Cursor<'_>) -> Result<Op<'b>, ReadFault>
    ensures { IfOk result (λ op. FitsOp op) }
{
    let kind = cursor.take_byte().ok_or(ReadFault::BadForm)?;
    let key = take_key(alloc, cursor)?;
    match kind {
        1 => {
            let cells = take_values(alloc, cursor)?;
            Ok(Op::Insert {
                row: Row { key, cells },
            })
        }
        2 => {
            let sets = take_sets(alloc, cursor)?;
            Ok(Op::Replace { key, sets })
        }
        3 => Ok(Op::Remove { key }),
        _ => Err(ReadFault::BadForm),
    }
}

fn take_key(alloc: Global, cursor: &mut Cursor<'_>) -> Result<Key, ReadFault>
    ensures { IfOk result (λ key. FitsKey key) }
{
    let key = cursor.take_string().ok_or(ReadFault::BadForm)?;
    if key.len() > MAX_KEY {
        return Err(ReadFault::BadForm);
    }
    Ok(Key::from_vec(Vec::from_slice(alloc, key)?))
}

fn take_value_of(alloc: Global, cursor: &mut Cursor<'_>) -> Result<Value, ReadFault>
    ensures { IfOk result (λ value. FitsValue value) }
{
    match take_value(cursor) {
        Ok(value) => Ok(value.to_value(alloc)?),
        Err(_) => Err(ReadFault::BadForm),
    }
}

fn take_values(alloc: Global, cursor: &mut Cursor<'_>) -> Result<List<Value>, ReadFault>
    ensures { IfOk result (λ values. FitsCells values) }
{
    let count = cursor.take_byte().ok_or(ReadFault::BadForm)?;
    if count > 31 {
        return Err(ReadFault::BadForm);
    }
    let mut values = Vec::new(alloc);
    for _ in 0..count {
        values.push(take_value_of(alloc, cursor)?)?;
    }
    Ok(List::from_vec(values))
}

fn take_sets(alloc: Global, cursor: &mut Cursor<'_>) -> Result<List<SetCell>, ReadFault>
    ensures { IfOk result (λ sets. FitsSets sets) }
{
    let count = cursor.take_byte().ok_or(ReadFault::BadForm)?;
    let mut sets = Vec::new(alloc);
    for _ in 0..count {
        sets.push(take_set(alloc, cursor)?)?;
    }
    Ok(List::from_vec(sets))
}

fn take_set(alloc: Global, cursor: &mut Cursor<'_>) -> Result<SetCell, ReadFault>
    ensures { IfOk result (λ set. FitsValue set.value) }
{
    let column = cursor.take_byte().ok_or(ReadFault::BadForm)?;
    let value = take_value_of(alloc, cursor)?;
    Ok(SetCell { column, value })
}
