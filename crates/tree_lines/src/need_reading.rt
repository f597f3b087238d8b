//! Needs as bytes.
//!
//! The lower bound and the upper one, each its kind (0 none, 1 inclusive, 2 exclusive) and, if it
//! is one, its key behind the length; and the columns behind their number.
use crate::part_reading::{at_end, both};
use row_bytes::{Cursor, ReadFault};
use std::alloc::Global;
use vo_spec::{Bound, Interval, Key, Need, SharedList};

/// The need that all the bytes are.
pub fn read_need(alloc: Global, bytes: &[u8]) -> Result<Need, ReadFault> {
    let mut cursor = Cursor::new(bytes);
    let need = take_need(alloc, &mut cursor)?;
    at_end(&cursor, need)
}

/// The needs that all the bytes are, one behind the other.
pub fn read_needs(alloc: Global, bytes: &[u8]) -> Result<Vec<Need>, ReadFault> {
    let mut cursor = Cursor::new(bytes);
    let mut needs = Vec::new(alloc);
    for _ in 0..bytes.len() {
        if cursor.is_empty() {
            break;
        }
        needs.push(take_need(alloc, &mut cursor)?)?;
    }
    Ok(needs)
}

fn take_need(alloc: Global, cursor: &mut Cursor<'_>) -> Result<Need, ReadFault> {
    let interval = take_interval(alloc, cursor)?;
    match take_columns(alloc, cursor) {
        Ok(columns) => Ok(Need { interval, columns }),
        Err(fault) => {
            drop(interval);
            Err(fault)
        }
    }
}

fn take_interval(alloc: Global, cursor: &mut Cursor<'_>) -> Result<Interval, ReadFault> {
    let low = take_bound(alloc, cursor)?;
    let (low, high) = both(low, take_bound(alloc, cursor))?;
    Ok(Interval { low, high })
}

fn take_columns(alloc: Global, cursor: &mut Cursor<'_>) -> Result<SharedList<u8>, ReadFault> {
    let count = cursor.take_byte().ok_or(ReadFault::BadForm)?;
    let columns = cursor.take_bytes(count as usize).ok_or(ReadFault::BadForm)?;
    Ok(SharedList::new(alloc, Vec::from_slice(alloc, columns)?)?)
}

fn take_bound(alloc: Global, cursor: &mut Cursor<'_>) -> Result<Bound, ReadFault> {
    match cursor.take_byte() {
        Some(0) => Ok(Bound::Absent),
        Some(1) => Ok(Bound::Inclusive(take_key(alloc, cursor)?)),
        Some(2) => Ok(Bound::Exclusive(take_key(alloc, cursor)?)),
        _ => Err(ReadFault::BadForm),
    }
}

fn take_key(alloc: Global, cursor: &mut Cursor<'_>) -> Result<Key, ReadFault> {
    let key = cursor.take_string().ok_or(ReadFault::BadForm)?;
    Ok(Key::from_vec(Vec::from_slice(alloc, key)?))
}
