//! Taking the columns of a table.
ghost use Rattle.std.specs.Prelude.{◌≡◌};
ghost use Rattle.row_bytes.specs.Fields.{Found, FoundOr, kind_of_byte, type_of_byte, kind_at, type_at, column_at, count_at, columns_at, times};

use crate::cursor::Cursor;
use crate::read_fault::ReadFault;
use std::alloc::Global;
use vo_spec::{Column, Kind, List, MAX_COLUMNS, Name};

// What a nullable column's byte has above that of its kind.
const NULLABLE: u8 = 128;

fn kind_of_byte(byte: u8) -> Option<Kind>
    ensures { result ≡ kind_of_byte byte }
{
    match byte {
        1 => Some(Kind::Int),
        2 => Some(Kind::Text),
        3 => Some(Kind::Bool),
        _ => None,
    }
}

/// The kind that the next byte stands for.
#[tactic(auto, unfolding(crate::specs::Fields::kind_at))]
pub fn take_kind(cursor: &mut Cursor<'_>) -> Option<Kind>
    ensures { Found (λ kind. kind) result cursor.old cursor.new (kind_at cursor.old) }
{
    let mut ahead = cursor.copy();
    let kind = kind_of_byte(ahead.take_byte()?)?;
    *cursor = ahead;
    Some(kind)
}

/// The kind that a byte stands for, and whether the column is nullable, as the highest bit says.
fn type_of_byte(byte: u8) -> Option<(Kind, bool)>
    ensures { result ≡ type_of_byte byte }
{
    if byte < NULLABLE {
        return Some((kind_of_byte(byte)?, false));
    }
    Some((kind_of_byte(byte - NULLABLE)?, true))
}

#[tactic(auto, unfolding(crate::specs::Fields::type_at))]
fn take_type(cursor: &mut Cursor<'_>) -> Option<(Kind, bool)>
    ensures { Found (λ of. of) result cursor.old cursor.new (type_at cursor.old) }
{
    let mut ahead = cursor.copy();
    let found = type_of_byte(ahead.take_byte()?)?;
    *cursor = ahead;
    Some(found)
}

/// How many things of a list come next: 1 to 32.
#[tactic(auto, unfolding(crate::specs::Fields::count_at))]
pub fn take_count(cursor: &mut Cursor<'_>) -> Option<u8>
    ensures { Found (λ count. count) result cursor.old cursor.new (count_at cursor.old) }
{
    let mut ahead = cursor.copy();
    let count = ahead.take_byte()?;
    if count < 1 || MAX_COLUMNS < count as usize {
        return None;
    }
    *cursor = ahead;
    Some(count)
}

#[tactic(auto, unfolding(crate::specs::Fields::column_at))]
fn take_column(alloc: Global, cursor: &mut Cursor<'_>) -> Result<Column, ReadFault>
    ensures { FoundOr (λ column. column) result cursor.old cursor.new (column_at cursor.old) }
{
    let mut ahead = cursor.copy();
    let name = ahead.take_name().ok_or(ReadFault::BadForm)?;
    let (kind, nullable) = take_type(&mut ahead).ok_or(ReadFault::BadForm)?;
    let name = Name::from_vec(Vec::from_slice(alloc, name)?);
    *cursor = ahead;
    Ok(Column {
        name,
        kind,
        nullable,
    })
}

/// A list of 1 to 32 columns.
#[tactic(auto, unfolding(crate::specs::Fields::columns_at))]
pub fn take_columns(alloc: Global, cursor: &mut Cursor<'_>) -> Result<List<Column>, ReadFault>
    ensures { FoundOr (λ columns. columns) result cursor.old cursor.new (columns_at cursor.old) }
{
    let mut ahead = cursor.copy();
    let count = take_count(&mut ahead).ok_or(ReadFault::BadForm)?;
    let columns = take_each(alloc, &mut ahead, count)?;
    *cursor = ahead;
    Ok(List::from_vec(columns))
}

fn take_each(alloc: Global, cursor: &mut Cursor<'_>, count: u8) -> Result<Vec<Column>, ReadFault>
    ensures { FoundOr (λ columns. columns.items) result cursor.old cursor.new
        (times column_at count cursor.old) }
{
    let mut ahead = cursor.copy();
    let mut columns = Vec::new(alloc);
    for _ in 0..count {
        match take_column(alloc, &mut ahead) {
            Ok(column) => columns.push(column)?,
            Err(fault) => return Err(fault),
        }
    }
    *cursor = ahead;
    Ok(columns)
}
