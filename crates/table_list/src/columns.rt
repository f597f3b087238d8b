//! Columns by their names.
ghost use Rattle.std.specs.Prelude.{◌≡◌, ◌≤◌, length, map, bytes_eq, IfOk};
ghost use Rattle.std.specs.List.{list_any};
ghost use Rattle.vo_spec.specs.Tables.{column_at, column_number, has_column, is_key, suits, are_of_kinds, has_twice, is_bad_schema};
ghost use Rattle.vo_spec.specs.Values.{same_kind, is_of_kind};
ghost use Rattle.vo_spec.specs.Checks.{key_kind};
ghost use Rattle.vo_spec.specs.Lent.{value_of};
ghost use Rattle.vo_spec.specs.Batches.{max_columns};

use crate::nulls::is_nullable_at;
use std::alloc::{AllocError, Global};
use vo_spec::{Column, Kind, List, Name, Schema, Value, ValueRef};

/// The number of the column of this name, or else how many there are.
pub fn column_number(columns: &[Column], name: &[u8]) -> usize
    ensures number { result ≡ column_number columns.now name.now }
    ensures bound { result ≤ length columns.now }
{
    let mut number = 0;
    for column in columns {
        if column.name.as_bytes() == name {
            return number;
        }
        number += 1;
    }
    number
}

pub fn has_column(columns: &[Column], name: &[u8]) -> bool
    ensures { result ≡ has_column columns.now name.now }
{
    column_number(columns, name) < columns.len()
}

pub(crate) fn is_key(schema: &Schema, name: &[u8]) -> bool
    ensures { result ≡ is_key schema.now name.now }
{
    column_number(schema.columns.as_slice(), name) == schema.key as usize
}

pub fn same_kind(a: Kind, b: Kind) -> bool
    ensures { result ≡ same_kind a b }
{
    matches!(
        (a, b),
        (Kind::Int, Kind::Int) | (Kind::Text, Kind::Text) | (Kind::Bool, Kind::Bool)
    )
}

/// Whether the value is of the kind. NULL is of each.
// Inlined: asked of each cell that is shown.
#[inline(always)]
pub fn takes(kind: Kind, value: ValueRef<'_>) -> bool
    ensures { result ≡ is_of_kind kind (value_of value.entry) }
{
    matches!(
        (kind, value),
        (_, ValueRef::Null)
            | (Kind::Int, ValueRef::Int(_))
            | (Kind::Text, ValueRef::Text(_))
            | (Kind::Bool, ValueRef::Bool(_))
    )
}

/// The kind of the column of this number, past the end BIGINT.
pub fn kind_at(columns: &[Column], number: usize) -> Kind
    ensures { result ≡ (column_at columns.now number).kind }
{
    match columns.get(number) {
        Some(column) => column.kind,
        None => Kind::Int,
    }
}

/// The kind of the schema's key.
pub fn key_kind(schema: &Schema) -> Kind
    ensures { result ≡ key_kind schema.now }
{
    kind_at(schema.columns.as_slice(), schema.key as usize)
}

/// The name of the column of this number, past the end nothing.
pub fn name_at(columns: &[Column], number: usize) -> &[u8]
    ensures { result.now ≡ (column_at columns.now number).name }
{
    match columns.get(number) {
        Some(column) => column.name.as_bytes(),
        None => &[],
    }
}

/// Whether the value is of the kind of the column of this name.
pub(crate) fn suits(columns: &[Column], name: &[u8], value: &Value) -> bool
    ensures { result ≡ suits columns.now name.now value.now }
{
    takes(
        kind_at(columns, column_number(columns, name)),
        value.as_ref(),
    )
}

#[tactic(auto, using(crate::proofs::KindLaws::unlike_lengths))]
/// Whether each value is of its column's kind, column by column.
pub(crate) fn are_of_kinds(columns: &[Column], values: &[Value]) -> bool
    ensures { result ≡ are_of_kinds columns.now values.now }
{
    if columns.len() != values.len() {
        return false;
    }
    for (number, column) in columns.iter().enumerate() {
        if !takes(column.kind, values[number].as_ref()) {
            return false;
        }
    }
    true
}

fn is_named(columns: &[Column], name: &[u8]) -> bool
    ensures { result ≡ list_any (bytes_eq name.now) (map (λ c. c.name) columns.now) }
{
    for column in columns {
        if name == column.name.as_bytes() {
            return true;
        }
    }
    false
}

/// Whether two columns have one name.
pub fn has_twice(columns: &[Column]) -> bool
    ensures { result ≡ has_twice (map (λ c. c.name) columns.now) }
{
    for (number, column) in columns.iter().enumerate() {
        if is_named(&columns[number + 1..], column.name.as_bytes()) {
            return true;
        }
    }
    false
}

/// Whether this is no schema: two columns of one name, or a key that is no column, a BOOLEAN or
/// nullable.
pub(crate) fn is_bad_schema(columns: &[Column], key: &[u8]) -> bool
    ensures { result ≡ is_bad_schema columns.now key.now }
{
    let number = column_number(columns, key);
    has_twice(columns)
        || !has_column(columns, key)
        || same_kind(kind_at(columns, number), Kind::Bool)
        || is_nullable_at(columns, number)
}

fn copy_column(alloc: Global, column: &Column) -> Result<Column, AllocError>
    ensures { IfOk result (λ copy. copy ≡ column.now) }
{
    Ok(Column {
        name: column.name.copy(alloc)?,
        kind: column.kind,
        nullable: column.nullable,
    })
}

/// The columns, each copied.
pub fn copy_columns(alloc: Global, columns: &[Column]) -> Result<List<Column>, AllocError>
    ensures { IfOk result (λ copy. copy ≡ columns.now) }
{
    let mut copy = Vec::with_capacity(alloc, columns.len())?;
    for column in columns {
        copy.push(copy_column(alloc, column)?)?;
    }
    Ok(List::from_vec(copy))
}

/// The schema that a CREATE makes.
pub fn new_schema(alloc: Global, columns: &[Column], key: &[u8]) -> Result<Schema, AllocError>
    requires { length columns.now ≤ max_columns }
    ensures { IfOk result (λ schema. schema ≡ record {
      columns = columns.now;
      key = column_number columns.now key.now;
    }) }
{
    Ok(Schema {
        columns: copy_columns(alloc, columns)?,
        key: column_number(columns, key) as u8,
    })
}
