//! The parts of an UPDATE's SET.
ghost use Rattle.std.specs.Prelude.{◌≡◌, ◌&&◌, ◌||◌, not, map, bytes_eq};
ghost use Rattle.std.specs.List.{list_all, list_any};
ghost use Rattle.vo_spec.specs.Values.{is_null};
ghost use Rattle.vo_spec.specs.Tables.{has_column, is_key, suits, has_twice, allows, column_named};

use crate::columns::{has_column, is_key, suits};
use crate::nulls::named_allows;
use vo_spec::{Column, Schema, SetPart, Value};

fn have_set_columns(columns: &[Column], sets: &[SetPart]) -> bool
    ensures { result ≡ list_all (λ s. has_column columns.now s.column) sets.now }
{
    sets.iter()
        .all(|part| has_column(columns, part.column.as_bytes()))
}

/// Whether there are the columns of SET and that of WHERE.
pub(crate) fn have_columns(schema: &Schema, sets: &[SetPart], column: &[u8]) -> bool
    ensures { result ≡ (list_all (λ s. has_column schema.now.columns s.column) sets.now
        && has_column schema.now.columns column.now) }
{
    let columns = schema.columns.as_slice();
    have_set_columns(columns, sets) && has_column(columns, column)
}

fn sets_key(schema: &Schema, sets: &[SetPart]) -> bool
    ensures { result ≡ list_any (λ s. is_key schema.now s.column) sets.now }
{
    sets.iter()
        .any(|part| is_key(schema, part.column.as_bytes()))
}

fn sets_suit(columns: &[Column], sets: &[SetPart]) -> bool
    ensures { result ≡ list_all (λ s. suits columns.now s.column s.value) sets.now }
{
    sets.iter()
        .all(|part| suits(columns, part.column.as_bytes(), &part.value))
}

/// Whether the values of SET and that of WHERE are each of its column's kind.
pub(crate) fn all_suit(schema: &Schema, sets: &[SetPart], column: &[u8], value: &Value) -> bool
    ensures { result ≡ (list_all (λ s. suits schema.now.columns s.column s.value) sets.now
        && suits schema.now.columns column.now value.now) }
{
    let columns = schema.columns.as_slice();
    sets_suit(columns, sets) && suits(columns, column, value)
}

/// Whether each column that is set may have its value, as far as NULL goes.
fn all_allowed(columns: &[Column], sets: &[SetPart]) -> bool
    ensures { result
        ≡ list_all (λ s. allows (column_named columns.now s.column) s.value) sets.now }
{
    sets.iter().all(|part| named_allows(columns, part.column.as_bytes(), &part.value))
}

/// Whether NULL is given for the key, or set in a column that isn't nullable.
pub(crate) fn gives_null(schema: &Schema, sets: &[SetPart], key: &Value) -> bool
    ensures { result ≡ (is_null key.now || not
        (list_all (λ s. allows (column_named schema.now.columns s.column) s.value) sets.now)) }
{
    key.is_null() || !all_allowed(schema.columns.as_slice(), sets)
}

fn is_set(sets: &[SetPart], name: &[u8]) -> bool
    ensures { result ≡ list_any (bytes_eq name.now) (map (λ s. s.column) sets.now) }
{
    for part in sets {
        if name == part.column.as_bytes() {
            return true;
        }
    }
    false
}

/// Whether two parts set one column.
fn sets_twice(sets: &[SetPart]) -> bool
    ensures { result ≡ has_twice (map (λ s. s.column) sets.now) }
{
    for (number, part) in sets.iter().enumerate() {
        if is_set(&sets[number + 1..], part.column.as_bytes()) {
            return true;
        }
    }
    false
}

/// Whether the key is set, or a column twice.
pub(crate) fn is_bad_set(schema: &Schema, sets: &[SetPart]) -> bool
    ensures { result ≡ (list_any (λ s. is_key schema.now s.column) sets.now
        || has_twice (map (λ s. s.column) sets.now)) }
{
    sets_key(schema, sets) || sets_twice(sets)
}
