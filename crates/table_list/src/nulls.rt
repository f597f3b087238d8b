//! Where NULL may stand.
ghost use Rattle.std.specs.Prelude.{◌≡◌};
ghost use Rattle.vo_spec.specs.Lent.{value_of};
ghost use Rattle.vo_spec.specs.Values.{is_null};
ghost use Rattle.vo_spec.specs.Tables.{column_at, column_named, value_at, allows, allow_each};

use crate::columns::column_number;
use vo_spec::{Column, Value, ValueRef};

/// Whether the column may have the value, as far as NULL goes.
// Inlined: asked of each cell that is shown.
#[inline(always)]
pub fn allows(column: &Column, value: ValueRef<'_>) -> bool
    ensures { result ≡ allows column.now (value_of value.entry) }
{
    column.nullable || !value.is_null()
}

/// Whether the column of this number is nullable. Past the end none is.
pub fn is_nullable_at(columns: &[Column], number: usize) -> bool
    ensures { result ≡ (column_at columns.now number).nullable }
{
    match columns.get(number) {
        Some(column) => column.nullable,
        None => false,
    }
}

/// Whether the column of this name may have the value, as far as NULL goes.
pub(crate) fn named_allows(columns: &[Column], name: &[u8], value: &Value) -> bool
    ensures { result ≡ allows (column_named columns.now name.now) value.now }
{
    is_nullable_at(columns, column_number(columns, name)) || !value.is_null()
}

/// Whether each column may have its value, as far as NULL goes, column by column.
pub(crate) fn allow_each(columns: &[Column], values: &[Value]) -> bool
    ensures { result ≡ allow_each columns.now values.now }
{
    for (column, value) in columns.iter().zip(values) {
        if !allows(column, value.as_ref()) {
            return false;
        }
    }
    true
}

/// Whether the value of this number is NULL. Past the end none is.
pub(crate) fn is_null_at(values: &[Value], number: usize) -> bool
    ensures { result ≡ is_null (value_at values.now number) }
{
    match values.get(number) {
        Some(value) => value.is_null(),
        None => false,
    }
}
