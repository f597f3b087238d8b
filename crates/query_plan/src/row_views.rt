//! Rows as the value of each column.
ghost use Rattle.std.specs.Prelude.{◌≡◌, ℕ};
ghost use Rattle.vo_spec.specs.declared.values.Value.{Value as Plain};
ghost use Rattle.vo_spec.specs.Lent.{value_of};
ghost use Rattle.vo_spec.specs.Tables.{value_at};

use vo_spec::{Value, ValueRef};

/// A row of one source, as the value of each column.
pub trait RowView {
    ghost row_view: { Self → ℕ → Plain };

    /// The value of the column of this number.
    fn field(&self, column: usize) -> ValueRef<'_>
        ensures { value_of result ≡ row_view self.now column };
}

/// The value of this number, past the end FALSE.
pub fn value_at(values: &[Value], number: usize) -> ValueRef<'_>
    ensures { value_of result ≡ value_at values.now number }
{
    match values.get(number) {
        Some(value) => value.as_ref(),
        None => ValueRef::Bool(false),
    }
}
