//! What is asked of each row of a table's tree.
ghost use Rattle.std.specs.Prelude.{◌≡◌};
ghost use Rattle.tree_shape.specs.Entries.{FormOfRows};

use vo_spec::{RowPart, Schema};

/// A form of rows. A type that has it holds nothing: it names what is asked.
pub trait RowForm {
    /// Whether a row has the form, by the table's schema.
    ghost row_form: { FormOfRows };

    fn has_row_form(schema: &Schema, row: &RowPart<'_>) -> bool
        ensures { result ≡ row_form schema.now row.now };
}
