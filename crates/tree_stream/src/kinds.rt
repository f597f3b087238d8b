//! Whether cells are what a table's columns may hold.
ghost use Rattle.std.specs.Prelude.{◌≡◌};
ghost use Rattle.tree_stream.specs.Findings.{fits_kind as fits_such, shows_kind as shows_such};
ghost use Rattle.tree_stream.specs.Parsing.{cell_of};

use crate::parse::CellToken;
use crate::target::CellKind;
use table_list::takes;

/// Whether the cell of this column shows no value, or one that the column may hold.
// Inlined, as all that is asked of each cell.
#[inline(always)]
pub(crate) fn fits_kind(kinds: &[CellKind], column: u8, cell: &CellToken<'_>) -> bool
    ensures { result ≡ fits_such kinds.now column (cell_of cell.now) }
{
    match kinds.get(usize::from(column)) {
        Some(kind) => shows_kind(*kind, cell),
        None => true,
    }
}

// Inlined, as all that is asked of each cell.
#[inline(always)]
fn shows_kind(column: CellKind, cell: &CellToken<'_>) -> bool
    ensures { result ≡ shows_such column (cell_of cell.now) }
{
    match cell {
        CellToken::Hidden(_) => true,
        CellToken::Shown { value, .. } => {
            takes(column.kind, *value) && (column.nullable || !value.is_null())
        },
    }
}
