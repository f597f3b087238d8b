//! Where a stored table is among others, and where a new one goes.
ghost use Rattle.std.specs.Prelude.{◌≡◌, ◌<◌, ◌≤◌, ◌++◌, ◌∷◌, take, drop, length, find, bytes_eq, option_map, IfSome};
ghost use Rattle.vo_spec.specs.Values.{key_lt};
ghost use Rattle.vo_spec.specs.Fits.{FitsTree};
ghost use Rattle.vo_spec.specs.Honest.{put_stored};
ghost use Rattle.stored_tables.specs.View.{lent_stored, stored_in, stored_of};
ghost use Rattle.stored_tables.specs.Representation.{IsStanding};
ghost use Rattle.stored_tables.specs.Positions.{IsFound, IsThere, is_named};

use crate::table::StoredTable;
use std::rc::Rc;

/// A table and how many stand before it.
#[derive(Clone, Copy)]
pub(crate) struct Position<'t> {
    pub(crate) at: usize,
    pub(crate) table: &'t StoredTable,
}

fn table_at<'t>(tables: &'t [Rc<StoredTable>], at: usize) -> &'t StoredTable
    requires { at < length tables.now }
    ensures { IsThere (stored_in tables.now) at (stored_of result.now) }
{
    &tables[at]
}

fn has_name(table: &StoredTable, name: &[u8]) -> bool
    ensures { result ≡ is_named name.now (stored_of table.now) }
{
    table.name.as_bytes() == name
}

/// Where the table of this name is.
pub(crate) fn table_position<'t>(tables: &'t [Rc<StoredTable>], name: &[u8]) -> Option<Position<'t>>
    ensures { IsFound name.now (stored_in tables.now) result }
{
    for at in 0..tables.len() {
        let table = table_at(tables, at);
        if has_name(table, name) {
            return Some(Position { at, table });
        }
    }
    None
}

/// The table of this name.
pub(crate) fn table_of<'t>(tables: &'t [Rc<StoredTable>], name: &[u8]) -> Option<&'t StoredTable>
    requires { IsStanding (stored_in tables.now) }
    ensures found { option_map lent_stored result
        ≡ find (λ s. bytes_eq s.name name.now) (stored_in tables.now) }
    ensures fits { IfSome result (λ table. FitsTree (lent_stored table).tree) }
{
    match table_position(tables, name) {
        Some(place) => Some(place.table),
        None => None,
    }
}

fn is_before(table: &StoredTable, other: &StoredTable) -> bool
    ensures { result ≡ key_lt table.now.name.value other.now.name.value }
{
    table.name.as_bytes().cmp(other.name.as_bytes()).is_lt()
}

/// How many tables go before a new one: those before the first of a greater name.
pub(crate) fn place_for(tables: &[Rc<StoredTable>], table: &StoredTable) -> usize
    ensures bound { result ≤ length tables.now }
    ensures place { put_stored (stored_of table.now) (stored_in tables.now)
        ≡ take result (stored_in tables.now) ++ stored_of table.now
        ∷ drop result (stored_in tables.now) }
{
    for at in 0..tables.len() {
        if is_before(table, table_at(tables, at)) {
            return at;
        }
    }
    tables.len()
}
