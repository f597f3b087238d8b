//! What a tree is read for.
ghost use Rattle.std.specs.Prelude.{◌≡◌, ◌++◌, map, remove, IfOk, OnOk};
ghost use Rattle.tree_stream.specs.Findings.{cell_kind_of, no_target, target_of};

use std::alloc::{AllocError, Global};
use table_list::key_kind;
use vo_spec::{Bound, Column, Interval, Key, Kind, List, Need, Schema};

/// What the cells of a column may hold.
#[derive(Clone, Copy, Debug)]
pub struct CellKind {
    pub kind: Kind,
    pub nullable: bool,
}

/// The rows of an interval of keys, with the columns that are named, in a tree of a table. Columns
/// have their numbers among those that aren't the key.
#[derive(Debug, Drop)]
pub struct Target {
    pub interval: Interval,
    pub columns: List<u8>,
    /// The kind of the table's key.
    pub key_kind: Kind,
    /// What the cells of its other columns may hold.
    pub cell_kinds: List<CellKind>,
}

impl Target {
    /// The rows of a need, in a tree of the table of this schema.
    pub fn new(alloc: Global, need: Need, schema: &Schema) -> Result<Target, AllocError>
        ensures { IfOk result (λ target. target ≡ target_of need schema.now) }
    {
        let columns = Vec::from_slice(alloc, need.columns.as_slice())?;
        let cell_kinds = cell_kinds(alloc, schema)?;
        Ok(Target {
            interval: need.interval,
            columns: List::from_vec(columns),
            key_kind: key_kind(schema),
            cell_kinds: List::from_vec(cell_kinds),
        })
    }

    /// No rows, in a tree of any table. It takes no memory.
    pub fn of_no_rows(alloc: Global) -> Target
        ensures { result ≡ no_target }
    {
        Target {
            interval: Interval {
                low: Bound::Exclusive(Key::from_vec(Vec::new(alloc))),
                high: Bound::Exclusive(Key::from_vec(Vec::new(alloc))),
            },
            columns: List::new(alloc),
            key_kind: Kind::Int,
            cell_kinds: List::new(alloc),
        }
    }
}

/// What the cells of the columns but the key may hold.
fn cell_kinds(alloc: Global, schema: &Schema) -> Result<Vec<CellKind>, AllocError>
    ensures { IfOk result (λ kinds. kinds.items
        ≡ map cell_kind_of (remove schema.now.columns schema.now.key)) }
{
    let columns = schema.columns.as_slice();
    let key = schema.key as usize;
    let mut kinds = Vec::new(alloc);
    if columns.len() <= key {
        push_kinds(&mut kinds, columns)?;
        return Ok(kinds);
    }
    push_kinds(&mut kinds, &columns[..key])?;
    push_kinds(&mut kinds, &columns[key + 1..])?;
    Ok(kinds)
}

fn push_kinds(kinds: &mut Vec<CellKind>, columns: &[Column]) -> Result<(), AllocError>
    ensures { OnOk result (kinds.new.items ≡ kinds.old.items ++ map cell_kind_of columns.now) }
{
    for column in columns {
        kinds.push(CellKind {
            kind: column.kind,
            nullable: column.nullable,
        })?;
    }
    Ok(())
}
