//! The work that a command is.
ghost use Rattle.std.specs.Prelude.{◌≡◌, ◌≤◌, IfOk, IfSome, length, map};
ghost use Rattle.std.specs.List.{AllByRecursion};
ghost use Rattle.vo_spec.specs.Batches.{FitsSet, max_columns};
ghost use Rattle.vo_spec.specs.Values.{key_of};
ghost use Rattle.vo_spec.specs.Tables.{cell_changes};
ghost use Rattle.mb_update.specs.declared.ops.Op.TheVariants.{Replace};
ghost use Rattle.row_works.specs.Operations.{changes_rows, operation, set_cell};
ghost use Rattle.row_works.specs.Limits.{FitsOp, FitsWork, ShowsRow};

use mb_update::{Op, SetCell};
use row_bytes::key_of;
use std::alloc::{AllocError, Global};
use table_list::{cell_number, column_number, row_of};
use vo_spec::{Command, List, Schema, SetPart, Value};

/// Whether the command is one on rows: all are but CREATE and DROP.
pub fn changes_rows(command: &Command) -> bool
    ensures { result ≡ changes_rows command.now }
{
    match command {
        Command::Create { .. } | Command::Drop { .. } => false,
        Command::Insert { .. } | Command::Update { .. } | Command::Delete { .. } => true,
    }
}

/// The work of the command on the tree of its table. CREATE and DROP have none.
pub fn operation<'b>(
    alloc: Global,
    schema: &Schema,
    command: &Command,
) -> Result<Option<Op<'b>>, AllocError>
    requires { FitsWork schema.now command.now }
    ensures value { IfOk result (λ op. op ≡ operation schema.now command.now) }
    ensures fits { IfOk result (λ op. IfSome op FitsOp) }
    ensures shown { IfOk result (λ op. IfSome op ShowsRow) }
{
    match command {
        Command::Create { .. } | Command::Drop { .. } => Ok(None),
        Command::Insert { values, .. } => {
            let row = row_of(alloc, schema, values.as_slice())?;
            Ok(Some(Op::Insert { row }))
        },
        Command::Update { sets, value, .. } => {
            Ok(Some(replacement(alloc, schema, sets.as_slice(), value)?))
        },
        Command::Delete { value, .. } => {
            let key = key_of(alloc, value)?;
            Ok(Some(Op::Remove { key }))
        },
    }
}

/// The work of an UPDATE.
#[tactic(auto, using(crate::proofs::SetLaws::sets_fit))]
fn replacement<'b>(
    alloc: Global,
    schema: &Schema,
    sets: &[SetPart],
    value: &Value,
) -> Result<Op<'b>, AllocError>
    requires fits { AllByRecursion FitsSet sets.now }
    requires columns { length schema.now.columns ≤ max_columns }
    ensures value { IfOk result (λ op. op
        ≡ Replace (key_of value.now) (map set_cell (cell_changes schema.now sets.now))) }
    ensures fits { IfOk result FitsOp }
    ensures shown { IfOk result ShowsRow }
{
    let key = key_of(alloc, value)?;
    let sets = set_cells(alloc, schema, sets)?;
    Ok(Op::Replace { key, sets })
}

/// The cells that SET names.
fn set_cells(alloc: Global, schema: &Schema, sets: &[SetPart]) -> Result<List<SetCell>, AllocError>
    requires { length schema.now.columns ≤ max_columns }
    ensures { IfOk result (λ cells. cells ≡ map set_cell (cell_changes schema.now sets.now)) }
{
    let mut cells = Vec::with_capacity(alloc, sets.len())?;
    for set in sets {
        let column = column_number(schema.columns.as_slice(), set.column.as_bytes());
        cells.push(SetCell {
            column: cell_number(schema.key as usize, column) as u8,
            value: set.value.copy(alloc)?,
        })?;
    }
    Ok(List::from_vec(cells))
}
