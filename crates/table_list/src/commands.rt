//! What a command makes of tables.
ghost use Rattle.std.specs.Prelude.{◌≡◌, ◌≤◌, map, not, filter, bytes_eq, length, IfOk};
ghost use Rattle.std.specs.List.{position_or_len};
ghost use Rattle.vo_spec.specs.Values.{key_lt};
ghost use Rattle.vo_spec.specs.Batches.{FitsCommand, max_columns};
ghost use Rattle.vo_spec.specs.Tables.{apply, table_header_of, refusal, put_table};
ghost use Rattle.table_list.specs.Changes.{Returns, new_table, rows_after, table_after, changed_tables, row_fault, fault_by_rows};
ghost use Rattle.table_list.specs.TableHeaders.{command_name};

use crate::columns::new_schema;
use crate::copies::{copy_rows, copy_schema, copy_table, copy_tables};
use crate::fault::ApplyFault;
use crate::lookup::{command_name, table_header_of, table_named};
use crate::new_rows::{key_at, row_of};
use crate::refusal::first_refusal;
use crate::rows::{has_row, put_row, update_row, without_row};
use row_bytes::key_of;
use std::alloc::{AllocError, Global};
use vo_spec::{Column, Command, CommandFault, List, Name, Row, Table};

/// The refusal by the tables without their rows.
fn refusal(tables: &[Table], command: &Command) -> Option<CommandFault>
    ensures { result ≡ refusal command.now (map table_header_of tables.now) }
{
    match table_named(tables, command_name(command)) {
        Some(table) => first_refusal(command, Some(table_header_of(table)), tables.len()),
        None => first_refusal(command, None, tables.len()),
    }
}

/// The refusal by the rows of the command's table.
fn row_fault(
    alloc: Global,
    table: &Table,
    command: &Command,
) -> Result<Option<CommandFault>, AllocError>
    ensures { IfOk result (λ fault. fault ≡ row_fault command.now table.now) }
{
    let rows = table.rows.as_slice();
    match command {
        Command::Insert { values, .. } => {
            let key = key_at(alloc, values.as_slice(), table.schema.key as usize)?;
            Ok(has_row(rows, key.as_bytes()).then_some(CommandFault::DuplicateKey))
        }
        Command::Update { value, .. } | Command::Delete { value, .. } => {
            let key = key_of(alloc, value)?;
            Ok((!has_row(rows, key.as_bytes())).then_some(CommandFault::NoRow))
        }
        Command::Create { .. } | Command::Drop { .. } => Ok(None),
    }
}

fn fault_by_rows(
    alloc: Global,
    tables: &[Table],
    command: &Command,
) -> Result<Option<CommandFault>, AllocError>
    ensures { IfOk result (λ fault. fault ≡ fault_by_rows command.now tables.now) }
{
    match table_named(tables, command_name(command)) {
        Some(table) => row_fault(alloc, table, command),
        None => Ok(None),
    }
}

/// What a command makes of the rows of its table.
fn rows_after(alloc: Global, table: &Table, command: &Command) -> Result<List<Row>, AllocError>
    ensures { IfOk result (λ rows. rows ≡ rows_after command.now table.now) }
{
    let rows = table.rows.as_slice();
    match command {
        Command::Insert { values, .. } => {
            let row = row_of(alloc, &table.schema, values.as_slice())?;
            put_row(alloc, row, rows)
        }
        Command::Update { sets, value, .. } => {
            let key = key_of(alloc, value)?;
            update_row(alloc, &table.schema, sets.as_slice(), key.as_bytes(), rows)
        }
        Command::Delete { value, .. } => {
            let key = key_of(alloc, value)?;
            without_row(alloc, key.as_bytes(), rows)
        }
        Command::Create { .. } | Command::Drop { .. } => copy_rows(alloc, rows),
    }
}

/// The table after a command, be it the command's or another.
fn table_after(alloc: Global, table: &Table, command: &Command) -> Result<Table, AllocError>
    ensures { IfOk result (λ new. new ≡ table_after command.now table.now) }
{
    if table.name.as_bytes() != command_name(command) {
        return copy_table(alloc, table);
    }
    Ok(Table {
        name: table.name.copy(alloc)?,
        schema: copy_schema(alloc, &table.schema)?,
        rows: rows_after(alloc, table, command)?,
    })
}

/// The tables with other rows in the command's.
fn with_rows(alloc: Global, tables: &[Table], command: &Command) -> Result<Vec<Table>, AllocError>
    ensures { IfOk result (λ new. new.items ≡ map (table_after command.now) tables.now) }
{
    let mut new = Vec::new(alloc);
    for table in tables {
        new.push(table_after(alloc, table, command)?)?;
    }
    Ok(new)
}

/// The tables but for those of this name.
fn without_table(alloc: Global, tables: &[Table], name: &[u8]) -> Result<Vec<Table>, AllocError>
    ensures { IfOk result (λ new. new.items
        ≡ filter (λ t. not (bytes_eq t.name name.now)) tables.now) }
{
    let mut new = Vec::new(alloc);
    for table in tables {
        if table.name.as_bytes() != name {
            new.push(copy_table(alloc, table)?)?;
        }
    }
    Ok(new)
}

/// How many tables stand before the first of a greater name.
fn place_of(table: &Table, tables: &[Table]) -> usize
    ensures number { result ≡ position_or_len (λ t. key_lt table.now.name t.name) tables.now }
    ensures bound { result ≤ length tables.now }
{
    let mut at = 0;
    for other in tables {
        if table.name.as_bytes().cmp(other.name.as_bytes()).is_lt() {
            return at;
        }
        at += 1;
    }
    at
}

/// The tables with one more, before the first of a greater name.
#[tactic(auto, using(crate::proofs::PutLaws::table_put))]
fn put_table(alloc: Global, table: Table, tables: &[Table]) -> Result<Vec<Table>, AllocError>
    ensures { IfOk result (λ new. new.items ≡ put_table table tables.now) }
{
    let at = place_of(&table, tables);
    let mut new = copy_tables(alloc, tables)?;
    new.insert(at, table)?;
    Ok(new)
}

fn new_table(
    alloc: Global,
    name: &Name,
    columns: &[Column],
    key: &Name,
) -> Result<Table, AllocError>
    requires { length columns.now ≤ max_columns }
    ensures { IfOk result (λ table. table ≡ new_table name.now columns.now key.now) }
{
    Ok(Table {
        name: name.copy(alloc)?,
        schema: new_schema(alloc, columns, key.as_bytes())?,
        rows: List::new(alloc),
    })
}

/// The tables after a command that isn't refused.
#[tactic(auto, unfolding(vo_spec::specs::Batches::FitsCommand))]
fn changed_tables(
    alloc: Global,
    tables: &[Table],
    command: &Command,
) -> Result<Vec<Table>, AllocError>
    requires { FitsCommand command.now }
    ensures { IfOk result (λ new. new.items ≡ changed_tables command.now tables.now) }
{
    match command {
        Command::Create { name, columns, key } => {
            let table = new_table(alloc, name, columns.as_slice(), key)?;
            put_table(alloc, table, tables)
        }
        Command::Drop { name } => without_table(alloc, tables, name.as_bytes()),
        Command::Insert { .. } | Command::Update { .. } | Command::Delete { .. } => {
            with_rows(alloc, tables, command)
        }
    }
}

/// The tables after a command, or its first refusal.
#[tactic(auto, using(crate::proofs::CommandLaws::accepted))]
pub(crate) fn apply_command(
    alloc: Global,
    tables: &[Table],
    command: &Command,
) -> Result<Vec<Table>, ApplyFault>
    requires { FitsCommand command.now }
    ensures { Returns (λ new. new.items) result (apply command.now tables.now) }
{
    if let Some(fault) = refusal(tables, command) {
        return Err(ApplyFault::Refused(fault));
    }
    if let Some(fault) = fault_by_rows(alloc, tables, command)? {
        return Err(ApplyFault::Refused(fault));
    }
    Ok(changed_tables(alloc, tables, command)?)
}
