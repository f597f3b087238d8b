//! The first test of a command that holds, of those that need no rows.
ghost use Rattle.std.specs.Prelude.{◌≡◌, List, ℕ, length, option_map, is_some};
ghost use Rattle.vo_spec.specs.Firsts.{first_of};
ghost use Rattle.vo_spec.specs.Values.{key_of};
ghost use Rattle.vo_spec.specs.Tables.{TableHeader, table_header_named, create_tests, insert_tests, update_tests, delete_tests, refusal, value_at};
ghost use Rattle.table_list.specs.TableHeaders.{command_name, table_header_seen};

use crate::columns::{are_of_kinds, has_column, is_bad_schema, is_key, suits};
use crate::nulls::{allow_each, is_null_at};
use crate::sets::{all_suit, gives_null, have_columns, is_bad_set};
use vo_spec::{
    Column, Command, CommandFault, MAX_KEY, MAX_ROWS, MAX_TABLES, Name, Schema, SetPart, Value,
};

/// A table without its rows, of which it has `count`.
#[derive(Clone, Copy, Debug)]
pub struct TableHeaderRef<'t> {
    pub name: &'t [u8],
    pub schema: &'t Schema,
    pub count: u64,
}

pub(crate) fn create_fault(
    exists: bool,
    tables: usize,
    columns: &[Column],
    key: &[u8],
) -> Option<CommandFault>
    ensures { (name : List ℕ) (table_headers : List TableHeader)
        → is_some (table_header_named name table_headers) ≡ exists → length table_headers ≡ tables
        → result ≡ first_of (create_tests name columns.now key.now table_headers) }
{
    if exists {
        return Some(CommandFault::TableExists);
    }
    if tables >= MAX_TABLES {
        return Some(CommandFault::TooManyTables);
    }
    if is_bad_schema(columns, key) {
        return Some(CommandFault::BadSchema);
    }
    None
}

/// How many bytes the key of the value of this number has.
#[tactic(auto, unfolding(vo_spec::specs::Bytes::u64_bytes))]
fn key_length(values: &[Value], number: usize) -> usize
    ensures { result ≡ length (key_of (value_at values.now number)) }
{
    match values.get(number) {
        Some(Value::Null) => 0,
        Some(Value::Int(_)) => 8,
        Some(Value::Text(text)) => text.as_bytes().len(),
        Some(Value::Bool(_)) => 1,
        None => 1,
    }
}

pub(crate) fn insert_fault(
    table_header: TableHeaderRef<'_>,
    values: &[Value],
) -> Option<CommandFault>
    ensures { result ≡ first_of (insert_tests values.now (table_header_seen table_header.entry)) }
{
    let columns = table_header.schema.columns.as_slice();
    if values.len() != columns.len() {
        return Some(CommandFault::Arity);
    }
    if !are_of_kinds(columns, values) {
        return Some(CommandFault::TypeMismatch);
    }
    let key = table_header.schema.key as usize;
    if is_null_at(values, key) || !allow_each(columns, values) {
        return Some(CommandFault::NotNull);
    }
    if key_length(values, key) > MAX_KEY {
        return Some(CommandFault::KeyTooLong);
    }
    if table_header.count >= MAX_ROWS {
        return Some(CommandFault::TableFull);
    }
    None
}

pub(crate) fn update_fault(
    table_header: TableHeaderRef<'_>,
    sets: &[SetPart],
    column: &[u8],
    value: &Value,
) -> Option<CommandFault>
    ensures { result ≡ first_of (update_tests sets.now column.now value.now
        (table_header_seen table_header.entry)) }
{
    let schema = table_header.schema;
    if !have_columns(schema, sets, column) {
        return Some(CommandFault::NoColumn);
    }
    if !is_key(schema, column) {
        return Some(CommandFault::NotKey);
    }
    if is_bad_set(schema, sets) {
        return Some(CommandFault::BadSet);
    }
    if !all_suit(schema, sets, column, value) {
        return Some(CommandFault::TypeMismatch);
    }
    if gives_null(schema, sets, value) {
        return Some(CommandFault::NotNull);
    }
    None
}

pub(crate) fn delete_fault(
    table_header: TableHeaderRef<'_>,
    column: &[u8],
    value: &Value,
) -> Option<CommandFault>
    ensures { result ≡ first_of (delete_tests column.now value.now
        (table_header_seen table_header.entry)) }
{
    let columns = table_header.schema.columns.as_slice();
    if !has_column(columns, column) {
        return Some(CommandFault::NoColumn);
    }
    if !is_key(table_header.schema, column) {
        return Some(CommandFault::NotKey);
    }
    if !suits(columns, column, value) {
        return Some(CommandFault::TypeMismatch);
    }
    if value.is_null() {
        return Some(CommandFault::NotNull);
    }
    None
}

/// The first of a command's tests that holds, but for those that need the rows. `found` is the
/// table that the command names, where it is there, and `tables` how many tables there are.
pub fn first_refusal(
    command: &Command,
    found: Option<TableHeaderRef<'_>>,
    tables: usize,
) -> Option<CommandFault>
    ensures { (table_headers : List TableHeader)
        → table_header_named (command_name command.now) table_headers
        ≡ option_map table_header_seen found.entry
        → length table_headers ≡ tables → result ≡ refusal command.now table_headers }
{
    match (command, found) {
        (Command::Create { columns, key, .. }, found) => {
            create_fault(found.is_some(), tables, columns.as_slice(), key.as_bytes())
        }
        (_, None) => Some(CommandFault::NoTable),
        (Command::Drop { .. }, Some(_)) => None,
        (Command::Insert { values, .. }, Some(table_header)) => {
            insert_fault(table_header, values.as_slice())
        }
        (
            Command::Update {
                sets,
                column,
                value,
                ..
            },
            Some(table_header),
        ) => update_fault(table_header, sets.as_slice(), column.as_bytes(), value),
        (Command::Delete { column, value, .. }, Some(table_header)) => {
            delete_fault(table_header, column.as_bytes(), value)
        }
    }
}
