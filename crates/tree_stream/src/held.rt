//! How many bytes are held of the rows of a tree.
ghost use Rattle.std.specs.Prelude.{◌≡◌, ◌+◌, ◌-◌, ◌^◌, length, min};
ghost use Rattle.vo_spec.specs.Values.{value_bytes};
ghost use Rattle.tree_stream.specs.Keeping.{kept_bytes, kept_count as count_of_kept, open_values, rows_bytes, values_bytes};

use crate::context::Context;
use crate::state::State;
use vo_spec::{SeenRow, Value};

fn value_length(value: &Value) -> usize
    ensures { result ≡ length (value_bytes value.now) }
{
    match value {
        Value::Null => 1,
        Value::Int(_) => 9,
        Value::Text(text) => 3 + text.as_bytes().len(),
        Value::Bool(_) => 2,
    }
}

fn values_length(values: &[Value]) -> usize
    ensures { result ≡ min (length (values_bytes values.now)) (2 ^ 64 - 1) }
{
    let mut count: usize = 0;
    for value in values {
        count = count.saturating_add(value_length(value));
    }
    count
}

/// The bytes of a row's key, and of its values as they are encoded.
fn row_length(row: &SeenRow) -> usize
    ensures { result ≡ min (length (kept_bytes row.now)) (2 ^ 64 - 1) }
{
    let values = values_length(row.values.as_slice());
    values.saturating_add(row.key.as_bytes().len())
}

pub(crate) fn rows_length(rows: &[SeenRow]) -> usize
    ensures { result ≡ min (length (rows_bytes rows.now)) (2 ^ 64 - 1) }
{
    let mut count: usize = 0;
    for row in rows {
        count = count.saturating_add(row_length(row));
    }
    count
}

/// How many bytes the values have that were found in the row that is read.
fn open_length(state: &State) -> usize
    ensures { result ≡ min (length (values_bytes (open_values state.now))) (2 ^ 64 - 1) }
{
    match state {
        State::Node(_) => 0,
        State::Separator(_) => 0,
        State::Key(_) => 0,
        State::Row(_) => 0,
        State::Cell(row) => values_length(row.findings.values.as_slice()),
        State::Complete(_) => 0,
        State::Invalid => 0,
    }
}

/// How many bytes the rows have that were found, with what was found of one that isn't whole.
pub(crate) fn kept_count(context: &Context, state: &State) -> usize
    ensures { result ≡ min (count_of_kept context.now state.now) (2 ^ 64 - 1) }
{
    let rows = rows_length(context.findings.rows.as_slice());
    rows.saturating_add(open_length(state))
}
