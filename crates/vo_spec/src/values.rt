//! Values of columns, and rows of them.
ghost use Rattle.std.specs.Prelude.{◌≡◌, IfOk};
ghost use Rattle.vo_spec.specs.Values.{is_null};

use crate::keys::Key;
use crate::lists::List;
use crate::texts::Text;
use std::alloc::{AllocError, Global};

/// What a column holds.
#[derive(Clone, Copy, PartialEq, Eq, Debug)]
pub enum Kind {
    /// BIGINT, 64 bits with a sign.
    Int,
    /// TEXT, at most 1,024 bytes.
    Text,
    /// BOOLEAN, FALSE before TRUE.
    Bool,
}

/// One value of a column.
#[derive(Debug, Drop)]
pub enum Value {
    /// The value that is absent.
    Null,
    Int(i64),
    Text(Text),
    Bool(bool),
}

/// A row of a table: its key, and the values of the other columns in their order.
#[derive(Debug, Drop)]
pub struct Row {
    pub key: Key,
    pub cells: List<Value>,
}

impl Value {
    pub fn is_null(&self) -> bool
        ensures { result ≡ is_null self.now }
    {
        matches!(self, Value::Null)
    }

    /// The same value once more.
    pub fn copy(&self, alloc: Global) -> Result<Value, AllocError>
        ensures { IfOk result (λ value. value ≡ self.now) }
    {
        match self {
            Value::Null => Ok(Value::Null),
            Value::Int(number) => Ok(Value::Int(*number)),
            Value::Text(text) => Ok(Value::Text(text.copy(alloc)?)),
            Value::Bool(truth) => Ok(Value::Bool(*truth)),
        }
    }
}

/// The same values once more.
pub fn copy_values(alloc: Global, values: &[Value]) -> Result<List<Value>, AllocError>
    ensures { IfOk result (λ copies. copies ≡ values.now) }
{
    let mut copies = Vec::with_capacity(alloc, values.len())?;
    for value in values {
        copies.push(value.copy(alloc)?)?;
    }
    Ok(List::from_vec(copies))
}
