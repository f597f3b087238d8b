//! The rows of trees as a proof has them: whole, with hidden cells, or as a digest alone.
ghost use Rattle.std.specs.Prelude.{◌≡◌, IfOk};
ghost use Rattle.vo_spec.specs.Lent.{value_of};
ghost use Rattle.vo_spec.specs.Values.{is_null};

use crate::digest::Digest;
use crate::keys::Key;
use crate::lists::List;
use crate::texts::Text;
use crate::values::Value;
use std::alloc::{AllocError, Global};
use std::marker::Model;

/// A value whose text, if it is one, is lent.
#[derive(Clone, Copy, Debug)]
pub enum ValueRef<'b> {
    Null,
    Int(i64),
    Text(&'b [u8]),
    Bool(bool),
}

/// A value, lent or owned.
#[derive(Drop)]
pub struct CellValue<'b> {
    held: HeldValue<'b>,
}

#[derive(Drop)]
enum HeldValue<'b> {
    Lent(ValueRef<'b>),
    Owned(Value),
}

impl<'b> Model for CellValue<'b> {
    ghost use Rattle.vo_spec.specs.declared.values.Value.{Value as Plain};
    ghost use Rattle.vo_spec.specs.Lent.{held_value};

    ghost Value = { Plain };

    ghost view = { λ cell. held_value cell.held };
}

impl<'b> CellValue<'b> {
    pub fn lent(value: ValueRef<'b>) -> CellValue<'b>
        ensures { result ≡ value_of value.entry }
    {
        CellValue {
            held: HeldValue::Lent(value),
        }
    }

    pub fn owned(value: Value) -> CellValue<'b>
        ensures { result ≡ value }
    {
        CellValue {
            held: HeldValue::Owned(value),
        }
    }

    pub fn as_ref(&self) -> ValueRef<'_>
        ensures { value_of result ≡ self.now }
    {
        match &self.held {
            HeldValue::Lent(value) => *value,
            HeldValue::Owned(value) => value.as_ref(),
        }
    }
}

impl ValueRef<'_> {
    pub fn is_null(self) -> bool
        ensures { result ≡ is_null (value_of self.entry) }
    {
        match self {
            ValueRef::Null => true,
            ValueRef::Int(_) | ValueRef::Text(_) | ValueRef::Bool(_) => false,
        }
    }

    /// The value, with a text of its own.
    pub fn to_value(&self, alloc: Global) -> Result<Value, AllocError>
        ensures { IfOk result (λ value. value ≡ value_of self.now) }
    {
        match self {
            ValueRef::Null => Ok(Value::Null),
            ValueRef::Int(number) => Ok(Value::Int(*number)),
            ValueRef::Text(text) => Ok(Value::Text(Text::from_vec(Vec::from_slice(alloc, text)?))),
            ValueRef::Bool(truth) => Ok(Value::Bool(*truth)),
        }
    }
}

impl Value {
    /// The value, with its text lent.
    pub fn as_ref(&self) -> ValueRef<'_>
        ensures { value_of result ≡ self.now }
    {
        match self {
            Value::Null => ValueRef::Null,
            Value::Int(number) => ValueRef::Int(*number),
            Value::Text(text) => ValueRef::Text(text.as_bytes()),
            Value::Bool(truth) => ValueRef::Bool(*truth),
        }
    }
}

/// A cell of a row: its value, or the digest of its attribute.
#[derive(Drop)]
pub enum Cell<'b> {
    Shown(CellValue<'b>),
    Hidden(Digest),
}

/// A row without its key: its digest, or its cells in column order.
#[derive(Drop)]
pub enum RowPart<'b> {
    Digest(Digest),
    Cells(List<Cell<'b>>),
}

/// The bytes of a key or of a separator, lent or owned.
#[derive(Drop)]
pub struct KeyPart<'b> {
    held: HeldKey<'b>,
}

#[derive(Drop)]
enum HeldKey<'b> {
    Lent(&'b [u8]),
    Owned(Key),
}

impl<'b> Model for KeyPart<'b> {
    ghost use Rattle.std.specs.Prelude.{List, ℕ};
    ghost use Rattle.vo_spec.specs.Lent.{held_key};

    ghost Value = { List ℕ };

    ghost view = { λ key. held_key key.held };
}

impl<'b> KeyPart<'b> {
    pub fn lent(bytes: &'b [u8]) -> KeyPart<'b>
        ensures { result ≡ bytes.now }
    {
        KeyPart {
            held: HeldKey::Lent(bytes),
        }
    }

    pub fn owned(key: Key) -> KeyPart<'b>
        ensures { result ≡ key }
    {
        KeyPart {
            held: HeldKey::Owned(key),
        }
    }

    pub fn as_bytes(&self) -> &[u8]
        ensures { result.now ≡ self.now }
    {
        match &self.held {
            HeldKey::Lent(bytes) => bytes,
            HeldKey::Owned(key) => key.as_bytes(),
        }
    }
}

/// An entry of a leaf.
#[derive(Drop)]
pub struct PartEntry<'b> {
    pub key: KeyPart<'b>,
    pub row: RowPart<'b>,
}
