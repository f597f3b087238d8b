//! Calls of bytes: values, their keys, columns, and batches of commands.
ghost use Rattle.vo_spec.specs.Lent.{value_of};
ghost use Rattle.vo_spec.specs.Values.{FitsValue};

use crate::line::BytesCall;
use batch_format::read_batch;
use line_pieces::{describe, word};
use row_bytes::{
    Cursor, FormFault, Value, ValueRef, key_of, put_value, read_key, take_columns, take_kind,
    take_value,
};
use std::alloc::Global;
use std::io;
use vo_spec::copy_values;

/// The answer to a call of bytes.
pub fn answer(alloc: Global, call: BytesCall, bytes: &[u8]) -> io::Result<String> {
    match call {
        BytesCall::Read => describe(alloc, &read_batch(alloc, bytes)),
        BytesCall::Value => value(alloc, bytes),
        BytesCall::Values => copies(alloc, bytes),
        BytesCall::Key => key(alloc, bytes),
        BytesCall::KeyValue => key_value(alloc, bytes),
        BytesCall::Columns => columns(alloc, bytes),
    }
}

/// The value in front with its bytes, or its fault; and what is left.
fn value(alloc: Global, bytes: &[u8]) -> io::Result<String> {
    let mut cursor = Cursor::new(bytes);
    let answer = match take_value(&mut cursor) {
        Ok(value) => describe_value(alloc, value)?,
        Err(fault) => describe(alloc, &fault)?,
    };
    let left = hex::encode(alloc, cursor.rest())?;
    Ok(format!(in alloc; "{answer} {left}")?)
}

/// A value, and its bytes.
fn describe_value(alloc: Global, value: ValueRef<'_>) -> io::Result<String>
    requires { FitsValue (value_of value) }
{
    let value = value.to_value(alloc)?;
    let digits = digits_of(alloc, &value)?;
    let value = describe(alloc, &value)?;
    Ok(format!(in alloc; "{value} {digits}")?)
}

fn digits_of(alloc: Global, value: &Value) -> io::Result<String>
    requires { FitsValue value.now }
{
    let mut bytes = Vec::new(alloc);
    put_value(&mut bytes, value)?;
    Ok(hex::encode(alloc, &bytes)?)
}

/// The values that the bytes are, or the fault of the first that has one.
pub fn take_values(alloc: Global, bytes: &[u8]) -> io::Result<Result<Vec<Value>, FormFault>> {
    let mut cursor = Cursor::new(bytes);
    let mut values = Vec::new(alloc);
    // A value has one byte at least.
    for _ in 0..bytes.len() {
        if cursor.is_empty() {
            break;
        }
        match take_value(&mut cursor) {
            Ok(value) => values.push(value.to_value(alloc)?)?,
            Err(fault) => return Ok(Err(fault)),
        }
    }
    Ok(Ok(values))
}

/// The values that the bytes are, copied.
fn copies(alloc: Global, bytes: &[u8]) -> io::Result<String> {
    match take_values(alloc, bytes)? {
        Ok(values) => describe(alloc, &copy_values(alloc, &values)?),
        Err(fault) => describe(alloc, &fault),
    }
}

/// The key of the value in front.
fn key(alloc: Global, bytes: &[u8]) -> io::Result<String> {
    match take_value(&mut Cursor::new(bytes)) {
        Ok(value) => {
            let key = key_of(alloc, &value.to_value(alloc)?)?;
            Ok(hex::encode(alloc, key.as_bytes())?)
        }
        Err(fault) => describe(alloc, &fault),
    }
}

/// The value whose key stands behind the byte of its kind.
fn key_value(alloc: Global, bytes: &[u8]) -> io::Result<String> {
    let mut cursor = Cursor::new(bytes);
    let Some(kind) = take_kind(&mut cursor) else {
        return word(alloc, "no kind");
    };
    match read_key(kind, cursor.rest()) {
        Ok(value) => describe(alloc, &value),
        Err(fault) => describe(alloc, &fault),
    }
}

/// The columns in front, and what is left.
fn columns(alloc: Global, bytes: &[u8]) -> io::Result<String> {
    let mut cursor = Cursor::new(bytes);
    match take_columns(alloc, &mut cursor) {
        Ok(columns) => {
            let columns = describe(alloc, &columns)?;
            let left = hex::encode(alloc, cursor.rest())?;
            Ok(format!(in alloc; "{columns} {left}")?)
        }
        Err(fault) => describe(alloc, &fault),
    }
}
