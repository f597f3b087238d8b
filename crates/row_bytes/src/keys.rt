//! The keys of values, and the values of keys.
ghost use Rattle.std.specs.Prelude.{◌≡◌, ◌^◌, pos, ◌+ℤ◌, ◌-ℤ◌, IfOk};
ghost use Rattle.std.specs.Int.{w64, cast_unsigned};
ghost use Rattle.vo_spec.specs.Firsts.{unless};
ghost use Rattle.vo_spec.specs.Checks.{is_key_of};
ghost use Rattle.vo_spec.specs.Values.{key_of, value_of_key};
ghost use Rattle.row_bytes.specs.Reading.{key_fault};
ghost use Rattle.row_bytes.specs.Taking.{Lends};

use crate::fault::FormFault;
use crate::text::text_fault;
use std::alloc::{AllocError, Global};
use vo_spec::{Key, Kind, MAX_KEY, Value, ValueRef, u64_bytes};

/// How far a BIGINT is above the least one.
fn above_least(number: i64) -> u64
    ensures { result ≡ cast_unsigned w64 (number +ℤ pos (2 ^ 63)) }
{
    if number < 0 {
        (number - i64::MIN) as u64
    } else {
        number as u64 + (1 << 63)
    }
}

/// The BIGINT that is so far above the least one.
fn from_least(above: u64) -> i64
    ensures { result ≡ pos above -ℤ pos (2 ^ 63) }
{
    if above < 1 << 63 {
        above as i64 + i64::MIN
    } else {
        (above - (1 << 63)) as i64
    }
}

/// The bytes that order the values of a kind. A BOOLEAN has some too, though it is no key; NULL has
/// none.
pub fn key_of(alloc: Global, value: &Value) -> Result<Key, AllocError>
    ensures { IfOk result (λ key. key ≡ key_of value.now) }
{
    let bytes = match value {
        Value::Null => Vec::new(alloc),
        Value::Int(number) => Vec::from_slice(alloc, &u64_bytes(above_least(*number)))?,
        Value::Text(text) => Vec::from_slice(alloc, text.as_bytes())?,
        Value::Bool(truth) => Vec::from_slice(alloc, &[u8::from(*truth)])?,
    };
    Ok(Key::from_vec(bytes))
}

#[tactic(auto, unfolding(vo_spec::specs::Bytes::u64_of))]
fn int_of_key(key: &[u8]) -> Result<ValueRef<'_>, FormFault>
    ensures { Lends result (unless (key_fault Kind.Int key.now) (value_of_key Kind.Int key.now)) }
{
    if key.len() != 8 {
        return Err(FormFault::Length);
    }
    let above = u64::from_be_bytes([
        key[0], key[1], key[2], key[3], key[4], key[5], key[6], key[7],
    ]);
    Ok(ValueRef::Int(from_least(above)))
}

fn text_of_key(key: &[u8]) -> Result<ValueRef<'_>, FormFault>
    ensures { Lends result (unless (key_fault Kind.Text key.now) (value_of_key Kind.Text key.now)) }
{
    match text_fault(MAX_KEY, key) {
        None => Ok(ValueRef::Text(key)),
        Some(fault) => Err(fault),
    }
}

/// The value of this kind whose key it is, its text lent, or what is wrong with the key.
pub fn read_key(kind: Kind, key: &[u8]) -> Result<ValueRef<'_>, FormFault>
    ensures { Lends result (unless (key_fault kind key.now) (value_of_key kind key.now)) }
{
    match kind {
        Kind::Int => int_of_key(key),
        Kind::Text => text_of_key(key),
        Kind::Bool => Err(FormFault::Tag),
    }
}

/// Whether it is the key of a value of this kind.
pub fn is_key_of(kind: Kind, key: &[u8]) -> bool
    ensures { result ≡ is_key_of kind key.now }
{
    read_key(kind, key).is_ok()
}
