//! Reading values.
ghost use Rattle.std.specs.Prelude.{◌≡◌, ◌++◌, List, ℕ, IfOk, IsOkAnd};
ghost use Rattle.vo_spec.specs.declared.values.Value.{Value as Plain};
ghost use Rattle.vo_spec.specs.Lent.{value_of};
ghost use Rattle.vo_spec.specs.Values.{value_bytes, FitsValue};
ghost use Rattle.row_bytes.specs.Reading.{int_at, text_at, bool_at, value_at};
ghost use Rattle.row_bytes.specs.Taking.{Read, TakenOr};

use crate::cursor::Cursor;
use crate::fault::FormFault;
use crate::text::text_fault;
use vo_spec::{MAX_TEXT, ValueRef};

#[tactic(auto, unfolding(crate::specs::Reading::int_at, vo_spec::specs::Bytes::u64_of))]
fn int_at(bytes: &[u8]) -> Result<(ValueRef<'_>, &[u8]), FormFault>
    ensures { Read result (int_at bytes.now) }
{
    let (front, rest) = bytes.split_first_chunk::<8>().ok_or(FormFault::Short)?;
    let number = u64::from_be_bytes(*front).cast_signed();
    Ok((ValueRef::Int(number), rest))
}

#[tactic(auto, unfolding(crate::specs::Reading::text_at, vo_spec::specs::Bytes::u16_of))]
fn text_at(bytes: &[u8]) -> Result<(ValueRef<'_>, &[u8]), FormFault>
    ensures { Read result (text_at bytes.now) }
{
    let (front, rest) = bytes.split_first_chunk::<2>().ok_or(FormFault::Short)?;
    let count = u16::from_be_bytes(*front) as usize;
    let (text, rest) = rest.split_at_checked(count).ok_or(FormFault::Short)?;
    match text_fault(MAX_TEXT, text) {
        None => Ok((ValueRef::Text(text), rest)),
        Some(fault) => Err(fault),
    }
}

#[tactic(auto, unfolding(crate::specs::Reading::bool_at))]
fn bool_at(bytes: &[u8]) -> Result<(ValueRef<'_>, &[u8]), FormFault>
    ensures { Read result (bool_at bytes.now) }
{
    let (byte, rest) = bytes.split_first().ok_or(FormFault::Short)?;
    if *byte < 2 {
        return Ok((ValueRef::Bool(*byte == 1), rest));
    }
    Err(FormFault::Tag)
}

#[tactic(auto, unfolding(crate::specs::Reading::value_at))]
fn value_at(bytes: &[u8]) -> Result<(ValueRef<'_>, &[u8]), FormFault>
    ensures { Read result (value_at bytes.now) }
{
    let (kind, rest) = bytes.split_first().ok_or(FormFault::Short)?;
    match *kind {
        0 => Ok((ValueRef::Null, rest)),
        1 => int_at(rest),
        2 => text_at(rest),
        3 => bool_at(rest),
        _ => Err(FormFault::Tag),
    }
}

/// The value in front, and the bytes after it.
fn front_value(bytes: &[u8]) -> Result<(ValueRef<'_>, &[u8]), FormFault>
    ensures exact { Read result (value_at bytes.now) }
    ensures found { IfOk result (λ x. FitsValue (value_of x.0)
        × (bytes.now ≡ value_bytes (value_of x.0) ++ x.1.now)) }
    ensures only { (v : Plain) (rest : List ℕ) → FitsValue v → bytes.now ≡ value_bytes v ++ rest
        → IsOkAnd result (λ x. (value_of x.0 ≡ v) × (x.1.now ≡ rest)) }
{
    value_at(bytes)
}

/// Takes the value whose bytes come next, and lends its text.
pub fn take_value<'b>(cursor: &mut Cursor<'b>) -> Result<ValueRef<'b>, FormFault>
    // What is taken is a value's spelling.
    ensures found { IfOk result (λ v. FitsValue (value_of v)
        × (cursor.old ≡ value_bytes (value_of v) ++ cursor.new)) }

    // What is spelled is taken.
    ensures only { (v : Plain) (rest : List ℕ) → FitsValue v → cursor.old ≡ value_bytes v ++ rest
        → IsOkAnd result (λ x. value_of x ≡ v) × (cursor.new ≡ rest) }

    // Which fault it is; and a fault leaves the cursor.
    ensures exact { TakenOr result cursor.old cursor.new (value_at cursor.old) }
{
    let (value, rest) = front_value(cursor.rest())?;
    *cursor = Cursor::new(rest);
    Ok(value)
}

/// No value's spelling begins another's.
pub fn one_encoding()
    ensures { (v w : Plain) (a b : List ℕ) → FitsValue v → FitsValue w
        → value_bytes v ++ a ≡ value_bytes w ++ b → (v ≡ w) × (a ≡ b) }
{}
