//! Writing values.
ghost use Rattle.std.specs.Prelude.{◌≡◌, ◌++◌, ◌∷◌, ◌≤◌, length, OnOk, OnErr};
ghost use Rattle.vo_spec.specs.declared.values.Value.TheVariants.{Int, Text};
ghost use Rattle.vo_spec.specs.Bytes.{u16_bytes};
ghost use Rattle.vo_spec.specs.Lent.{value_of};
ghost use Rattle.vo_spec.specs.Values.{value_bytes, FitsValue, max_text};
ghost use Rattle.row_bytes.specs.Writing.{Writes, WritesSome};

use crate::byte_sink::ByteSink;
use std::alloc::AllocError;
use vo_spec::{Value, ValueRef, u16_bytes, u64_bytes};

/// Writes the value's bytes behind all that was written.
pub fn write_value<S: ByteSink>(sink: &mut S, value: ValueRef<'_>) -> Result<(), S::Fault>
    requires { FitsValue (value_of value) }
    ensures ok { OnOk result
        (Writes S.HoldsBytes sink.old sink.new (value_bytes (value_of value.entry))) }
    ensures err { OnErr result (WritesSome S.HoldsBytes sink.old sink.new) }
{
    match value {
        ValueRef::Null => sink.write(&[0]),
        ValueRef::Int(number) => sink.write(&int_bytes(number)),
        ValueRef::Text(text) => write_text(sink, text),
        ValueRef::Bool(truth) => sink.write(&[3, u8::from(truth)]),
    }
}

fn int_bytes(number: i64) -> [u8; 9]
    ensures { result ≡ value_bytes (Int number) }
{
    let mut bytes = [1; 9];
    bytes[1..].copy_from_slice(&u64_bytes(number.cast_unsigned()));
    bytes
}

#[tactic(auto, using(crate::proofs::Writings::some_behind))]
fn write_text<S: ByteSink>(sink: &mut S, text: &[u8]) -> Result<(), S::Fault>
    requires { length text.now ≤ max_text }
    ensures ok { OnOk result
        (Writes S.HoldsBytes sink.old sink.new (value_bytes (Text text.now))) }
    ensures err { OnErr result (WritesSome S.HoldsBytes sink.old sink.new) }
{
    sink.write(&text_head(text.len() as u16))?;
    sink.write(text)
}

/// What stands before a text of so many bytes.
fn text_head(count: u16) -> [u8; 3]
    ensures { result ≡ 2 ∷ u16_bytes count }
{
    let mut head = [2; 3];
    head[1..].copy_from_slice(&u16_bytes(count));
    head
}

/// Writes the value's bytes at the end. An error leaves `out` as it was.
pub fn put_value(out: &mut Vec<u8>, value: &Value) -> Result<(), AllocError>
    requires { FitsValue value.now }
    ensures ok { OnOk result (out.new.items ≡ out.old.items ++ value_bytes value.now) }
    ensures err { OnErr result (out.new.items ≡ out.old.items) }
{
    put_value_ref(out, value.as_ref())
}

/// The same of a value whose text is lent.
pub fn put_value_ref(out: &mut Vec<u8>, value: ValueRef<'_>) -> Result<(), AllocError>
    requires { FitsValue (value_of value) }
    ensures ok { OnOk result (out.new.items ≡ out.old.items ++ value_bytes (value_of value.entry)) }
    ensures err { OnErr result (out.new.items ≡ out.old.items) }
{
    let count = out.len();
    let written = write_value(out, value);
    if written.is_err() {
        out.truncate(count);
    }
    written
}
