//! What is printed: words, literals, titles.
ghost use Rattle.std.specs.Prelude.{◌≡◌, ℕ, List, [], ◌∷◌, ◌++◌, flat_map, OnOk};
ghost use Rattle.vo_commands.specs.Lines.{quoted_byte};

use itoa::Integer;
use std::alloc::{AllocError, Global};
use vo_spec::{Text, Value};

/// A piece of a line.
pub trait Piece {
    /// The bytes that it is printed as.
    ghost piece_text: { Self → List ℕ };

    /// Prints it at the end of `out`.
    fn push_to(&self, alloc: Global, out: &mut Vec<u8>) -> Result<(), AllocError>
        ensures { OnOk result (out.new.items ≡ out.old.items ++ piece_text self.now) };
}

/// A word of a line: a phrase as it is, a name, a number in decimal, bytes in lower-case
/// hexadecimal.
#[derive(Clone, Copy)]
pub enum Word<'a> {
    Phrase(&'a str),
    Name(&'a [u8]),
    Number(u64),
    Hexadecimal(&'a [u8]),
}

impl Piece for Word<'_> {
    ghost use Rattle.vo_commands.specs.Words.{word_text};

    ghost piece_text = { word_text };

    fn push_to(&self, alloc: Global, out: &mut Vec<u8>) -> Result<(), AllocError> {
        match self {
            Word::Phrase(phrase) => out.extend_from_slice(phrase.as_bytes()),
            Word::Name(name) => out.extend_from_slice(name),
            Word::Number(number) => push_integer(out, *number),
            Word::Hexadecimal(bytes) => {
                out.extend_from_slice(hex::encode(alloc, *bytes)?.as_bytes())
            }
        }
    }
}

impl Piece for Text {
    ghost piece_text = { λ text. text };

    fn push_to(&self, _alloc: Global, out: &mut Vec<u8>) -> Result<(), AllocError> {
        out.extend_from_slice(self.as_bytes())
    }
}

/// A value is printed as a literal of the query language.
impl Piece for Value {
    ghost use Rattle.vo_commands.specs.Lines.{literal};

    ghost piece_text = { literal };

    fn push_to(&self, _alloc: Global, out: &mut Vec<u8>) -> Result<(), AllocError> {
        match self {
            Value::Null => out.extend_from_slice(b"NULL"),
            Value::Int(number) => push_integer(out, *number),
            Value::Text(text) => push_quoted(out, text.as_bytes()),
            Value::Bool(true) => out.extend_from_slice(b"TRUE"),
            Value::Bool(false) => out.extend_from_slice(b"FALSE"),
        }
    }
}

/// An integer in decimal.
fn push_integer<I: Integer>(out: &mut Vec<u8>, number: I) -> Result<(), AllocError>
    ensures { OnOk result (out.new.items ≡ out.old.items ++ I.text number) }
{
    let mut buffer = itoa::Buffer::new();
    out.extend_from_slice(buffer.format(number).as_bytes())
}

/// A text in quotes, each quote in it doubled.
fn push_quoted(out: &mut Vec<u8>, text: &[u8]) -> Result<(), AllocError>
    ensures { OnOk result (out.new.items ≡ out.old.items ++ 39 ∷ flat_map quoted_byte text.now ++ 39
        ∷ []) }
{
    out.push(b'\'')?;
    push_doubled(out, text)?;
    out.push(b'\'')?;
    Ok(())
}

fn push_doubled(out: &mut Vec<u8>, text: &[u8]) -> Result<(), AllocError>
    ensures { OnOk result (out.new.items ≡ out.old.items ++ flat_map quoted_byte text.now) }
{
    for byte in text {
        push_quoted_byte(out, *byte)?;
    }
    Ok(())
}

fn push_quoted_byte(out: &mut Vec<u8>, byte: u8) -> Result<(), AllocError>
    ensures { OnOk result (out.new.items ≡ out.old.items ++ quoted_byte byte) }
{
    if byte == b'\'' {
        out.push(b'\'')?;
    }
    out.push(byte)?;
    Ok(())
}
