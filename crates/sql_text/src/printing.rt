//! Printing: what queries and commands share.
ghost use Rattle.std.specs.Prelude.{◌≡◌, ℕ, List, [], ◌∷◌, ◌++◌, flat_map, OnOk};
ghost use Rattle.sql_tokens.specs.Lex.{Token};
ghost use Rattle.sql_text.specs.Printing.{word, name_token, quoted_byte, quoted_token, literal_token, reference_tokens, separate_by, terminate_by, spaces_between, text_of};

use sql_tokens::TokenKind;
use std::alloc::{AllocError, Global};
use vo_spec::{Name, Ref, Value};

/// A part of a query or of a command.
pub trait Print {
    /// The tokens that it is printed as.
    ghost tokens: { Self → List Token };

    /// Prints it at the end of `out`, with a blank behind each token.
    fn print(&self, alloc: Global, out: &mut Vec<u8>) -> Result<(), AllocError>
        ensures { OnOk result (out.new.items ≡ out.old.items ++ text_of (tokens self.now)) };
}

/// Puts a token's text at the end.
pub fn put(out: &mut Vec<u8>, text: &[u8]) -> Result<(), AllocError>
    ensures { OnOk result (out.new.items ≡ out.old.items ++ text.now ++ 32 ∷ []) }
{
    out.extend_from_slice(text)?;
    out.push(b' ')?;
    Ok(())
}

/// Puts a keyword or a symbol at the end.
pub fn put_word(out: &mut Vec<u8>, kind: TokenKind) -> Result<(), AllocError>
    ensures { OnOk result (out.new.items ≡ out.old.items ++ text_of (word kind ∷ [])) }
{
    put(out, kind.spelling())
}

fn put_quoted_byte(out: &mut Vec<u8>, byte: u8) -> Result<(), AllocError>
    ensures { OnOk result (out.new.items ≡ out.old.items ++ quoted_byte byte) }
{
    if byte == b'\'' {
        out.push(b'\'')?;
    }
    out.push(byte)?;
    Ok(())
}

fn put_doubled(out: &mut Vec<u8>, text: &[u8]) -> Result<(), AllocError>
    ensures { OnOk result (out.new.items ≡ out.old.items ++ flat_map quoted_byte text.now) }
{
    for byte in text {
        put_quoted_byte(out, *byte)?;
    }
    Ok(())
}

/// Puts a text in quotes at the end, each quote in it doubled.
fn put_quoted(out: &mut Vec<u8>, text: &[u8]) -> Result<(), AllocError>
    ensures { OnOk result (out.new.items ≡ out.old.items ++ text_of (quoted_token text.now ∷ [])) }
{
    out.push(b'\'')?;
    put_doubled(out, text)?;
    put(out, b"'")
}

impl Print for Name {
    ghost tokens = { λ name. name_token name ∷ [] };

    fn print(&self, _alloc: Global, out: &mut Vec<u8>) -> Result<(), AllocError> {
        put(out, self.as_bytes())
    }
}

impl Print for Value {
    ghost tokens = { λ value. literal_token value ∷ [] };

    fn print(&self, alloc: Global, out: &mut Vec<u8>) -> Result<(), AllocError> {
        match self {
            Value::Int(number) => put(out, number.to_string(alloc)?.as_bytes()),
            Value::Text(text) => put_quoted(out, text.as_bytes()),
            Value::Bool(true) => put_word(out, TokenKind::True),
            Value::Bool(false) => put_word(out, TokenKind::False),
            Value::Null => put_word(out, TokenKind::Null),
        }
    }
}

impl Print for Ref {
    ghost tokens = { reference_tokens };

    fn print(&self, alloc: Global, out: &mut Vec<u8>) -> Result<(), AllocError> {
        if let Some(qualifier) = &self.qualifier {
            qualifier.print(alloc, out)?;
            put_word(out, TokenKind::Dot)?;
        }
        self.column.print(alloc, out)
    }
}

/// Prints the parts with a token between each two.
pub fn print_separated<P: Print>(
    alloc: Global,
    out: &mut Vec<u8>,
    parts: &[P],
    separator: TokenKind,
) -> Result<(), AllocError>
    ensures { OnOk result (out.new.items ≡ out.old.items
        ++ text_of (separate_by separator P.tokens parts.now)) }
{
    if let Some((first, others)) = parts.split_first() {
        first.print(alloc, out)?;
        print_others(alloc, out, others, separator)?;
    }
    Ok(())
}

fn print_others<P: Print>(
    alloc: Global,
    out: &mut Vec<u8>,
    others: &[P],
    separator: TokenKind,
) -> Result<(), AllocError>
    ensures { OnOk result (out.new.items ≡ out.old.items
        ++ text_of (flat_map (λ part. word separator ∷ P.tokens part) others.now)) }
{
    for part in others {
        put_word(out, separator)?;
        part.print(alloc, out)?;
    }
    Ok(())
}

/// Prints the parts with a token behind each.
pub fn print_terminated<P: Print>(
    alloc: Global,
    out: &mut Vec<u8>,
    parts: &[P],
    end: TokenKind,
) -> Result<(), AllocError>
    ensures { OnOk result (out.new.items ≡ out.old.items
        ++ text_of (terminate_by end P.tokens parts.now)) }
{
    for part in parts {
        part.print(alloc, out)?;
        put_word(out, end)?;
    }
    Ok(())
}

/// The text without the blank behind its last token.
pub fn without_last_blank(mut out: Vec<u8>) -> Vec<u8>
    ensures { (tokens : List Token) → out.items ≡ text_of tokens
        → result.items ≡ spaces_between tokens }
{
    out.pop();
    out
}
