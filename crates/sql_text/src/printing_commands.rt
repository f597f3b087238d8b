//! Printing batches.
ghost use Rattle.std.specs.Prelude.{◌≡◌, [], ◌∷◌, ◌++◌, string_bytes, IfOk, OnOk};
ghost use Rattle.vo_spec.specs.Batches.{FitsBatch};
ghost use Rattle.sql_tokens.specs.declared.kinds.TokenKind.TheVariants as k;
ghost use Rattle.sql_text.specs.Commands.{batch as batch_rule};
ghost use Rattle.sql_text.specs.Limits.{max_sql_bytes};
ghost use Rattle.sql_text.specs.Texts.{IsTextOf};
ghost use Rattle.sql_text.specs.Spellable.{SpellableBatch};
ghost use Rattle.sql_text.specs.Printing.{word, kind_word, mark_tokens, column_tokens, set_tokens, key_tokens, columns_tokens, command_tokens, batch_text, text_of};

use crate::printing::{Print, print_separated, print_terminated, put_word, without_last_blank};
use sql_tokens::TokenKind;
use std::alloc::{AllocError, Global};
use vo_spec::{Batch, Column, Command, Kind, Name, SetPart, Value};

fn kind_word(kind: Kind) -> TokenKind
    ensures { result ≡ kind_word kind }
{
    match kind {
        Kind::Int => TokenKind::Bigint,
        Kind::Text => TokenKind::Text,
        Kind::Bool => TokenKind::Boolean,
    }
}

fn print_mark(out: &mut Vec<u8>, nullable: bool) -> Result<(), AllocError>
    ensures { OnOk result (out.new.items ≡ out.old.items ++ text_of (mark_tokens nullable)) }
{
    if nullable {
        put_word(out, TokenKind::Null)?;
    }
    Ok(())
}

impl Print for Column {
    ghost tokens = { column_tokens };

    fn print(&self, alloc: Global, out: &mut Vec<u8>) -> Result<(), AllocError> {
        self.name.print(alloc, out)?;
        put_word(out, kind_word(self.kind))?;
        print_mark(out, self.nullable)
    }
}

/// Prints a column with the value that it gets or has.
fn print_set(
    alloc: Global,
    out: &mut Vec<u8>,
    column: &Name,
    value: &Value,
) -> Result<(), AllocError>
    ensures { OnOk result (out.new.items ≡ out.old.items
        ++ text_of (set_tokens (record { column = column.now; value = value.now }))) }
{
    column.print(alloc, out)?;
    put_word(out, TokenKind::Equal)?;
    value.print(alloc, out)
}

impl Print for SetPart {
    ghost tokens = { set_tokens };

    fn print(&self, alloc: Global, out: &mut Vec<u8>) -> Result<(), AllocError> {
        print_set(alloc, out, &self.column, &self.value)
    }
}

/// PRIMARY KEY ( name )
fn print_key(alloc: Global, out: &mut Vec<u8>, key: &Name) -> Result<(), AllocError>
    ensures { OnOk result (out.new.items ≡ out.old.items ++ text_of (key_tokens key.now)) }
{
    put_word(out, TokenKind::Primary)?;
    put_word(out, TokenKind::Key)?;
    put_word(out, TokenKind::LeftParen)?;
    key.print(alloc, out)?;
    put_word(out, TokenKind::RightParen)
}

/// Prints columns with a comma behind each, and the key.
fn print_columns(
    alloc: Global,
    out: &mut Vec<u8>,
    columns: &[Column],
    key: &Name,
) -> Result<(), AllocError>
    ensures { OnOk result (out.new.items ≡ out.old.items
        ++ text_of (columns_tokens columns.now key.now)) }
{
    print_terminated(alloc, out, columns, TokenKind::Comma)?;
    print_key(alloc, out, key)
}

fn print_create(
    alloc: Global,
    out: &mut Vec<u8>,
    name: &Name,
    columns: &[Column],
    key: &Name,
) -> Result<(), AllocError>
    ensures { OnOk result (out.new.items ≡ out.old.items
        ++ text_of (command_tokens (Command.Create name.now columns.now key.now))) }
{
    put_word(out, TokenKind::Create)?;
    put_word(out, TokenKind::Table)?;
    name.print(alloc, out)?;
    put_word(out, TokenKind::LeftParen)?;
    print_columns(alloc, out, columns, key)?;
    put_word(out, TokenKind::RightParen)
}

fn print_insert(
    alloc: Global,
    out: &mut Vec<u8>,
    name: &Name,
    values: &[Value],
) -> Result<(), AllocError>
    ensures { OnOk result (out.new.items ≡ out.old.items
        ++ text_of (command_tokens (Command.Insert name.now values.now))) }
{
    put_word(out, TokenKind::Insert)?;
    put_word(out, TokenKind::Into)?;
    name.print(alloc, out)?;
    put_word(out, TokenKind::Values)?;
    put_word(out, TokenKind::LeftParen)?;
    print_separated(alloc, out, values, TokenKind::Comma)?;
    put_word(out, TokenKind::RightParen)
}

fn print_drop(alloc: Global, out: &mut Vec<u8>, name: &Name) -> Result<(), AllocError>
    ensures { OnOk result (out.new.items ≡ out.old.items
        ++ text_of (command_tokens (Command.Drop name.now))) }
{
    put_word(out, TokenKind::Drop)?;
    put_word(out, TokenKind::Table)?;
    name.print(alloc, out)
}

/// WHERE name = literal
fn print_where(
    alloc: Global,
    out: &mut Vec<u8>,
    column: &Name,
    value: &Value,
) -> Result<(), AllocError>
    ensures { OnOk result (out.new.items ≡ out.old.items
        ++ text_of (word k.Where ∷ set_tokens
        (record { column = column.now; value = value.now }))) }
{
    put_word(out, TokenKind::Where)?;
    print_set(alloc, out, column, value)
}

fn print_update(
    alloc: Global,
    out: &mut Vec<u8>,
    name: &Name,
    sets: &[SetPart],
    column: &Name,
    value: &Value,
) -> Result<(), AllocError>
    ensures { OnOk result (out.new.items ≡ out.old.items
        ++ text_of (command_tokens (Command.Update name.now sets.now column.now value.now))) }
{
    put_word(out, TokenKind::Update)?;
    name.print(alloc, out)?;
    put_word(out, TokenKind::Set)?;
    print_separated(alloc, out, sets, TokenKind::Comma)?;
    print_where(alloc, out, column, value)
}

fn print_delete(
    alloc: Global,
    out: &mut Vec<u8>,
    name: &Name,
    column: &Name,
    value: &Value,
) -> Result<(), AllocError>
    ensures { OnOk result (out.new.items ≡ out.old.items
        ++ text_of (command_tokens (Command.Delete name.now column.now value.now))) }
{
    put_word(out, TokenKind::Delete)?;
    put_word(out, TokenKind::From)?;
    name.print(alloc, out)?;
    print_where(alloc, out, column, value)
}

impl Print for Command {
    ghost tokens = { command_tokens };

    fn print(&self, alloc: Global, out: &mut Vec<u8>) -> Result<(), AllocError> {
        match self {
            Command::Create { name, columns, key } => {
                print_create(alloc, out, name, columns.as_slice(), key)
            }
            Command::Drop { name } => print_drop(alloc, out, name),
            Command::Insert { name, values } => print_insert(alloc, out, name, values.as_slice()),
            Command::Update {
                name,
                sets,
                column,
                value,
            } => print_update(alloc, out, name, sets.as_slice(), column, value),
            Command::Delete {
                name,
                column,
                value,
            } => print_delete(alloc, out, name, column, value),
        }
    }
}

/// The batch's text: its tokens with one blank between each two.
pub fn print_batch(alloc: Global, batch: &Batch) -> Result<String, AllocError>
    requires { FitsBatch batch.now.commands }
    ensures printed { IfOk result (λ text. string_bytes text ≡ batch_text batch.now.commands) }
    ensures reads { SpellableBatch batch.now.commands
        → IfOk result (λ text. IsTextOf max_sql_bytes batch_rule (string_bytes text) batch.now) }
{
    let mut out = Vec::new(alloc);
    print_terminated(
        alloc,
        &mut out,
        batch.commands.as_slice(),
        TokenKind::Semicolon,
    )?;
    // That the bytes are UTF-8 is proved, so they aren't read once more to see it.
    Ok(unsafe { String::from_utf8_unchecked(without_last_blank(out)) })
}
