//! Printing queries.
ghost use Rattle.std.specs.Prelude.{◌≡◌, [], ◌∷◌, ◌++◌, drop, map, option_map, string_bytes, IfOk, OnOk, IfSome, ◌<◌, ◌^◌};
ghost use Rattle.std.specs.Option.{option_map_or};
ghost use Rattle.vo_spec.specs.Conditions.{negated, condition_of, conditions, query_of};
ghost use Rattle.sql_text.specs.Queries.{query as query_rule};
ghost use Rattle.sql_text.specs.Limits.{max_sql_bytes};
ghost use Rattle.sql_text.specs.Texts.{IsTextOf};
ghost use Rattle.sql_text.specs.Printable.{PrintableQuery};
ghost use Rattle.sql_text.specs.Spellable.{SpellableQuery};
ghost use Rattle.sql_text.specs.Printing.{word, reference_tokens, source_tokens, operator, operand_tokens, null_tokens, is_enclosed, parenthesize, condition_tokens, parts_tokens, items_tokens, join_tokens, where_tokens, limit_tokens, query_tokens, query_text, text_of};

use crate::printing::{Print, print_separated, put, put_word, without_last_blank};
use sql_tokens::TokenKind;
use std::alloc::{AllocError, Global};
use vo_spec::{Cmp, Cond, Items, Join, Operand, QueryText, Ref, Source};

impl Print for Source {
    ghost tokens = { source_tokens };

    fn print(&self, alloc: Global, out: &mut Vec<u8>) -> Result<(), AllocError> {
        self.table.print(alloc, out)?;
        put_word(out, TokenKind::As)?;
        self.alias.print(alloc, out)
    }
}

impl Print for Items {
    ghost tokens = { items_tokens };

    fn print(&self, alloc: Global, out: &mut Vec<u8>) -> Result<(), AllocError> {
        match self {
            Items::All => put_word(out, TokenKind::Star),
            Items::Refs(refs) => print_separated(alloc, out, refs.as_slice(), TokenKind::Comma),
        }
    }
}

fn operator(cmp: Cmp) -> TokenKind
    ensures { result ≡ operator cmp }
{
    match cmp {
        Cmp::Eq => TokenKind::Equal,
        Cmp::Ne => TokenKind::NotEqual,
        Cmp::Lt => TokenKind::Less,
        Cmp::Le => TokenKind::LessEqual,
        Cmp::Gt => TokenKind::Greater,
        Cmp::Ge => TokenKind::GreaterEqual,
    }
}

impl Print for Operand {
    ghost tokens = { operand_tokens };

    fn print(&self, alloc: Global, out: &mut Vec<u8>) -> Result<(), AllocError> {
        match self {
            Operand::Ref(reference) => reference.print(alloc, out),
            Operand::Literal(value) => value.print(alloc, out),
        }
    }
}

/// Whether parentheses stand round a part of a NOT, an AND or an OR: its parts would be read as
/// those of another.
fn is_enclosed(in_word: TokenKind, part: &Cond) -> bool
    ensures { result ≡ is_enclosed in_word (condition_of part.now) }
{
    match part {
        Cond::All(_) => !in_word.is(TokenKind::Or),
        Cond::Any(_) => true,
        Cond::Not(_) | Cond::Test { .. } | Cond::IsNull { .. } => false,
    }
}

fn print_test(
    alloc: Global,
    out: &mut Vec<u8>,
    left: &Ref,
    op: Cmp,
    right: &Operand,
) -> Result<(), AllocError>
    ensures { OnOk result (out.new.items ≡ out.old.items
        ++ text_of (reference_tokens left.now ++ word (operator op) ∷ operand_tokens right.now)) }
{
    left.print(alloc, out)?;
    put_word(out, operator(op))?;
    right.print(alloc, out)
}

fn print_null_test(
    alloc: Global,
    out: &mut Vec<u8>,
    left: &Ref,
    negated: bool,
) -> Result<(), AllocError>
    ensures { OnOk result (out.new.items ≡ out.old.items
        ++ text_of (reference_tokens left.now ++ null_tokens negated)) }
{
    left.print(alloc, out)?;
    put_word(out, TokenKind::Is)?;
    if negated {
        put_word(out, TokenKind::Not)?;
    }
    put_word(out, TokenKind::Null)
}

/// Prints a part of a NOT, an AND or an OR.
#[cycle(print_part)]
fn print_part(
    alloc: Global,
    out: &mut Vec<u8>,
    part: &Cond,
    in_word: TokenKind,
) -> Result<(), AllocError>
    ensures { OnOk result (out.new.items ≡ out.old.items
        ++ text_of (parenthesize (is_enclosed in_word (condition_of part.now))
        (condition_tokens (condition_of part.now)))) }
{
    if !is_enclosed(in_word, part) {
        return print_condition(alloc, out, part);
    }
    put_word(out, TokenKind::LeftParen)?;
    print_condition(alloc, out, part)?;
    put_word(out, TokenKind::RightParen)
}

/// Prints the parts of an AND or an OR.
#[cycle(print_part)]
fn print_parts(
    alloc: Global,
    out: &mut Vec<u8>,
    parts: &[Cond],
    word: TokenKind,
) -> Result<(), AllocError>
    ensures { OnOk result (out.new.items ≡ out.old.items
        ++ text_of (drop 1 (parts_tokens word (conditions (map condition_of parts.now))))) }
{
    if let Some((first, others)) = parts.split_first() {
        print_part(alloc, out, first, word)?;
        print_other_parts(alloc, out, others, word)?;
    }
    Ok(())
}

/// Prints each part behind its AND or OR.
#[cycle(print_part)]
fn print_other_parts(
    alloc: Global,
    out: &mut Vec<u8>,
    others: &[Cond],
    word: TokenKind,
) -> Result<(), AllocError>
    ensures { OnOk result (out.new.items ≡ out.old.items
        ++ text_of (parts_tokens word (conditions (map condition_of others.now)))) }
{
    for part in others {
        put_word(out, word)?;
        print_part(alloc, out, part, word)?;
    }
    Ok(())
}

/// Prints a NOT and its part.
#[cycle(print_part)]
fn print_negated(alloc: Global, out: &mut Vec<u8>, part: &Cond) -> Result<(), AllocError>
    ensures { OnOk result (out.new.items ≡ out.old.items
        ++ text_of (condition_tokens (negated (condition_of part.now)))) }
{
    put_word(out, TokenKind::Not)?;
    print_part(alloc, out, part, TokenKind::Not)
}

/// Prints a whole condition.
#[cycle(print_part)]
fn print_condition(alloc: Global, out: &mut Vec<u8>, cond: &Cond) -> Result<(), AllocError>
    ensures { OnOk result (out.new.items ≡ out.old.items
        ++ text_of (condition_tokens (condition_of cond.now))) }
{
    match cond {
        Cond::All(parts) => print_parts(alloc, out, parts.as_slice(), TokenKind::And),
        Cond::Any(parts) => print_parts(alloc, out, parts.as_slice(), TokenKind::Or),
        Cond::Not(part) => print_negated(alloc, out, part),
        Cond::Test { left, op, right } => print_test(alloc, out, left, *op, right),
        Cond::IsNull { left, negated } => print_null_test(alloc, out, left, *negated),
    }
}

impl Print for Join {
    ghost tokens = { join_tokens };

    fn print(&self, alloc: Global, out: &mut Vec<u8>) -> Result<(), AllocError> {
        put_word(out, TokenKind::Join)?;
        self.right.print(alloc, out)?;
        put_word(out, TokenKind::On)?;
        self.left_ref.print(alloc, out)?;
        put_word(out, TokenKind::Equal)?;
        self.right_ref.print(alloc, out)
    }
}

fn print_join(alloc: Global, out: &mut Vec<u8>, join: &Option<Join>) -> Result<(), AllocError>
    ensures { OnOk result (out.new.items ≡ out.old.items
        ++ text_of (option_map_or join_tokens join.now [])) }
{
    match join {
        Some(join) => join.print(alloc, out),
        None => Ok(()),
    }
}

fn print_where(alloc: Global, out: &mut Vec<u8>, cond: &Option<Cond>) -> Result<(), AllocError>
    ensures { OnOk result (out.new.items ≡ out.old.items
        ++ text_of (option_map_or where_tokens (option_map condition_of cond.now) [])) }
{
    match cond {
        Some(cond) => {
            put_word(out, TokenKind::Where)?;
            print_condition(alloc, out, cond)
        }
        None => Ok(()),
    }
}

fn print_limit(alloc: Global, out: &mut Vec<u8>, limit: Option<u32>) -> Result<(), AllocError>
    ensures printed { OnOk result (out.new.items ≡ out.old.items
        ++ text_of (option_map_or limit_tokens limit [])) }
    ensures fits { OnOk result (IfSome limit (λ rows. rows < 2 ^ 32)) }
{
    match limit {
        Some(rows) => {
            put_word(out, TokenKind::Limit)?;
            put(out, rows.to_string(alloc)?.as_bytes())
        }
        None => Ok(()),
    }
}

fn print_clauses(alloc: Global, out: &mut Vec<u8>, query: &QueryText) -> Result<(), AllocError>
    ensures printed { OnOk result (out.new.items ≡ out.old.items
        ++ text_of (query_tokens (query_of query.now))) }
    ensures fits { OnOk result (IfSome query.now.limit (λ rows. rows < 2 ^ 32)) }
{
    put_word(out, TokenKind::Select)?;
    query.items.print(alloc, out)?;
    put_word(out, TokenKind::From)?;
    query.left.print(alloc, out)?;
    print_join(alloc, out, &query.join)?;
    print_where(alloc, out, &query.cond)?;
    print_limit(alloc, out, query.limit)
}

/// The query's text: its tokens with one blank between each two.
pub fn print_query(alloc: Global, query: &QueryText) -> Result<String, AllocError>
    requires { PrintableQuery (query_of query.now) }
    ensures printed { IfOk result (λ text. string_bytes text ≡ query_text (query_of query.now)) }
    ensures reads { SpellableQuery (query_of query.now)
        → IfOk result (λ text. IsTextOf max_sql_bytes query_rule (string_bytes text)
        (query_of query.now)) }
{
    let mut out = Vec::new(alloc);
    print_clauses(alloc, &mut out, query)?;
    // That the bytes are UTF-8 is proved, so they aren't read once more to see it.
    Ok(unsafe { String::from_utf8_unchecked(without_last_blank(out)) })
}
