//! What one whole token says.
ghost use Rattle.std.specs.Prelude.{◌≡◌, ◌∷◌, suc, length};
ghost use Rattle.vo_spec.specs.Bytes.{IsBytes};
ghost use Rattle.vo_spec.specs.Tables.{max_key};
ghost use Rattle.tree_stream.specs.Tokens.{cell_size, node_size, row_size, string_size, value_size};
ghost use Rattle.tree_stream.specs.Parsing.{IsCellToken, IsCount, IsKeyToken, IsNodeToken, IsRowToken, IsValueToken};

use row_bytes::{Cursor, take_value};
use vo_spec::{Digest, MAX_CELLS, MAX_FILL, MAX_KEY, ValueRef};

/// How a node begins: a stub, or the count of an open one.
#[derive(Drop)]
pub(crate) enum NodeToken {
    Stub(Digest),
    Leaf(u8),
    Inner(u8),
    Invalid,
}

/// How a row begins: its digest, or the count of its cells.
#[derive(Drop)]
pub(crate) enum RowToken {
    Digest(Digest),
    Cells(u8),
    Invalid,
}

fn digest_in(bytes: &[u8]) -> Digest
    requires { length bytes.now ≡ 32 }
    ensures { result ≡ bytes.now }
{
    Digest::new(*chunk_in(bytes))
}

// Inlined, as all that is asked of each cell.
#[inline(always)]
fn chunk_in(bytes: &[u8]) -> &[u8; 32]
    requires { length bytes.now ≡ 32 }
    ensures { result.now ≡ bytes.now }
{
    match bytes.split_first_chunk::<32>() {
        Some((chunk, _)) => chunk,
        None => unreachable!(),
    }
}

/// A cell: its digest, or its value with the bytes of that.
#[derive(Drop)]
pub(crate) enum CellToken<'b> {
    Hidden(&'b [u8; 32]),
    Shown {
        value: ValueRef<'b>,
        encoding: &'b [u8],
    },
}

/// The count that one byte is, within these limits.
#[tactic(auto, unfolding(row_bytes::specs::Reading::byte_at))]
fn count_in(bytes: &[u8], least: u8, most: u8) -> Option<u8>
    requires { length bytes.now ≡ 1 }
    ensures { IsCount least most result bytes.now }
{
    let count = bytes[0];
    if least <= count && count <= most {
        Some(count)
    } else {
        None
    }
}

#[tactic(auto, unfolding(crate::specs::Tokens::node_size))]
pub(crate) fn parse_node(token: &[u8]) -> NodeToken
    requires { length token.now ≡ node_size token.now }
    ensures { IsNodeToken result token.now }
{
    match token.split_first() {
        Some((first, rest)) => parse_node_kind(*first, rest),
        None => unreachable!(),
    }
}

#[tactic(auto, unfolding(crate::specs::Tokens::node_size))]
fn parse_node_kind(first: u8, rest: &[u8]) -> NodeToken
    requires { suc (length rest.now) ≡ node_size (first ∷ rest.now) }
    ensures { IsNodeToken result (first ∷ rest.now) }
{
    if first == 0 {
        return NodeToken::Stub(digest_in(rest));
    }
    if first == 1 {
        return parse_leaf(rest);
    }
    if first == 2 {
        return parse_inner(rest);
    }
    NodeToken::Invalid
}

fn parse_leaf(rest: &[u8]) -> NodeToken
    requires { length rest.now ≡ 1 }
    ensures { IsNodeToken result (1 ∷ rest.now) }
{
    match count_in(rest, 0, MAX_FILL as u8) {
        Some(count) => NodeToken::Leaf(count),
        None => NodeToken::Invalid,
    }
}

fn parse_inner(rest: &[u8]) -> NodeToken
    requires { length rest.now ≡ 1 }
    ensures { IsNodeToken result (2 ∷ rest.now) }
{
    match count_in(rest, 2, MAX_FILL as u8) {
        Some(count) => NodeToken::Inner(count),
        None => NodeToken::Invalid,
    }
}

#[tactic(auto, unfolding(crate::specs::Tokens::row_size))]
pub(crate) fn parse_row(token: &[u8]) -> RowToken
    requires { length token.now ≡ row_size token.now }
    ensures { IsRowToken result token.now }
{
    match token.split_first() {
        Some((first, rest)) => parse_row_kind(*first, rest),
        None => unreachable!(),
    }
}

#[tactic(auto, unfolding(crate::specs::Tokens::row_size))]
fn parse_row_kind(first: u8, rest: &[u8]) -> RowToken
    requires { suc (length rest.now) ≡ row_size (first ∷ rest.now) }
    ensures { IsRowToken result (first ∷ rest.now) }
{
    if first == 0 {
        return RowToken::Digest(digest_in(rest));
    }
    if first == 1 {
        return parse_cells(rest);
    }
    RowToken::Invalid
}

fn parse_cells(rest: &[u8]) -> RowToken
    requires { length rest.now ≡ 1 }
    ensures { IsRowToken result (1 ∷ rest.now) }
{
    match count_in(rest, 0, MAX_CELLS as u8) {
        Some(count) => RowToken::Cells(count),
        None => RowToken::Invalid,
    }
}

/// The key or separator that the token is.
pub(crate) fn parse_key(token: &[u8]) -> Option<&[u8]>
    requires { length token.now ≡ string_size max_key token.now }
    ensures { IsKeyToken result token.now }
{
    match token.split_first_chunk::<2>() {
        None => None,
        Some((front, key)) => {
            if u16::from_be_bytes(*front) as usize <= MAX_KEY {
                Some(key)
            } else {
                None
            }
        },
    }
}

fn parse_value(bytes: &[u8]) -> Option<ValueRef<'_>>
    requires { length bytes.now ≡ value_size bytes.now }
    ensures { IsValueToken result bytes.now }
{
    let mut cursor = Cursor::new(bytes);
    match take_value(&mut cursor) {
        Ok(value) => Some(value),
        Err(_) => None,
    }
}

// Inlined, as all that is asked of each cell, so that its form is told once.
#[tactic(auto, unfolding(crate::specs::Tokens::cell_size))]
#[inline(always)]
pub(crate) fn parse_cell(token: &[u8]) -> Option<CellToken<'_>>
    requires { length token.now ≡ cell_size token.now }
    ensures { IsCellToken result token.now }
{
    match token.split_first() {
        Some((first, rest)) => parse_cell_kind(*first, rest),
        None => unreachable!(),
    }
}

// Inlined, as all that is asked of each cell.
#[tactic(auto, unfolding(crate::specs::Tokens::cell_size))]
#[inline(always)]
fn parse_cell_kind(first: u8, rest: &[u8]) -> Option<CellToken<'_>>
    requires { suc (length rest.now) ≡ cell_size (first ∷ rest.now) }
    ensures { IsCellToken result (first ∷ rest.now) }
{
    if first == 0 {
        return Some(CellToken::Hidden(chunk_in(rest)));
    }
    if first == 1 {
        return parse_shown(rest);
    }
    None
}

fn parse_shown(encoding: &[u8]) -> Option<CellToken<'_>>
    requires { length encoding.now ≡ value_size encoding.now }
    ensures { IsCellToken result (1 ∷ encoding.now) }
{
    match parse_value(encoding) {
        Some(value) => Some(CellToken::Shown { value, encoding }),
        None => None,
    }
}
