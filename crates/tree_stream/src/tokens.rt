//! How many bytes the next token has.
ghost use Rattle.std.specs.Prelude.{◌≡◌, ◌+◌, ◌≤◌};
ghost use Rattle.tree_stream.specs.Tokens.{cell_size as size_of_cell, node_size as size_of_node, row_size as size_of_row, string_size as size_of_string, token_size as size_of_token, value_size as size_of_value};

use crate::state::State;
use vo_spec::{MAX_KEY, MAX_TEXT};

#[tactic(auto, unfolding(crate::specs::Tokens::node_size))]
fn node_size(bytes: &[u8]) -> usize
    ensures { result ≡ size_of_node bytes.now }
{
    match bytes.first() {
        None => 1,
        Some(0) => 33,
        Some(1) => 2,
        Some(2) => 2,
        Some(_) => 1,
    }
}

#[tactic(auto, unfolding(crate::specs::Tokens::string_size, vo_spec::specs::Bytes::u16_of))]
fn string_size(most: usize, bytes: &[u8]) -> usize
    ensures value { result ≡ size_of_string most bytes.now }
    ensures short { result ≤ 2 + most }
{
    match bytes.split_first_chunk::<2>() {
        None => 2,
        Some((front, _)) => {
            let count = u16::from_be_bytes(*front) as usize;
            if count <= most { 2 + count } else { 2 }
        },
    }
}

#[tactic(auto, unfolding(crate::specs::Tokens::row_size))]
fn row_size(bytes: &[u8]) -> usize
    ensures { result ≡ size_of_row bytes.now }
{
    match bytes.first() {
        None => 1,
        Some(0) => 33,
        Some(1) => 2,
        Some(_) => 1,
    }
}

// Inlined, as all that is asked of each cell.
#[tactic(auto, unfolding(crate::specs::Tokens::value_size))]
#[inline(always)]
fn value_size(bytes: &[u8]) -> usize
    ensures value { result ≡ size_of_value bytes.now }
    ensures short { result ≤ 1027 }
{
    match bytes.split_first() {
        None => 1,
        Some((1, _)) => 9,
        Some((2, rest)) => 1 + string_size(MAX_TEXT, rest),
        Some((3, _)) => 2,
        Some(_) => 1,
    }
}

// Inlined, as all that is asked of each cell.
#[tactic(auto, unfolding(crate::specs::Tokens::cell_size))]
#[inline(always)]
pub(crate) fn cell_size(bytes: &[u8]) -> usize
    ensures { result ≡ size_of_cell bytes.now }
{
    match bytes.split_first() {
        None => 1,
        Some((0, _)) => 33,
        Some((1, rest)) => 1 + value_size(rest),
        Some(_) => 1,
    }
}

#[tactic(auto, unfolding(crate::specs::Tokens::token_size))]
pub(crate) fn token_size(state: &State, bytes: &[u8]) -> usize
    ensures { result ≡ size_of_token state.now bytes.now }
{
    match state {
        State::Node(_) => node_size(bytes),
        State::Separator(_) => string_size(MAX_KEY, bytes),
        State::Key(_) => string_size(MAX_KEY, bytes),
        State::Row(_) => row_size(bytes),
        State::Cell(_) => cell_size(bytes),
        State::Complete(_) => bytes.len() + 1,
        State::Invalid => bytes.len() + 1,
    }
}
