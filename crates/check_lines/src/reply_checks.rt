//! The checks of a reply that is at hand, whole and in pieces.
use crate::line::Pieces;
use crate::state::State;
use line_pieces::{NoAnswer, form_of};
use std::alloc::{AllocError, Global};
use vo_check::{Answer, CheckFault, Checking, Client};

/// The answers to the reply's shorter fronts: how many have that of the first one, and what the
/// next one has.
pub fn check_fronts(alloc: Global, state: &State, pieces: &Pieces) -> Result<String, NoAnswer> {
    let first = check_both_ways(alloc, state, pieces, &[])?;
    for length in 1..state.reply.len() {
        let answer = check_both_ways(alloc, state, pieces, &state.reply[..length])?;
        if answer != first {
            return Ok(format!(in alloc; "{length} * {first}, then {answer}")?);
        }
    }
    Ok(format!(in alloc; "{} * {first}", state.reply.len())?)
}

/// The answer to a reply, or both where it has another one in pieces.
pub fn check_both_ways(
    alloc: Global,
    state: &State,
    pieces: &Pieces,
    reply: &[u8],
) -> Result<String, NoAnswer> {
    let whole = check_whole(alloc, state, pieces.least, reply)?;
    let in_pieces = check_in_pieces(alloc, state, pieces, reply)?;
    if whole == in_pieces {
        Ok(whole)
    } else {
        Ok(format!(in alloc; "whole {whole} pieces {in_pieces}")?)
    }
}

fn check_whole(alloc: Global, state: &State, least: u64, reply: &[u8]) -> Result<String, NoAnswer> {
    let mut client = Client::new(state.key()?, least);
    let answer = client.check_whole(alloc, state.query()?, reply);
    answer_text(alloc, &client, answer)
}

fn check_in_pieces(
    alloc: Global,
    state: &State,
    pieces: &Pieces,
    reply: &[u8],
) -> Result<String, NoAnswer> {
    let client = Client::new(state.key()?, pieces.least);
    let mut checking = client.begin(alloc, state.query()?);
    let fed = feed_pieces(alloc, &mut checking, &pieces.sizes, reply);
    end_check(alloc, client, checking, fed)
}

/// The answer of a check that was fed, or why it wasn't.
pub fn end_check(
    alloc: Global,
    mut client: Client,
    checking: Checking<'_>,
    fed: Result<(), NoAnswer>,
) -> Result<String, NoAnswer> {
    let answer = checking.end(alloc, &mut client);
    fed.and(answer_text(alloc, &client, answer))
}

fn feed_pieces(
    alloc: Global,
    checking: &mut Checking<'_>,
    sizes: &[usize],
    reply: &[u8],
) -> Result<(), NoAnswer> {
    let mut left = reply;
    // A round takes a byte at least.
    for _ in 0..reply.len() {
        if left.is_empty() {
            break;
        }
        left = feed_round(alloc, checking, sizes, left)?;
    }
    Ok(())
}

/// Feeds a piece of each size, and has what is left.
fn feed_round<'b>(
    alloc: Global,
    checking: &mut Checking<'_>,
    sizes: &[usize],
    bytes: &'b [u8],
) -> Result<&'b [u8], AllocError> {
    let mut left = bytes;
    for size in sizes {
        let (piece, behind) = left.split_at(left.len().min(*size));
        checking.feed(alloc, piece)?;
        left = behind;
    }
    Ok(left)
}

/// What the client answered, and the least version that it takes now.
fn answer_text(
    alloc: Global,
    client: &Client,
    answer: Result<Answer, CheckFault>,
) -> Result<String, NoAnswer> {
    let form = form_of(alloc, &answer);
    // By a call, how an answer is let go of is spelled out nowhere here.
    drop(answer);
    Ok(format!(in alloc; "{} least {}", form?, client.least())?)
}
