//! How many bytes a check holds of the reply that is at hand.
use crate::state::State;
use line_pieces::NoAnswer;
use std::alloc::{AllocError, Global};
use vo_check::{Checking, Client};

/// How many bytes are held before the first piece, and behind each.
pub fn count_held(alloc: Global, state: &State, sizes: &[usize]) -> Result<String, NoAnswer> {
    let client = Client::new(state.key()?, 0);
    let mut checking = client.begin(alloc, state.query()?);
    let mut text = format!(in alloc; "{}", checking.held())?;
    let fed = feed_counted(alloc, &mut checking, sizes, &state.reply, &mut text);
    drop(checking);
    fed?;
    Ok(text)
}

fn feed_counted(
    alloc: Global,
    checking: &mut Checking<'_>,
    sizes: &[usize],
    reply: &[u8],
    text: &mut String,
) -> Result<(), AllocError> {
    let mut left = reply;
    // A round takes a byte at least.
    for _ in 0..reply.len() {
        if left.is_empty() {
            break;
        }
        left = count_round(alloc, checking, sizes, left, text)?;
    }
    Ok(())
}

/// Feeds a piece of each size, as far as there are bytes, and has what is left.
fn count_round<'b>(
    alloc: Global,
    checking: &mut Checking<'_>,
    sizes: &[usize],
    bytes: &'b [u8],
    text: &mut String,
) -> Result<&'b [u8], AllocError> {
    let mut left = bytes;
    for size in sizes {
        if left.is_empty() {
            break;
        }
        let (piece, behind) = left.split_at(left.len().min(*size));
        checking.feed(alloc, piece)?;
        put_count(alloc, text, checking.held())?;
        left = behind;
    }
    Ok(left)
}

fn put_count(alloc: Global, text: &mut String, count: usize) -> Result<(), AllocError> {
    let piece = format!(in alloc; " {count}")?;
    text.push_str(&piece)
}
