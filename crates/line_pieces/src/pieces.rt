//! Byte strings as lines spell them.
use crate::no_answer::NoAnswer;
use std::alloc::Global;

/// Puts the bytes of a piece: hexadecimal digits, or `DIGITS*COUNT`, whose bytes stand so often.
pub fn put_piece(alloc: Global, bytes: &mut Vec<u8>, piece: &str) -> Result<(), NoAnswer> {
    let (digits, count) = piece.split_once('*').unwrap_or((piece, "1"));
    let Ok(count) = count.parse::<u32>() else {
        return Err(NoAnswer::NoSuchLine);
    };
    let Ok(once) = hex::decode(alloc, digits) else {
        return Err(NoAnswer::NoSuchLine);
    };
    for _ in 0..count {
        bytes.extend_from_slice(&once)?;
    }
    Ok(())
}
