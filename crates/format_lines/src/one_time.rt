//! Calls of one-time signatures.
use crate::arguments::{array_of, digest_in, number_of, set_of, small_number_of};
use crate::hashing::hex_digest;
use crate::state::State;
use line_pieces::NoAnswer;
use lm_ots::{candidate as candidate_of, checksum as checksum_of, coef, public_of, sign_ots};
use std::alloc::Global;

/// A digit of bytes, of the width of a set.
pub fn digit(alloc: Global, strings: &[Vec<u8>]) -> Result<String, NoAnswer> {
    let [set, bytes, index] = strings else {
        return Err(NoAnswer::NoSuchLine);
    };
    let width = set_of(set)?.width();
    let index = number_of(index)?;
    let bytes = bytes.as_slice();
    if bytes.len() > 64 || index > 511 || index * u64::from(width) >= 8 * bytes.len() as u64 {
        return Err(NoAnswer::NoSuchLine);
    }
    Ok(format!(in alloc; "{}", coef(bytes, index as usize, width))?)
}

/// The checksum of a digest.
pub fn checksum(alloc: Global, strings: &[Vec<u8>]) -> Result<String, NoAnswer> {
    let [set, digest] = strings else {
        return Err(NoAnswer::NoSuchLine);
    };
    let sum = checksum_of(&digest_in(digest)?, set_of(set)?);
    Ok(format!(in alloc; "{sum}")?)
}

/// The public key of a leaf.
pub fn ots_public(alloc: Global, strings: &[Vec<u8>]) -> Result<String, NoAnswer> {
    let [set, id, leaf, seed] = strings else {
        return Err(NoAnswer::NoSuchLine);
    };
    let id = array_of::<16>(id)?;
    let seed = array_of::<32>(seed)?;
    let key = public_of(&id, small_number_of(leaf)?, set_of(set)?, &seed);
    hex_digest(alloc, key)
}

/// The signature of a message by a leaf, which is kept.
pub fn ots_sign(alloc: Global, state: &mut State, strings: &[Vec<u8>]) -> Result<String, NoAnswer> {
    let [set, id, leaf, seed, message] = strings else {
        return Err(NoAnswer::NoSuchLine);
    };
    let id = array_of::<16>(id)?;
    let seed = array_of::<32>(seed)?;
    let leaf = small_number_of(leaf)?;
    let signature = sign_ots(alloc, &id, leaf, set_of(set)?, &seed, message)?;
    state.keep(alloc, signature)
}

/// The public key that a signature leads to.
pub fn candidate(alloc: Global, strings: &[Vec<u8>]) -> Result<String, NoAnswer> {
    let [set, id, leaf, message, signature] = strings else {
        return Err(NoAnswer::NoSuchLine);
    };
    let id = array_of::<16>(id)?;
    let leaf = small_number_of(leaf)?;
    match candidate_of(&id, leaf, set_of(set)?, message, signature) {
        Some(key) => hex_digest(alloc, key),
        None => Ok("none".to_string(alloc)?),
    }
}
