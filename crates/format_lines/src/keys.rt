//! Calls of keys: the secret key that was made last, and public keys.
ghost use Rattle.std.specs.Prelude.{◌≡◌, ◌⊎◌, IfOk};

use crate::arguments::{array_of, number_of, set_of, small_number_of};
use crate::hashing::hex_digest;
use crate::state::State;
use line_pieces::NoAnswer;
use lms_sign::{KeyFault, PublicKey, SecretKey, SignFault, verify as verifies};
use std::alloc::Global;
use vo_spec::Levels;

/// The public key of the secret key of so many levels that is made, which is kept.
pub fn make(
    alloc: Global,
    state: &mut State,
    levels: Levels,
    strings: &[Vec<u8>],
) -> Result<String, NoAnswer> {
    let [height, set, id, seed] = strings else {
        return Err(NoAnswer::NoSuchLine);
    };
    let height = height_of(height)?;
    let id = array_of::<16>(id)?;
    let seed = array_of::<32>(seed)?;
    let key = match levels {
        Levels::One => SecretKey::make(alloc, id, seed, set_of(set)?, height)?,
        Levels::Two => SecretKey::make_hss(alloc, id, seed, set_of(set)?, height)?,
    };
    state.keep_key(key);
    public_key_text(alloc, state.secret()?)
}

/// Keys are made of two heights alone.
fn height_of(bytes: &[u8]) -> Result<u32, NoAnswer>
    ensures { IfOk result (λ height. (height ≡ 5) ⊎ (height ≡ 10)) }
{
    match number_of(bytes)? {
        5 => Ok(5),
        10 => Ok(10),
        _ => Err(NoAnswer::NoSuchLine),
    }
}

fn public_key_text(alloc: Global, key: &SecretKey) -> Result<String, NoAnswer> {
    Ok(hex::encode(alloc, key.public().bytes(alloc)?)?)
}

/// Keeps a copy of the key in its place, and has its public key.
pub fn copy(alloc: Global, state: &mut State) -> Result<String, NoAnswer> {
    let key = state.secret()?.copy(alloc)?;
    state.keep_key(key);
    public_key_text(alloc, state.secret()?)
}

/// A node of the key's tree, of the upper one where there are two.
pub fn node(alloc: Global, state: &State, strings: &[Vec<u8>]) -> Result<String, NoAnswer> {
    let [number] = strings else {
        return Err(NoAnswer::NoSuchLine);
    };
    let number = small_number_of(number)?;
    // all keys have nodes up to here
    if number < 1 || number > 63 {
        return Err(NoAnswer::NoSuchLine);
    }
    hex_digest(alloc, state.secret()?.tree().node(number))
}

/// The key's signature of a message by a leaf, which is kept.
pub fn sign(alloc: Global, state: &mut State, strings: &[Vec<u8>]) -> Result<String, NoAnswer> {
    let [leaf, message] = strings else {
        return Err(NoAnswer::NoSuchLine);
    };
    match state.secret()?.sign(alloc, number_of(leaf)?, message) {
        Ok(signature) => state.keep(alloc, signature),
        Err(SignFault::Leaf) => Ok("Leaf".to_string(alloc)?),
        Err(SignFault::Memory) => Err(NoAnswer::Memory),
    }
}

/// A public key's identifier, its number of leaves, the length of its signatures, and its bytes
/// again.
pub fn key(alloc: Global, strings: &[Vec<u8>]) -> Result<String, NoAnswer> {
    let [bytes] = strings else {
        return Err(NoAnswer::NoSuchLine);
    };
    match PublicKey::read(bytes) {
        Ok(key) => key_text(alloc, &key),
        Err(KeyFault::Length) => Ok("Length".to_string(alloc)?),
        Err(KeyFault::UnknownSet) => Ok("UnknownSet".to_string(alloc)?),
    }
}

fn key_text(alloc: Global, key: &PublicKey) -> Result<String, NoAnswer> {
    let id = hex::encode(alloc, key.id())?;
    let bytes = hex::encode(alloc, key.bytes(alloc)?)?;
    let leaves = key.leaf_count();
    let length = key.signature_len();
    Ok(format!(in alloc; "{id} {leaves} {length} {bytes}")?)
}

/// The public key that the bytes are.
pub fn read_key(bytes: &[u8]) -> Result<PublicKey, NoAnswer> {
    match PublicKey::read(bytes) {
        Ok(key) => Ok(key),
        Err(_) => Err(NoAnswer::NoSuchLine),
    }
}

/// The leaf that a signature says it is by.
pub fn leaf(alloc: Global, strings: &[Vec<u8>]) -> Result<String, NoAnswer> {
    let [key, signature] = strings else {
        return Err(NoAnswer::NoSuchLine);
    };
    match read_key(key)?.leaf_of(signature) {
        Some(leaf) => Ok(format!(in alloc; "{leaf}")?),
        None => Ok("none".to_string(alloc)?),
    }
}

/// Whether the signature of a message is valid under a key.
pub fn verify(alloc: Global, strings: &[Vec<u8>]) -> Result<String, NoAnswer> {
    let [key, message, signature] = strings else {
        return Err(NoAnswer::NoSuchLine);
    };
    if verifies(&read_key(key)?, message, signature) {
        Ok("valid".to_string(alloc)?)
    } else {
        Ok("invalid".to_string(alloc)?)
    }
}
