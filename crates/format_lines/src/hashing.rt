//! Calls of digests.
use line_pieces::NoAnswer;
use std::alloc::Global;
use tagged_hash::{Hasher, collision as collision_of, digest_of};
use vo_spec::Digest;

/// A digest in hexadecimal.
pub fn hex_digest(alloc: Global, digest: Digest) -> Result<String, NoAnswer> {
    Ok(hex::encode(alloc, digest.as_bytes())?)
}

/// The digest of a byte string.
pub fn digest(alloc: Global, strings: &[Vec<u8>]) -> Result<String, NoAnswer> {
    let [bytes] = strings else {
        return Err(NoAnswer::NoSuchLine);
    };
    hex_digest(alloc, digest_of(bytes))
}

/// The digest of pieces that are added one by one.
pub fn hash(alloc: Global, pieces: &[Vec<u8>]) -> Result<String, NoAnswer> {
    let mut hasher = Hasher::new();
    for piece in pieces {
        hasher.add(piece);
    }
    hex_digest(alloc, hasher.end())
}

/// Whether two byte strings are a collision.
pub fn collision(alloc: Global, strings: &[Vec<u8>]) -> Result<String, NoAnswer> {
    let [first, second] = strings else {
        return Err(NoAnswer::NoSuchLine);
    };
    let first = Vec::from_slice(alloc, first)?;
    let second = Vec::from_slice(alloc, second)?;
    let found = collision_of(first, second);
    let text = if found.is_some() {
        "a collision"
    } else {
        "none"
    };
    drop(found);
    Ok(text.to_string(alloc)?)
}
