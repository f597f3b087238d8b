//! One-time signatures.
ghost use Rattle.std.specs.Prelude.{◌≡◌, ◌<◌, ◌++◌, IfOk, IsTrue};
ghost use Rattle.vo_spec.specs.Bytes.{u32_bytes};
ghost use Rattle.vo_spec.specs.OtsSets.{count_of, ots_code_of};
ghost use Rattle.vo_spec.specs.Ots.{randomizer, signed_value, ots_public, ots_candidate, ots_signature, is_ots_form};

use crate::chains::{chain, secret};
use crate::digits::{coef, digits_of};
use std::alloc::{AllocError, Global};
use vo_spec::{Digest, OtsType, u32_bytes};

// The chain number of the hash that makes the randomizer from the seed: no chain has it.
const RANDOMIZER: u16 = 0xfffd;

/// What a leaf's signature releases of chain `i`, where these are the digits that are signed.
pub fn signed_value(
    id: &[u8; 16],
    q: u32,
    ots: OtsType,
    seed: &[u8; 32],
    digits: &[u8; 34],
    i: u16,
) -> Digest
    requires { i < count_of ots }
    ensures { result ≡ signed_value id.now q ots seed.now digits.now i }
{
    chain(
        id,
        q,
        i,
        0,
        coef(digits, i as usize, ots.width()),
        &secret(id, q, i, seed),
    )
}

// The bytes with the typecode and the randomizer of a signature behind them.
fn put_front(mut bytes: Vec<u8>, ots: OtsType, random: &Digest) -> Result<Vec<u8>, AllocError>
    ensures { IfOk result (λ front. front.items ≡ bytes.items ++ u32_bytes (ots_code_of ots)
        ++ random.now) }
{
    bytes.extend_from_slice(&u32_bytes(ots.code()))?;
    bytes.extend_from_slice(random.as_bytes())?;
    Ok(bytes)
}

/// The randomizer of a leaf's signature (RFC 8554, section 4.5), made from the seed as a secret is.
pub fn randomizer(id: &[u8; 16], q: u32, seed: &[u8; 32]) -> Digest
    ensures { result ≡ randomizer id.now q seed.now }
{
    secret(id, q, RANDOMIZER, seed)
}

/// The bytes with the signature of the message by a leaf behind them. It takes no memory where they
/// have room for the signature.
pub fn sign_onto(
    bytes: Vec<u8>,
    id: &[u8; 16],
    q: u32,
    ots: OtsType,
    seed: &[u8; 32],
    message: &[u8],
) -> Result<Vec<u8>, AllocError>
    ensures { IfOk result (λ signed. signed.items ≡ bytes.items
        ++ ots_signature id.now q ots seed.now message.now) }
{
    let random = randomizer(id, q, seed);
    let digits = digits_of(id, q, ots, &random, message);
    let mut signed = put_front(bytes, ots, &random)?;
    for i in 0..ots.count() {
        signed.extend_from_slice(signed_value(id, q, ots, seed, &digits, i).as_bytes())?;
    }
    Ok(signed)
}

/// The signature of the message by a leaf (RFC 8554, section 4.5), a function of leaf, seed and
/// message.
pub fn sign_ots(
    alloc: Global,
    id: &[u8; 16],
    q: u32,
    ots: OtsType,
    seed: &[u8; 32],
    message: &[u8],
) -> Result<Vec<u8>, AllocError>
    ensures bytes { IfOk result (λ signature. signature.items
        ≡ ots_signature id.now q ots seed.now message.now) }
    ensures form { IfOk result (λ signature. IsTrue (is_ots_form ots signature.items)) }
    ensures valid { IfOk result (λ signature. ots_candidate id.now q ots message.now signature.items
        ≡ ots_public id.now q ots seed.now) }
{
    let room = Vec::with_capacity(alloc, ots.signature_len())?;
    sign_onto(room, id, q, ots, seed, message)
}
