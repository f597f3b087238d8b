//! SHA-256 (FIPS 180-4) of byte strings, whole or in pieces, and collisions of it.
#![tactic(auto)]

ghost use Rattle.std.specs.Prelude.{◌≡◌, ◌↔◌, IsSome, IfSome};
ghost use Rattle.vo_spec.specs.Collides.{Collides};
ghost use Rattle.vo_spec.specs.Sha256.{sha256};

mod hasher;

pub use hasher::Hasher;
use sha2::{Digest as _, Sha256};
pub use vo_spec::{Collision, Digest};

/// The SHA-256 digest of the bytes.
pub fn digest_of(bytes: &[u8]) -> Digest
    ensures { result ≡ sha256 bytes.now }
{
    Digest::new(Sha256::digest(bytes))
}

/// The two strings as a collision, if they are one. It takes no memory.
pub fn collision(first: Vec<u8>, second: Vec<u8>) -> Option<Collision>
    ensures exactly { IsSome result ↔ Collides first.items second.items }
    ensures kept { IfSome result (λ found. found ≡ (first.items, second.items)) }
{
    if first.as_slice() != second.as_slice() && digest_of(&first) == digest_of(&second) {
        Some(Collision::new(first, second))
    } else {
        None
    }
}
