//! A SHA-256 digest.
ghost use Rattle.std.specs.Prelude.{◌≡◌, length};

use std::marker::Model;

/// The 32 bytes of a SHA-256 digest (FIPS 180-4); contracts see the list of them.
#[derive(Clone, Copy, PartialEq, Eq, Debug)]
pub struct Digest([u8; 32]);

impl Model for Digest {
    ghost use Rattle.std.specs.Prelude.{◌≡◌, List, ℕ, length};

    ghost Value = { List ℕ };

    ghost view = { λ digest. digest.0 };

    ghost invariant = { λ digest. length digest.0 ≡ 32 };

    ghost inverse = { λ bytes. record { 0 = bytes } };
}

impl Digest {
    /// The digest with these bytes.
    pub fn new(bytes: [u8; 32]) -> Digest
        ensures { result ≡ bytes }
    {
        Digest(bytes)
    }

    /// The digest's bytes.
    pub fn as_bytes(&self) -> &[u8; 32]
        ensures value { result.now ≡ self.now }
        ensures len { length self.now ≡ 32 }
    {
        &self.0
    }
}
