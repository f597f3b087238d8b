//! Evidence that a digest is not the digest of one byte string alone.
ghost use Rattle.std.specs.Prelude.{◌≡◌};
ghost use Rattle.vo_spec.specs.Collides.{Collides};

use std::marker::Model;

/// Two different byte strings with one SHA-256 digest; contracts see the pair of them.
#[derive(Drop)]
pub struct Collision {
    first: Vec<u8>,
    second: Vec<u8>,
}

impl Model for Collision {
    ghost use Rattle.std.specs.Prelude.{List, ℕ};
    ghost use Rattle.vo_spec.specs.Collides.{Collides};

    ghost Value = { List ℕ × List ℕ };

    ghost view = { λ collision. (collision.first.items, collision.second.items) };

    ghost invariant = { λ collision. Collides collision.first.items collision.second.items };
}

impl Collision {
    /// The two strings as a collision.
    pub fn new(first: Vec<u8>, second: Vec<u8>) -> Collision
        requires { Collides first.items second.items }
        ensures { result ≡ (first.items, second.items) }
    {
        Collision { first, second }
    }

    /// The one string.
    pub fn first(&self) -> &[u8]
        ensures value { result.now ≡ self.now.0 }
        ensures real { Collides self.now.0 self.now.1 }
    {
        self.first.as_slice()
    }

    /// The other string.
    pub fn second(&self) -> &[u8]
        ensures value { result.now ≡ self.now.1 }
        ensures real { Collides self.now.0 self.now.1 }
    {
        self.second.as_slice()
    }
}
