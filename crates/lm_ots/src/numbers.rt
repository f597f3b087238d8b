//! Numbers and digests at places of byte strings.
ghost use Rattle.std.specs.Prelude.{◌≡◌, ◌+◌, ◌≤◌, length};
ghost use Rattle.vo_spec.specs.Bytes.{u32_at, digest_at};

use vo_spec::Digest;

/// The number that the four bytes from `at` on spell.
#[tactic(auto, unfolding(vo_spec::specs::Bytes::u32_at))]
pub fn u32_at(bytes: &[u8], at: usize) -> u32
    requires { at + 4 ≤ length bytes.now }
    ensures { result ≡ u32_at bytes.now at }
{
    u32::from_be_bytes([bytes[at], bytes[at + 1], bytes[at + 2], bytes[at + 3]])
}

/// The digest that the 32 bytes from `at` on are.
#[tactic(auto, unfolding(vo_spec::specs::Bytes::digest_at))]
pub fn digest_at(bytes: &[u8], at: usize) -> Digest
    requires { at + 32 ≤ length bytes.now }
    ensures { result ≡ digest_at bytes.now at }
{
    let mut digest = [0; 32];
    digest.copy_from_slice(&bytes[at..at + 32]);
    Digest::new(digest)
}
