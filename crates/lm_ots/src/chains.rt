//! Hash chains, and the public key that their ends make.
ghost use Rattle.std.specs.Prelude.{◌≡◌, ◌-◌, ◌≤◌, ◌<◌, OnOk};
ghost use Rattle.row_bytes.specs.Writing.{Writes};
ghost use Rattle.vo_spec.specs.Bytes.{join_pieces};
ghost use Rattle.vo_spec.specs.OtsSets.{count_of};
ghost use Rattle.vo_spec.specs.Ots.{
  step,
  step_text,
  advance,
  secret,
  public_text,
  public_end,
  ots_public,
};

use crate::texts::write_prefix;
use row_bytes::ByteSink;
use tagged_hash::Hasher;
use vo_spec::{Digest, OtsType};

/// What the text of a public key begins with, after its leaf's name (RFC 8554, section 4.3).
pub(crate) const D_PBLC: u16 = 0x8080;

// The step number of the hash that makes a secret from the seed: no step of a chain has it.
const OF_SEED: u8 = 0xff;

/// Writes what is hashed at step `j` of chain `i`.
pub fn write_step_text<S: ByteSink>(
    sink: &mut S,
    id: &[u8; 16],
    q: u32,
    i: u16,
    j: u8,
    value: &Digest,
) -> Result<(), S::Fault>
    ensures { OnOk result
        (Writes S.HoldsBytes sink.old sink.new (step_text id.now q i j value.now)) }
{
    write_prefix(sink, id, q, i)?;
    sink.write(&[j])?;
    sink.write(value.as_bytes())
}

// The value after step `j` of chain `i`.
fn step(id: &[u8; 16], q: u32, i: u16, j: u8, value: &Digest) -> Digest
    ensures { result ≡ step id.now q i j value.now }
{
    let mut hasher = Hasher::new();
    let Ok(()) = write_step_text(&mut hasher, id, q, i, j, value);
    hasher.end()
}

/// The secret start of chain `i` (RFC 8554, appendix A). At numbers that no chain has, other secrets
/// are made of the seed in the same way.
pub fn secret(id: &[u8; 16], q: u32, i: u16, seed: &[u8; 32]) -> Digest
    ensures { result ≡ secret id.now q seed.now i }
{
    step(id, q, i, OF_SEED, &Digest::new(*seed))
}

/// The value of chain `i` after the steps `from` to `to - 1`.
pub fn chain(id: &[u8; 16], q: u32, i: u16, from: u32, to: u32, start: &Digest) -> Digest
    requires order { from ≤ to }
    requires last { to ≤ 255 }
    ensures { result ≡ advance id.now q i from (to - from) start.now }
{
    let mut value = *start;
    for j in from..to {
        value = step(id, q, i, j as u8, &value);
    }
    value
}

// The end of chain `i`.
fn public_end(id: &[u8; 16], q: u32, ots: OtsType, seed: &[u8; 32], i: u16) -> Digest
    requires { i < count_of ots }
    ensures { result ≡ public_end id.now q ots seed.now i }
{
    chain(id, q, i, 0, (1 << ots.width()) - 1, &secret(id, q, i, seed))
}

/// Writes what is hashed for the public key of a leaf.
pub fn write_public_text<S: ByteSink>(
    sink: &mut S,
    id: &[u8; 16],
    q: u32,
    ots: OtsType,
    seed: &[u8; 32],
) -> Result<(), S::Fault>
    ensures { OnOk result (Writes S.HoldsBytes sink.old sink.new
        (public_text id.now q (join_pieces (public_end id.now q ots seed.now) (count_of ots)))) }
{
    write_prefix(sink, id, q, D_PBLC)?;
    for i in 0..ots.count() {
        sink.write(public_end(id, q, ots, seed, i).as_bytes())?;
    }
    Ok(())
}

/// The public key of a leaf (RFC 8554, section 4.3).
#[tactic(auto, unfolding(vo_spec::specs::Ots::ots_public))]
pub fn public_of(id: &[u8; 16], q: u32, ots: OtsType, seed: &[u8; 32]) -> Digest
    ensures { result ≡ ots_public id.now q ots seed.now }
{
    let mut hasher = Hasher::new();
    let Ok(()) = write_public_text(&mut hasher, id, q, ots, seed);
    hasher.end()
}
