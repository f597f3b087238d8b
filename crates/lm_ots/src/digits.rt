//! The digits of a message's digest that a one-time signature signs, and their checksum.
ghost use Rattle.std.specs.Prelude.{◌≡◌, ◌*◌, ◌^◌, ◌<◌, length, OnOk};
ghost use Rattle.row_bytes.specs.Writing.{Writes};
ghost use Rattle.vo_spec.specs.OtsSets.{IsWidth};
ghost use Rattle.vo_spec.specs.Ots.{coef, checksum_of, message_text, digits_of};
ghost use Rattle.vo_spec.specs.Sha256.{sha256};

use crate::texts::write_prefix;
use row_bytes::ByteSink;
use tagged_hash::Hasher;
use vo_spec::{Digest, OtsType, u16_bytes};

// What the text of a message begins with, after its leaf's name (RFC 8554, section 4.5).
const D_MESG: u16 = 0x8181;

/// Digit `i` of `bytes`, where a digit has `w` bits, which are 1, 2, 4 or 8 (RFC 8554, section
/// 3.1.3).
pub fn coef(bytes: &[u8], i: usize, w: u32) -> u32
    requires width { IsWidth w }
    requires inside { i * w < 8 * length bytes.now }
    ensures value { result ≡ coef bytes.now i w }
    ensures bound { result < 2 ^ w }
{
    let in_a_byte = 8 / w as usize;
    let byte = u32::from(bytes[i / in_a_byte]);
    ((1 << w) - 1) & (byte >> (8 - (w * (i % in_a_byte) as u32 + w)))
}

/// The checksum of a digest (RFC 8554, section 4.4), shifted left as its set says.
pub fn checksum(digest: &Digest, ots: OtsType) -> u16
    ensures { result ≡ checksum_of ots digest.now }
{
    let w = ots.width();
    let mut sum = 0;
    for i in 0..256 / w {
        sum += (1 << w) - 1 - coef(digest.as_bytes(), i as usize, w);
    }
    (sum << ots.shift()) as u16
}

/// Writes what is hashed for a message's digest, under its leaf and its randomizer.
pub fn write_message_text<S: ByteSink>(
    sink: &mut S,
    id: &[u8; 16],
    q: u32,
    random: &Digest,
    message: &[u8],
) -> Result<(), S::Fault>
    ensures { OnOk result
        (Writes S.HoldsBytes sink.old sink.new (message_text id.now q random.now message.now)) }
{
    write_prefix(sink, id, q, D_MESG)?;
    sink.write(random.as_bytes())?;
    sink.write(message)
}

// Q: the digest of a message.
fn message_digest(id: &[u8; 16], q: u32, random: &Digest, message: &[u8]) -> Digest
    ensures { result ≡ sha256 (message_text id.now q random.now message.now) }
{
    let mut hasher = Hasher::new();
    let Ok(()) = write_message_text(&mut hasher, id, q, random, message);
    hasher.end()
}

/// The bytes whose digits are signed for a message: its digest under the leaf and the randomizer,
/// and the checksum.
pub fn digits_of(id: &[u8; 16], q: u32, ots: OtsType, random: &Digest, message: &[u8]) -> [u8; 34]
    ensures { result ≡ digits_of id.now q ots random.now message.now }
{
    let digest = message_digest(id, q, random, message);
    let sum = u16_bytes(checksum(&digest, ots));
    let mut digits = [0; 34];
    digits[..32].copy_from_slice(digest.as_bytes());
    digits[32..].copy_from_slice(&sum);
    digits
}
