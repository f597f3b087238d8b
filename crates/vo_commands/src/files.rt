//! Taking the files that a command names, in the order of its words.
ghost use Rattle.std.specs.Prelude.{◌≡◌, ◌==◌, length, take, drop, is_some, IfOk, IfSome};
ghost use Rattle.cli_args.specs.Shapes.{plain_shape};
ghost use Rattle.vo_commands.specs.Expected.{with_file, with_seed, with_secret, secret_by, seed_limit, with_key, with_public};
ghost use Rattle.vo_commands.specs.Reports.{GoesOn, StaysInside};
ghost use Rattle.vo_commands.specs.Taking.{TakesFiles, One};

use crate::limits::{KEY_LIMIT, SEED_LIMIT};
use crate::piece::Word;
use crate::refusals::refusal_report;
use crate::report::{Status, Stop};
use cli_args::{KeyShape, Levels};
use lms_sign::{OtsType, PublicKey, SecretKey};
use outside::{Shelf, TakeFault};
use std::alloc::{AllocError, Global};

/// A file by its name; one over its limit is refused.
pub fn take_file<F: Shelf>(
    alloc: Global,
    files: &mut F,
    name: &str,
    limit: u64,
) -> Result<Vec<u8>, Stop>
    ensures known { IfSome (F.contents files.old)
        (λ known. GoesOn (λ bytes. bytes.items) (with_file known name.now limit) result) }
    ensures files { TakesFiles F.contents F.faults F.misses (One name.now) files.old files.new
        result }
{
    match files.take(alloc, name, limit) {
        Ok(bytes) => Ok(bytes),
        Err(TakeFault::Failed) => Err(Stop::Outside),
        Err(TakeFault::TooLong) => {
            let words = [Word::Phrase("file too long"), Word::Phrase(name)];
            Err(Stop::Refused(refusal_report(alloc, Status::RefusedInput, &words)?))
        }
        Err(TakeFault::Memory) => Err(Stop::Memory),
    }
}

/// The secret key of a seed file, which has the identifier and the seed, 48 bytes in all.
pub fn take_seed<F: Shelf>(
    alloc: Global,
    files: &mut F,
    name: &str,
    shape: KeyShape,
) -> Result<SecretKey, Stop>
    ensures known { IfSome (F.contents files.old)
        (λ known. GoesOn (λ key. key) (with_seed known name.now (plain_shape shape)) result) }
    ensures files { TakesFiles F.contents F.faults F.misses (One name.now) files.old files.new
        result }
{
    let bytes = take_file(alloc, files, name, SEED_LIMIT)?;
    secret_key(alloc, &bytes, shape)
}

fn secret_key(alloc: Global, bytes: &[u8], shape: KeyShape) -> Result<SecretKey, Stop>
    ensures known { GoesOn (λ key. key)
        (λ rest. with_secret (plain_shape shape) rest bytes.now) result }
    ensures inside { StaysInside result }
{
    let Some((id, seed)) = parts_of(bytes) else {
        let words = [Word::Phrase("seed file"), Word::Number(bytes.len() as u64)];
        return Err(Stop::Refused(refusal_report(alloc, Status::RefusedInput, &words)?));
    };
    Ok(key_of(alloc, *id, *seed, shape)?)
}

/// The key of an identifier and a seed.
fn key_of(
    alloc: Global,
    id: [u8; 16],
    seed: [u8; 32],
    shape: KeyShape,
) -> Result<SecretKey, AllocError>
    ensures { IfOk result (λ key. key ≡ secret_by (plain_shape shape) id seed) }
{
    let height = shape.height.number();
    match shape.levels {
        Levels::One => SecretKey::make(alloc, id, seed, OtsType::W8, height),
        Levels::Two => SecretKey::make_hss(alloc, id, seed, OtsType::W8, height),
    }
}

/// The identifier and the seed, where there are 48 bytes.
fn parts_of(bytes: &[u8]) -> Option<(&[u8; 16], &[u8; 32])>
    ensures some { is_some result ≡ (length bytes.now == seed_limit) }
    ensures parts { IfSome result (λ parts. (parts.0.now ≡ take 16 bytes.now)
        × (parts.1.now ≡ take 32 (drop 16 bytes.now))) }
{
    let (id, rest) = bytes.split_first_chunk::<16>()?;
    let (seed, rest) = rest.split_first_chunk::<32>()?;
    if rest.is_empty() {
        Some((id, seed))
    } else {
        None
    }
}

/// The public key of a key file.
pub fn take_key<F: Shelf>(alloc: Global, files: &mut F, name: &str) -> Result<PublicKey, Stop>
    ensures known { IfSome (F.contents files.old)
        (λ known. GoesOn (λ key. key) (with_key known name.now) result) }
    ensures files { TakesFiles F.contents F.faults F.misses (One name.now) files.old files.new
        result }
{
    let bytes = take_file(alloc, files, name, KEY_LIMIT)?;
    public_key(alloc, &bytes)
}

fn public_key(alloc: Global, bytes: &[u8]) -> Result<PublicKey, Stop>
    ensures known { GoesOn (λ key. key) (λ rest. with_public rest bytes.now) result }
    ensures inside { StaysInside result }
{
    match PublicKey::read(bytes) {
        Ok(key) => Ok(key),
        Err(_) => {
            let words = [Word::Phrase("key file")];
            Err(Stop::Refused(refusal_report(alloc, Status::RefusedInput, &words)?))
        }
    }
}
