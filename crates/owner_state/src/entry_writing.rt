//! Writing entries.
ghost use Rattle.std.specs.Prelude.{◌≡◌, ◌<◌, ◌^◌, ◌++◌, codes, length, IfOk, OnErr, OnOk};
ghost use Rattle.vo_spec.specs.Bytes.{block};
ghost use Rattle.vo_spec.specs.Batches.{batch_bytes};
ghost use Rattle.vo_spec.specs.Records.{FitsRecord, record_bytes};
ghost use Rattle.vo_spec.specs.Journals.{FitsEntry, entry_bytes};
ghost use Rattle.batch_format.specs.Writing.{StaysInFront};

use batch_format::batch_bytes;
use std::alloc::{AllocError, Global};
use version_record::record_bytes;
use vo_spec::{Entry, Record, u32_bytes};

/// The one encoding of an entry.
pub fn entry_bytes(alloc: Global, entry: &Entry) -> Result<Vec<u8>, AllocError>
    requires { FitsEntry entry.now }
    ensures { IfOk result (λ bytes. bytes.items ≡ entry_bytes entry.now) }
{
    let batch = batch_bytes(alloc, &entry.batch)?;
    let mut bytes = Vec::new(alloc);
    put_entry(&mut bytes, &batch, entry)?;
    Ok(bytes)
}

/// Puts an entry at the end, whose batch has these bytes. Where memory runs out, what was there
/// stays in front.
#[tactic(auto, unfolding(vo_spec::specs::Journals::entry_bytes), using(batch_format::proofs::Fronts::stays_itself, batch_format::proofs::Fronts::stays_before, batch_format::proofs::Fronts::stays_behind))]
pub(crate) fn put_entry(out: &mut Vec<u8>, batch: &[u8], entry: &Entry) -> Result<(), AllocError>
    requires fits { FitsEntry entry.now }
    requires batch { batch.now ≡ batch_bytes entry.now.batch.commands }
    ensures ok { OnOk result (out.new.items ≡ out.old.items ++ entry_bytes entry.now) }
    ensures err { OnErr result (StaysInFront out.old.items out.new.items) }
{
    put_proved_batch(out, batch, entry.proofs.as_slice())?;
    put_signed_record(out, &entry.rec, entry.signature.as_slice())
}

/// Puts at the end what an entry begins with, up to its proofs.
#[tactic(auto, using(batch_format::proofs::Fronts::stays_itself, batch_format::proofs::Fronts::stays_before, batch_format::proofs::Fronts::stays_behind))]
fn put_proved_batch(out: &mut Vec<u8>, batch: &[u8], proofs: &[u8]) -> Result<(), AllocError>
    requires batch { length batch.now < 2 ^ 32 }
    requires proofs { length proofs.now < 2 ^ 32 }
    ensures ok { OnOk result (out.new.items
        ≡ out.old.items ++ (codes "VOE1" ++ block batch.now ++ block proofs.now)) }
    ensures err { OnErr result (StaysInFront out.old.items out.new.items) }
{
    out.extend_from_slice(b"VOE1")?;
    put_block(out, batch)?;
    put_block(out, proofs)
}

/// Puts at the end what an entry ends with.
#[tactic(auto, using(batch_format::proofs::Fronts::stays_itself, batch_format::proofs::Fronts::stays_before, batch_format::proofs::Fronts::stays_behind))]
fn put_signed_record(out: &mut Vec<u8>, rec: &Record, signature: &[u8]) -> Result<(), AllocError>
    requires rec { FitsRecord rec.now }
    requires signature { length signature.now < 2 ^ 32 }
    ensures ok { OnOk result (out.new.items
        ≡ out.old.items ++ (record_bytes rec.now ++ block signature.now)) }
    ensures err { OnErr result (StaysInFront out.old.items out.new.items) }
{
    out.extend_from_slice(&record_bytes(rec))?;
    put_block(out, signature)
}

/// Puts bytes behind their length at the end.
#[tactic(auto, using(batch_format::proofs::Fronts::stays_itself, batch_format::proofs::Fronts::stays_before, batch_format::proofs::Fronts::stays_behind))]
fn put_block(out: &mut Vec<u8>, bytes: &[u8]) -> Result<(), AllocError>
    requires { length bytes.now < 2 ^ 32 }
    ensures ok { OnOk result (out.new.items ≡ out.old.items ++ block bytes.now) }
    ensures err { OnErr result (StaysInFront out.old.items out.new.items) }
{
    out.extend_from_slice(&u32_bytes(bytes.len() as u32))?;
    out.extend_from_slice(bytes)
}

/// How many bytes an entry has whose batch has these.
pub fn entry_length(batch: &[u8], entry: &Entry) -> u32
    requires fits { FitsEntry entry.now }
    requires batch { batch.now ≡ batch_bytes entry.now.batch.commands }
    ensures { result ≡ length (entry_bytes entry.now) }
{
    (76 + batch.len() + entry.proofs.len() + entry.signature.len()) as u32
}
