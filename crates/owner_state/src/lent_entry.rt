//! An entry as it is read: what only some look at stays in the bytes that it was read from.
ghost use Rattle.std.specs.Prelude.{◌≡◌, IfOk};
ghost use Rattle.owner_state.specs.Reading.{entry_with};

use std::alloc::{AllocError, Global};
use std::marker::Model;
use vo_spec::{Batch, Entry, List, Record};

/// An entry whose proofs and signature are lent by the journal's bytes. Contracts see the entry.
#[derive(Debug, Drop)]
pub struct LentEntry<'b> {
    batch: Batch,
    proofs: &'b [u8],
    rec: Record,
    signature: &'b [u8],
}

impl<'b> Model for LentEntry<'b> {
    ghost use Rattle.vo_spec.specs.declared.records.Entry.{Entry as Plain};

    ghost Value = { Plain };

    ghost view = { λ entry. record {
      batch = entry.batch;
      proofs = entry.proofs.now;
      rec = entry.rec;
      signature = entry.signature.now;
    } };
}

impl<'b> LentEntry<'b> {
    pub(crate) fn new(
        batch: Batch,
        proofs: &'b [u8],
        rec: Record,
        signature: &'b [u8],
    ) -> LentEntry<'b>
        ensures { result ≡ entry_with batch.commands proofs.now rec signature.now }
    {
        LentEntry {
            batch,
            proofs,
            rec,
            signature,
        }
    }

    pub fn batch(&self) -> &Batch
        ensures { result.now ≡ self.now.batch }
    {
        &self.batch
    }

    pub fn proofs(&self) -> &'b [u8]
        ensures { result.now ≡ self.now.proofs }
    {
        self.proofs
    }

    pub fn rec(&self) -> &Record
        ensures { result.now ≡ self.now.rec }
    {
        &self.rec
    }

    pub fn signature(&self) -> &'b [u8]
        ensures { result.now ≡ self.now.signature }
    {
        self.signature
    }

    /// The entry with proofs and a signature of its own.
    pub fn into_entry(self, alloc: Global) -> Result<Entry, AllocError>
        ensures { IfOk result (λ entry. entry ≡ self.entry) }
    {
        let LentEntry {
            batch,
            proofs,
            rec,
            signature,
        } = self;
        let proofs = Vec::from_slice(alloc, proofs)?;
        let signature = Vec::from_slice(alloc, signature)?;
        Ok(Entry {
            batch,
            proofs: List::from_vec(proofs),
            rec,
            signature: List::from_vec(signature),
        })
    }
}

/// The entries with proofs and signatures of their own.
pub fn into_entries(alloc: Global, lent: List<LentEntry<'_>>) -> Result<Vec<Entry>, AllocError>
    ensures { IfOk result (λ entries. entries.items ≡ lent.entry) }
{
    let mut entries = Vec::with_capacity(alloc, lent.len())?;
    for entry in lent.into_vec() {
        entries.push(entry.into_entry(alloc)?)?;
    }
    Ok(entries)
}
