//! Writing journals.
ghost use Rattle.std.specs.Prelude.{◌≡◌, ◌++◌, flat_map, IfOk, OnErr, OnOk};
ghost use Rattle.std.specs.List.{AllByRecursion};
ghost use Rattle.vo_spec.specs.Bytes.{block};
ghost use Rattle.vo_spec.specs.Journals.{FitsEntry, entry_bytes, slot, journal_bytes};
ghost use Rattle.batch_format.specs.Writing.{StaysInFront};

use crate::entry_writing::{entry_length, put_entry};
use batch_format::batch_bytes;
use std::alloc::{AllocError, Global};
use vo_spec::{Entry, u32_bytes};

/// Puts an open slot with the entry at the end. Where memory runs out, what was there stays in
/// front.
#[tactic(auto, using(batch_format::proofs::Fronts::stays_itself, batch_format::proofs::Fronts::stays_before, batch_format::proofs::Fronts::stays_behind))]
pub fn put_slot(alloc: Global, out: &mut Vec<u8>, entry: &Entry) -> Result<(), AllocError>
    requires { FitsEntry entry.now }
    ensures ok { OnOk result (out.new.items ≡ out.old.items ++ slot entry.now) }
    ensures err { OnErr result (StaysInFront out.old.items out.new.items) }
{
    out.push(1)?;
    put_entry_block(alloc, out, entry)
}

/// Puts an entry behind its length at the end: a slot without its gate. Where memory runs out, what
/// was there stays in front.
#[tactic(auto, using(batch_format::proofs::Fronts::stays_itself, batch_format::proofs::Fronts::stays_before, batch_format::proofs::Fronts::stays_behind))]
pub fn put_entry_block(alloc: Global, out: &mut Vec<u8>, entry: &Entry) -> Result<(), AllocError>
    requires { FitsEntry entry.now }
    ensures ok { OnOk result (out.new.items ≡ out.old.items ++ block (entry_bytes entry.now)) }
    ensures err { OnErr result (StaysInFront out.old.items out.new.items) }
{
    let batch = batch_bytes(alloc, &entry.batch)?;
    out.extend_from_slice(&u32_bytes(entry_length(&batch, entry)))?;
    put_entry(out, &batch, entry)
}

#[tactic(auto, using(batch_format::proofs::Fronts::stays_itself, batch_format::proofs::Fronts::stays_before, batch_format::proofs::Fronts::stays_behind))]
fn put_slots(alloc: Global, out: &mut Vec<u8>, entries: &[Entry]) -> Result<(), AllocError>
    requires { AllByRecursion FitsEntry entries.now }
    ensures ok { OnOk result (out.new.items ≡ out.old.items ++ flat_map slot entries.now) }
    ensures err { OnErr result (StaysInFront out.old.items out.new.items) }
{
    for entry in entries {
        put_slot(alloc, out, entry)?;
    }
    Ok(())
}

/// The journal of the entries, with nothing behind its closed gate.
#[tactic(auto, unfolding(vo_spec::specs::Journals::journal_bytes))]
pub fn journal_bytes(alloc: Global, entries: &[Entry]) -> Result<Vec<u8>, AllocError>
    requires { AllByRecursion FitsEntry entries.now }
    ensures { IfOk result (λ bytes. bytes.items ≡ journal_bytes entries.now) }
{
    let mut bytes = Vec::new(alloc);
    put_slots(alloc, &mut bytes, entries)?;
    bytes.push(0)?;
    Ok(bytes)
}
