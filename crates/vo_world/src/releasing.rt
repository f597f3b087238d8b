//! Records of which anybody may know.
ghost use Rattle.std.specs.Prelude.{◌≡◌, IfOk, OnOk};
ghost use Rattle.std.specs.List.{list_any};
ghost use Rattle.vo_store.specs.Calls.{same_record};
ghost use Rattle.vo_world.specs.Steps.{gain_records, with_record};
ghost use Rattle.vo_world.specs.WorldModel.{records_of};

use owner_state::Entry;
use std::alloc::{AllocError, Global};
use vo_spec::Record;

/// The records that were released, and behind them those of the entries that they lack.
pub(crate) fn gain(
    alloc: Global,
    released: &[Record],
    entries: &[Entry],
) -> Result<Vec<Record>, AllocError>
    ensures { IfOk result (λ gained. gained.items
        ≡ gain_records released.now (records_of entries.now)) }
{
    let mut gained = Vec::from_slice(alloc, released)?;
    for entry in entries {
        add_record(&mut gained, &entry.rec)?;
    }
    Ok(gained)
}

/// Puts the record behind the others, where it isn't one of them.
#[tactic(auto, using(crate::proofs::HeldRecords::with_new, crate::proofs::HeldRecords::with_old))]
fn add_record(released: &mut Vec<Record>, rec: &Record) -> Result<(), AllocError>
    ensures { OnOk result (released.new.items ≡ with_record released.old.items rec.now) }
{
    if is_released(released, rec) {
        return Ok(());
    }
    released.push(*rec)?;
    Ok(())
}

/// Whether the record is one of these.
fn is_released(released: &[Record], rec: &Record) -> bool
    ensures { result ≡ list_any (same_record rec.now) released.now }
{
    released.iter().any(|one| one == rec)
}
