//! What comes of a proposal.
ghost use Rattle.std.specs.Prelude.{◌≡◌};
ghost use Rattle.vo_spec.specs.Batches.{FitsBatch};
ghost use Rattle.vo_spec.specs.Honest.{honest_proofs};
ghost use Rattle.vo_spec.specs.Replies.{proofs_bytes};
ghost use Rattle.stored_tables.specs.Working.{work_from};
ghost use Rattle.vo_store.specs.Calls.{Gives, with_proofs};

use crate::fault::StoreFault;
use owner_state::apply_with_proofs;
use std::alloc::Global;
use stored_tables::{BatchFault, StoredTables};
use vo_spec::{Batch, List};

/// The tables after a batch that is accepted, and the proofs that go with it, as bytes.
#[derive(Drop)]
pub(crate) struct Proposal {
    pub after: StoredTables,
    pub proofs: Vec<u8>,
}

/// What a batch makes of the tables of the version that is installed.
pub(crate) fn propose_batch(
    alloc: Global,
    tables: &StoredTables,
    batch: &Batch,
) -> Result<Proposal, StoreFault>
    requires { FitsBatch batch.now.commands }
    ensures { Gives (λ proposal. (proposal.after, proposal.proofs.items)) result
        (with_proofs (λ after. after) (proofs_bytes (honest_proofs batch.now.commands tables.now))
        (work_from 0 batch.now.commands tables.now)) }
{
    let tables = tables.share(alloc)?;
    let mut proofs = Vec::new(alloc);
    match apply_with_proofs(alloc, tables, batch.commands.as_slice(), &mut proofs) {
        Ok(after) => Ok(Proposal { after, proofs }),
        Err(BatchFault::Command { index, fault }) => Err(StoreFault::Command {
            index,
            fault,
            proofs: List::from_vec(proofs),
        }),
        Err(BatchFault::Memory) => Err(StoreFault::Memory),
    }
}
