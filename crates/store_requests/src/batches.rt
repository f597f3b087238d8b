//! The batch that the body of a request is.
ghost use Rattle.std.specs.Prelude.{◌≡◌, IfOk, IfSome, option_map};
ghost use Rattle.vo_spec.specs.Batches.{FitsBatch};
ghost use Rattle.batch_format.specs.BatchReading.{batch_of};

use batch_format::read_batch;
use row_bytes::ReadFault;
use std::alloc::{AllocError, Global};
use vo_spec::Batch;

/// None where the bytes are no batch.
pub fn read_proposal(alloc: Global, body: &[u8]) -> Result<Option<Batch>, AllocError>
    ensures value { IfOk result
        (λ batch. option_map (λ batch. batch.commands) batch ≡ batch_of body.now) }
    ensures fits { IfOk result (λ batch. IfSome batch (λ batch. FitsBatch batch.commands)) }
{
    match read_batch(alloc, body) {
        Ok(batch) => Ok(Some(batch)),
        Err(ReadFault::BadForm) => Ok(None),
        Err(ReadFault::Memory) => Err(AllocError),
    }
}
