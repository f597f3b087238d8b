//! A record with its signature.
ghost use Rattle.std.specs.Prelude.{◌≡◌, IfOk};

use std::alloc::{AllocError, Global};
use vo_spec::{Record, SharedList};

/// What an owner signed of a version. The signature is shared by all that hold it.
#[derive(Debug, Drop)]
pub struct SignedRecord {
    pub rec: Record,
    pub signature: SharedList<u8>,
}

impl SignedRecord {
    pub(crate) fn new(
        alloc: Global,
        rec: &Record,
        signature: &[u8],
    ) -> Result<SignedRecord, AllocError>
        ensures { IfOk result (λ signed. signed ≡ record {
          rec = rec.now;
          signature = signature.now;
        }) }
    {
        let signature = Vec::from_slice(alloc, signature)?;
        Ok(SignedRecord {
            rec: *rec,
            signature: SharedList::new(alloc, signature)?,
        })
    }

    /// The same for another holder, which takes no memory.
    pub(crate) fn share(&self) -> Result<SignedRecord, AllocError>
        ensures { IfOk result (λ signed. signed ≡ self.now) }
    {
        Ok(SignedRecord {
            rec: self.rec,
            signature: self.signature.share()?,
        })
    }
}
