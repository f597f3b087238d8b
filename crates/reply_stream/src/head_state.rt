//! Where the reading of a reply's head stands: which field comes next, and what was read.
ghost use Rattle.std.specs.Prelude.{◌≤◌};
ghost use Rattle.vo_spec.specs.Journals.{max_signature};
ghost use Rattle.vo_spec.specs.Records.{max_catalog};

use crate::head::Head;
use vo_spec::{List, Record};

#[derive(Drop)]
pub(crate) enum HeadState {
    /// The first word and the record.
    Front,
    /// The length of the signature.
    SignatureLength(Record),
    Signature(SignatureField),
    /// The length of the catalog.
    CatalogLength(SignedRecord),
    Catalog(CatalogField),
    /// Nothing: this is the head.
    Complete(Head),
    /// The bytes are no head.
    Invalid,
}

/// A signature of so many bytes, behind its record.
#[derive(Drop)]
pub(crate) struct SignatureField {
    pub rec: Record,
    pub size: u32,
    ghost within: { size ≤ max_signature },
}

#[derive(Drop)]
pub(crate) struct SignedRecord {
    pub rec: Record,
    pub signature: List<u8>,
}

/// A catalog of so many bytes, behind what comes before it.
#[derive(Drop)]
pub(crate) struct CatalogField {
    pub signed: SignedRecord,
    pub size: u32,
    ghost within: { size ≤ max_catalog },
}
