//! What comes before the trees of a reply.
ghost use Rattle.std.specs.Prelude.{◌≡◌};
ghost use Rattle.vo_spec.specs.Records.{FitsCatalog};
ghost use Rattle.reply_stream.specs.ReplyHeads.{head_size};

use std::marker::Model;
use vo_spec::{Catalog, List, Record};

/// A version's record with its signature, and its catalog, which keeps the limits.
#[derive(Debug, Drop)]
pub struct Head {
    pub(crate) rec: Record,
    pub(crate) signature: List<u8>,
    pub(crate) catalog: Catalog,
    /// How many bytes the catalog has, as it is encoded.
    pub(crate) catalog_size: u32,
}

impl Model for Head {
    ghost use Rattle.std.specs.Prelude.{◌≡◌, length};
    ghost use Rattle.vo_spec.specs.Records.{FitsCatalog, catalog_bytes};
    ghost use Rattle.reply_stream.specs.ReplyHeads.{ReplyHead};

    ghost Value = { ReplyHead };

    ghost view = { λ head. record {
      rec = head.rec;
      signature = head.signature;
      catalog = head.catalog;
    } };

    ghost invariant = { λ head. FitsCatalog head.catalog
        × (head.catalog_size ≡ length (catalog_bytes head.catalog)) };
}

impl Head {
    /// How many bytes of the reply it is.
    pub fn size(&self) -> usize
        ensures { result ≡ head_size self.now }
    {
        72 + self.signature.as_slice().len() + self.catalog_size as usize
    }

    pub fn rec(&self) -> &Record
        ensures { result.now ≡ self.now.rec }
    {
        &self.rec
    }

    pub fn signature(&self) -> &[u8]
        ensures { result.now ≡ self.now.signature }
    {
        self.signature.as_slice()
    }

    pub fn catalog(&self) -> &Catalog
        ensures catalog { result.now ≡ self.now.catalog }
        ensures fits { FitsCatalog result.now }
    {
        &self.catalog
    }
}
