//! Rows, separators and children of whole trees in the preimages of nodes.
ghost use Rattle.vo_spec.specs.Bytes.{string};
ghost use Rattle.vo_spec.specs.Cells.{entry_bytes, whole_entry};
ghost use Rattle.vo_spec.specs.Trees.{digest};
ghost use Rattle.vo_spec.specs.Fits.{FitsKey, FitsPart, FitsRow};

use crate::entries::TreeEntry;
use crate::layout::{NodeItem, write_key};
use crate::subtrees::Subtree;
use crate::tree_key::TreeKey;
use row_bytes::ByteSink;

impl NodeItem for TreeEntry {
    ghost bytes = { λ row. entry_bytes (whole_entry row) };

    ghost Fits = { FitsRow };

    fn write_to<W: ByteSink>(&self, writer: &mut W) -> Result<(), W::Fault> {
        let digest = self.cells().digest();
        write_key(writer, self.key().as_bytes())?;
        writer.write(digest.as_bytes())
    }
}

impl NodeItem for TreeKey {
    ghost bytes = { string };

    ghost Fits = { FitsKey };

    fn write_to<W: ByteSink>(&self, writer: &mut W) -> Result<(), W::Fault> {
        write_key(writer, self.as_bytes())
    }
}

impl NodeItem for Subtree {
    ghost bytes = { digest };

    ghost Fits = { FitsPart };

    fn write_to<W: ByteSink>(&self, writer: &mut W) -> Result<(), W::Fault> {
        writer.write(self.node_digest().as_bytes())
    }
}
