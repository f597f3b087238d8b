//! Entries, separators and children of parts of trees in the preimages of nodes.
ghost use Rattle.vo_spec.specs.Bytes.{string};
ghost use Rattle.vo_spec.specs.Cells.{entry_bytes};
ghost use Rattle.vo_spec.specs.Trees.{digest};
ghost use Rattle.vo_spec.specs.Fits.{FitsEntry, FitsKey, FitsPart};
ghost use Rattle.mb_tree.specs.View.{part_of};

use crate::layout::{NodeItem, write_key};
use crate::parts::PartTree;
use attr_digest::row_digest;
use row_bytes::ByteSink;
use vo_spec::{KeyPart, PartEntry};

impl NodeItem for PartEntry<'_> {
    ghost bytes = { entry_bytes };

    ghost CanWrite = { FitsEntry };

    fn write_to<W: ByteSink>(&self, writer: &mut W) -> Result<(), W::Fault> {
        write_key(writer, self.key.as_bytes())?;
        writer.write(row_digest(&self.row).as_bytes())
    }
}

impl NodeItem for KeyPart<'_> {
    ghost bytes = { string };

    ghost CanWrite = { FitsKey };

    fn write_to<W: ByteSink>(&self, writer: &mut W) -> Result<(), W::Fault> {
        write_key(writer, self.as_bytes())
    }
}

impl NodeItem for PartTree<'_> {
    ghost bytes = { λ part. digest (part_of part) };

    ghost CanWrite = { λ part. FitsPart (part_of part) };

    fn write_to<W: ByteSink>(&self, writer: &mut W) -> Result<(), W::Fault> {
        writer.write(self.node_digest().as_bytes())
    }
}
