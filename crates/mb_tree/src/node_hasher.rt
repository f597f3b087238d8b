//! A hasher of nodes' preimages, whose pieces are short.
ghost use Rattle.std.specs.Prelude.{◌≡◌, ℕ, List, []};
ghost use Rattle.vo_spec.specs.Sha256.{sha256};
ghost use Rattle.mb_tree.specs.Gathering.{HoldsNode};
ghost use Rattle.row_bytes.specs.Writing.{Writes};

use arrayvec::ArrayVec;
use row_bytes::ByteSink;
use std::convert::Infallible;
use tagged_hash::Hasher;
use vo_spec::Digest;

/// How many bytes are gathered: all of a node of 16 entries whose keys are numbers.
const ROOM: usize = 768;

/// A hasher that gathers pieces, since each that is hashed takes a call.
#[derive(Drop)]
pub struct NodeHasher {
    hasher: Hasher,
    // what comes behind all that was hashed
    gathered: ArrayVec<u8, ROOM>,
}

impl NodeHasher {
    /// A hasher of no bytes.
    // Inlined: each node that is hashed has one.
    #[inline(always)]
    pub fn new() -> NodeHasher
        ensures { HoldsNode result [] }
    {
        NodeHasher {
            hasher: Hasher::new(),
            gathered: ArrayVec::new(),
        }
    }

    /// Adds a piece.
    // Inlined, so that a piece whose length is known is copied without a call.
    #[inline(always)]
    pub fn add(&mut self, piece: &[u8])
        ensures { Writes HoldsNode self.old self.new piece.now }
    {
        if self.gathered.try_extend_from_slice(piece).is_err() {
            self.hash_with(piece);
        }
    }

    /// Hashes what was gathered, and a piece behind it for which no room is left.
    fn hash_with(&mut self, piece: &[u8])
        ensures { Writes HoldsNode self.old self.new piece.now }
    {
        self.hasher.add(&self.gathered);
        self.gathered.clear();
        self.hasher.add(piece);
    }

    /// The digest of all pieces.
    // Inlined: asked of each node that is hashed.
    #[inline(always)]
    pub fn end(self) -> Digest
        ensures { (bytes : List ℕ) → HoldsNode self bytes → result ≡ sha256 bytes }
    {
        let mut hasher = self.hasher;
        hasher.add(&self.gathered);
        hasher.end()
    }
}

impl ByteSink for NodeHasher {
    type Fault = Infallible;

    ghost HoldsBytes = { HoldsNode };

    #[inline(always)]
    fn write(&mut self, bytes: &[u8]) -> Result<(), Infallible> {
        self.add(bytes);
        Ok(())
    }
}
