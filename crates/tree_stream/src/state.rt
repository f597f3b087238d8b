//! Where the reading of a tree stands: the token that comes next, and what is known of the node
//! that it is in. Counts are of what comes behind the next thing.
ghost use Rattle.std.specs.Prelude.{◌+◌, ◌≤◌, length};

use crate::findings::CellFindings;
use arrayvec::ArrayVec;
use running_hash::RunningHash;
use vo_spec::Digest;

#[derive(Drop)]
pub(crate) enum State {
    /// The first byte of a node, which the scan visits or doesn't.
    Node(bool),
    /// A separator of an inner node.
    Separator(InnerHead),
    /// The key of an entry.
    Key(OpenLeaf),
    /// The row of the entry whose key came last.
    Row(OpenLeaf),
    /// A cell of that row.
    Cell(OpenRow),
    /// Nothing: the tree has this digest.
    Complete(Digest),
    /// The bytes are no tree.
    Invalid,
}

/// An inner node before its children. Its separators are hashed so far as they came; of each child
/// whose upper separator came it is known whether the scan visits it.
#[derive(Drop)]
pub(crate) struct InnerHead {
    pub hasher: RunningHash,
    pub visited: bool,
    pub has_lower: bool,
    pub child_visits: ArrayVec<bool, 16>,
    pub left: u8,
    ghost room: { length child_visits.items + (left + 2) ≤ 16 },
}

/// An inner node one of whose children is read, with the visits of those behind that.
#[derive(Drop)]
pub(crate) struct InnerNode {
    pub hasher: RunningHash,
    pub child_visits: ArrayVec<bool, 16>,
}

/// A leaf, with the number of entries behind this one.
#[derive(Drop)]
pub(crate) struct OpenLeaf {
    pub hasher: RunningHash,
    pub left: u8,
}

/// A row that stands as cells, with the number of cells behind the next one, which is that of this
/// column.
#[derive(Drop)]
pub(crate) struct OpenRow {
    pub leaf: OpenLeaf,
    pub hasher: RunningHash,
    pub column: u8,
    pub left: u8,
    pub findings: CellFindings,
    ghost within: { column + (left + 1) ≤ 31 },
}

impl Default for InnerNode {
    ghost use Rattle.std.specs.Prelude.{◌≡◌, []};

    ghost is_default = { λ node. (node.hasher ≡ []) × (node.child_visits.items ≡ []) };

    fn default() -> InnerNode {
        InnerNode {
            hasher: RunningHash::new(),
            child_visits: ArrayVec::new(),
        }
    }
}
