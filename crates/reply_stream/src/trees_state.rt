//! Where the reading of a reply's trees stands.
ghost use Rattle.std.specs.Prelude.{◌≡◌, IsTrue, is_some};
ghost use Rattle.tree_stream.specs.Findings.{no_target};
ghost use Rattle.tree_stream.specs.Streams.{target_in};

use tree_stream::{Summary, Target, TreeStream};

#[derive(Drop)]
pub(crate) enum TreesState {
    /// The byte that says how many trees there are, of which the first is read for this.
    Count(Target),
    /// Nothing: there are no trees.
    Empty,
    Tree(OpenTree),
    /// The bytes are no trees.
    Invalid,
}

/// A tree that is read, one of so many, with the number of those behind it. What was found in the
/// first tree is kept; the others are read for their form alone.
#[derive(Drop)]
pub(crate) struct OpenTree {
    pub stream: TreeStream,
    pub count: u8,
    pub left: u8,
    pub first: Option<Summary>,
    ghost later: { IsTrue (is_some first) → target_in stream ≡ no_target },
}
