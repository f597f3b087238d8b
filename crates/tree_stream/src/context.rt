//! What stays while one node after another is read.
ghost use Rattle.std.specs.Prelude.{◌≤◌, length};

use crate::findings::Findings;
use crate::state::InnerNode;
use crate::target::Target;
use arrayvec::ArrayVec;

#[derive(Drop)]
pub(crate) struct Context {
    pub target: Target,
    /// The inner nodes above the one that is read, the root first.
    pub ancestors: ArrayVec<InnerNode, 10>,
    /// What was found so far.
    pub findings: Findings,
    /// The last separator or key.
    pub last_key: ArrayVec<u8, 255>,
    ghost few: { length ancestors.items ≤ 10 },
}
