//! What a change does at its key, and the steps that it goes.
ghost use Rattle.std.specs.Prelude.{◌≡◌, ◌≤◌, ◌<◌, length, get_or};
ghost use Rattle.std.specs.List.{position_or_len};
ghost use Rattle.vo_spec.specs.Values.{key_lt as is_less};
ghost use Rattle.update_proof.specs.Changes.{change_in, key_in, opens_sibling_in};

use btree::{Step, TreeNode, removal_step, search_step};
use mb_update::Op;

/// The kinds of changes.
#[derive(Clone, Copy, Drop)]
pub enum Change {
    /// Of a row, or an exchange of one as it is given: no row that is there is looked at.
    Insertion,
    Replacement,
    Removal,
}

pub fn change_of(op: &Op<'_>) -> Change
    ensures { result ≡ change_in op.now }
{
    match op {
        Op::Insert { .. } | Op::Put { .. } | Op::Set { .. } => Change::Insertion,
        Op::Replace { .. } => Change::Replacement,
        Op::Remove { .. } => Change::Removal,
    }
}

pub fn key_of<'a>(op: &'a Op<'_>) -> &'a [u8]
    ensures { result.now ≡ key_in op.now }
{
    match op {
        Op::Insert { row } => row.key.as_bytes(),
        Op::Replace { key, .. } => key.as_bytes(),
        Op::Remove { key } => key.as_bytes(),
        Op::Put { key, .. } | Op::Set { key, .. } => key.as_bytes(),
    }
}

/// What the change looks at of an inner node's children.
pub fn step_of<N: TreeNode>(
    change: Change,
    separators: &[N::Key],
    children: &[N],
    key: &[u8],
) -> Step
    ensures child { result.child ≡ position_or_len
        (λ separator. is_less key.now (N.Key.key separator)) separators.now }
    ensures within { result.child ≤ length separators.now }
    ensures opens_sibling { (child : N) → result.child < length children.now
        → child ≡ get_or children.now result.child child
        → result.opens_sibling ≡ opens_sibling_in N.family change key.now (N.kid child).1 }
{
    match change {
        Change::Insertion | Change::Replacement => search_step(separators, key),
        Change::Removal => removal_step(separators, children, key),
    }
}
