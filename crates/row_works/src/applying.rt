//! A work done on a tree.
ghost use Rattle.std.specs.Prelude.{◌≡◌, ◌<◌, ◌+◌, ◌^◌, IfOk, length};
ghost use Rattle.vo_spec.specs.Fits.{FitsPart};
ghost use Rattle.vo_spec.specs.Parts.{entries};
ghost use Rattle.mb_tree.specs.View.{part_of};
ghost use Rattle.mb_update.specs.ChangeResults.{ChangesTo};
ghost use Rattle.row_works.specs.Operations.{changed_count, changed_tree};
ghost use Rattle.row_works.specs.Limits.{FitsOp, HasRoom, ShowsRow};

use mb_tree::{PartTree, Tree};
use mb_update::{Op, UpdateFault, Updates, insert_row};
use std::alloc::Global;

/// The whole tree after a work. It shares what the work leaves with the tree before; a row that is
/// put becomes the tree's.
pub fn apply_to_tree(alloc: Global, tree: &Tree, op: Op<'_>) -> Result<Tree, UpdateFault>
    requires op { FitsOp op }
    requires shown { ShowsRow op }
    requires room { HasRoom op (length (entries tree.now)) }
    ensures { ChangesTo (λ changed. changed) result (changed_tree op.entry tree.now) }
{
    match op {
        Op::Insert { row } => insert_row(alloc, tree, row),
        Op::Replace { key, sets } => tree.replace(alloc, &key, sets.as_slice()),
        Op::Remove { key } => tree.remove(alloc, &key),
        Op::Put { key, part } => tree.put(alloc, &key, &part),
        Op::Set { key, part } => tree.set(alloc, &key, &part),
    }
}

/// The part of a tree after a work.
pub fn apply_to_part<'b>(
    alloc: Global,
    tree: &PartTree<'b>,
    op: &Op<'_>,
) -> Result<PartTree<'b>, UpdateFault>
    requires op { FitsOp op.now }
    requires tree { FitsPart (part_of tree.now) }
    ensures change { ChangesTo part_of result (changed_tree op.now (part_of tree.now)) }
    ensures within { IfOk result (λ changed. FitsPart (part_of changed)) }
{
    match op {
        Op::Insert { row } => tree.insert(alloc, row),
        Op::Replace { key, sets } => tree.replace(alloc, key, sets.as_slice()),
        Op::Remove { key } => tree.remove(alloc, key),
        Op::Put { key, part } => tree.put(alloc, key, part),
        Op::Set { key, part } => tree.set(alloc, key, part),
    }
}

/// How many rows a table of so many has after a work that isn't refused.
pub fn count_after(op: &Op<'_>, rows: u64) -> u64
    requires { rows + 1 < 2 ^ 64 }
    ensures { result ≡ changed_count op.now rows }
{
    match op {
        Op::Insert { .. } | Op::Put { .. } => rows + 1,
        Op::Replace { .. } | Op::Set { .. } => rows,
        Op::Remove { .. } => rows.saturating_sub(1),
    }
}
