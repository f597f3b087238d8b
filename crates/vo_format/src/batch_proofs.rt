//! The proofs that go with a batch: a tree for each command that changes rows.
ghost use Rattle.std.specs.Prelude.{◌≡◌, ◌++◌, List, Some, IfOk, OnOk, OnErr, Err, map, codes};
ghost use Rattle.vo_spec.specs.Bytes.{u16_bytes};
ghost use Rattle.vo_spec.specs.Trees.{RowTree};
ghost use Rattle.vo_spec.specs.Replies.{AreProofs, FitsProofs, proofs_bytes};
ghost use Rattle.row_bytes.specs.Fields.{ReadsAs};
ghost use Rattle.row_bytes.specs.declared.read_fault.ReadFault.TheVariants.{BadForm};
ghost use Rattle.mb_tree.specs.View.{part_of};
ghost use Rattle.vo_format.specs.Reading.{proofs_at, proofs_of};
ghost use Rattle.vo_format.specs.Taking.{TakesOr};
ghost use Rattle.vo_format.specs.View.{row_trees_of};
ghost use Rattle.batch_format.specs.Writing.{StaysInFront};

use crate::tree_reading::take_trees;
use crate::tree_writing::put_trees;
use mb_tree::PartTree;
use row_bytes::{Cursor, ReadFault};
use std::alloc::{AllocError, Global};
use vo_spec::{MAX_COMMANDS, MAX_PROOFS, u16_bytes};

#[tactic(auto, unfolding(crate::specs::Reading::proofs_at))]
fn take_proofs<'b>(alloc: Global, cursor: &mut Cursor<'b>) -> Result<Vec<PartTree<'b>>, ReadFault>
    ensures { TakesOr row_trees_of result cursor.new (proofs_at cursor.old) }
{
    let Some(_) = cursor.take_word(b"VOU1") else {
        return Err(ReadFault::BadForm);
    };
    let Some(count) = cursor.take_u16() else {
        return Err(ReadFault::BadForm);
    };
    if usize::from(count) > MAX_COMMANDS {
        return Err(ReadFault::BadForm);
    }
    take_trees(alloc, cursor, count)
}

#[tactic(auto, unfolding(crate::specs::Reading::proofs_of))]
fn proofs_in<'b>(alloc: Global, bytes: &'b [u8]) -> Result<Vec<PartTree<'b>>, ReadFault>
    ensures { ReadsAs row_trees_of result (proofs_of bytes.now) }
{
    if bytes.len() > MAX_PROOFS {
        return Err(ReadFault::BadForm);
    }
    let mut cursor = Cursor::new(bytes);
    let trees = take_proofs(alloc, &mut cursor)?;
    cursor.is_empty().then_some(trees).ok_or(ReadFault::BadForm)
}

/// The proofs that all the bytes are.
pub fn read_proofs<'b>(alloc: Global, bytes: &'b [u8]) -> Result<Vec<PartTree<'b>>, ReadFault>
    // What is read is spelled so, and keeps the limits.
    ensures found { IfOk result (λ trees. AreProofs bytes.now (row_trees_of trees)) }

    // What is refused are no proofs.
    ensures bad { result ≡ Err BadForm → (trees : List RowTree) → AreProofs bytes.now trees → ⊥ }

    // What is spelled so is read, unless memory runs out.
    ensures only { (trees : List RowTree) → AreProofs bytes.now trees
        → ReadsAs row_trees_of result (Some trees) }
{
    proofs_in(alloc, bytes)
}

/// Begins the proofs of so many commands: their trees are to follow. Where memory runs
/// out, what was there stays in front.
#[tactic(auto, using(batch_format::proofs::Fronts::stays_itself, batch_format::proofs::Fronts::stays_before, batch_format::proofs::Fronts::stays_behind))]
pub fn begin_proofs(out: &mut Vec<u8>, count: u16) -> Result<(), AllocError>
    ensures ok { OnOk result (out.new.items ≡ out.old.items ++ codes "VOU1" ++ u16_bytes count) }
    ensures err { OnErr result (StaysInFront out.old.items out.new.items) }
{
    out.extend_from_slice(b"VOU1")?;
    out.extend_from_slice(&u16_bytes(count))
}

/// The one spelling of proofs.
#[tactic(auto, unfolding(vo_spec::specs::Replies::proofs_bytes))]
pub fn write_proofs(alloc: Global, trees: &[PartTree<'_>]) -> Result<Vec<u8>, AllocError>
    requires { FitsProofs (map part_of trees.now) }
    ensures { IfOk result (λ bytes. bytes.items ≡ proofs_bytes (map part_of trees.now)) }
{
    let mut out = Vec::new(alloc);
    begin_proofs(&mut out, trees.len() as u16)?;
    put_trees(&mut out, trees)?;
    Ok(out)
}
