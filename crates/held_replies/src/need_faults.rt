//! The tests of a reply's trees by what the query needs of them.
ghost use Rattle.std.specs.Prelude.{◌≡◌, if◌then◌else◌, None, Some, map, not, length, zip};
ghost use Rattle.vo_spec.specs.Pruning.{has_surplus, is_missing};
ghost use Rattle.mb_tree.specs.View.{part_of};
ghost use Rattle.held_replies.specs.Ordering.{fault_if};
ghost use Rattle.held_replies.specs.Testing.{GivesIfPassed, any_missing, any_surplus};

use mb_tree::PartTree;
use range_proof::is_canonical;
use std::alloc::Global;
use vo_spec::{CheckFault, List, Need, ScanFault};

/// Whether a tree that misses nothing of its needs has no more than these.
fn is_bare(alloc: Global, tree: &PartTree<'_>, needs: &[Need]) -> Result<bool, CheckFault>
    ensures { GivesIfPassed result
        (if is_missing needs.now (part_of tree.now) then Some CheckFault.Missing else None)
        (not (has_surplus needs.now (part_of tree.now))) }
{
    match is_canonical(alloc, tree, needs) {
        Ok(is_bare) => Ok(is_bare),
        Err(ScanFault::Missing) => Err(CheckFault::Missing),
        Err(ScanFault::Memory) => Err(CheckFault::Memory),
    }
}

/// Whether trees that miss nothing of their needs have no more than these. There is a list of needs
/// for each tree.
pub(crate) fn are_bare(
    alloc: Global,
    trees: &[PartTree<'_>],
    needs: &[List<Need>],
) -> Result<bool, CheckFault>
    requires { length needs.now ≡ length trees.now }
    ensures { let needed = zip needs.now (map part_of trees.now) in
        GivesIfPassed result (fault_if (any_missing needed) CheckFault.Missing)
        (not (any_surplus needed)) }
{
    let mut are_bare = true;
    for (place, tree) in trees.iter().enumerate() {
        match is_bare(alloc, tree, needs[place].as_slice()) {
            Ok(is_bare) => are_bare = are_bare && is_bare,
            Err(fault) => return Err(fault),
        }
    }
    Ok(are_bare)
}
