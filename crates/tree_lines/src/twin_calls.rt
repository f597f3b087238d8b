//! What is asked of two part trees.
ghost use Rattle.std.specs.Prelude.{IsTrue, IfOk};
ghost use Rattle.vo_spec.specs.Fits.{FitsPart};
ghost use Rattle.vo_spec.specs.Pruning.{IsCanonical};
ghost use Rattle.mb_tree.specs.View.{part_of};

use crate::need_reading::read_needs;
use crate::part_reading::{both, read_part, read_parts};
use line_pieces::{describe, word};
use range_proof::is_canonical;
use row_bytes::ReadFault;
use std::alloc::Global;
use std::io;
use tree_collide::{Twins, agree_two, agree_walk, are_same};
use vo_format::PartTree;
use vo_spec::{Bound, Interval, Need, ScanFault, SharedList};

fn read_two<'b>(
    alloc: Global,
    first: &'b [u8],
    second: &'b [u8],
) -> Result<(PartTree<'b>, PartTree<'b>), ReadFault>
    ensures { IfOk result (λ both. FitsPart (part_of both.0) × FitsPart (part_of both.1)) }
{
    let first = read_part(alloc, first)?;
    both(first, read_part(alloc, second))
}

/// Whether the two are the same.
pub fn compare_two<'b>(alloc: Global, first: &'b [u8], second: &'b [u8]) -> io::Result<String> {
    match read_two(alloc, first, second) {
        Ok((first, second)) => {
            let is_same = are_same(&first, &second);
            drop((first, second));
            word(alloc, if is_same { "same" } else { "different" })
        },
        Err(fault) => describe(alloc, &fault),
    }
}

/// Whether two of one digest give one walk for all rows.
pub fn walk_two<'b>(alloc: Global, first: &'b [u8], second: &'b [u8]) -> io::Result<String> {
    match read_two(alloc, first, second) {
        Ok((first, second)) => {
            let answer = walk_parts(alloc, &first, &second);
            drop((first, second));
            answer
        },
        Err(fault) => describe(alloc, &fault),
    }
}

fn walk_parts(alloc: Global, first: &PartTree<'_>, second: &PartTree<'_>) -> io::Result<String>
    requires fits { FitsPart (part_of first.now) }
    requires second_fits { FitsPart (part_of second.now) }
{
    if first.node_digest() != second.node_digest() {
        return word(alloc, "another digest");
    }
    let need = all_rows(alloc)?;
    let twins = agree_walk(alloc, first, second, &need);
    drop(need);
    twins_word(alloc, twins?, "one walk")
}

/// This word for two that are the same.
fn twins_word(alloc: Global, twins: Twins, same: &str) -> io::Result<String> {
    let text = match &twins {
        Twins::Same => same,
        Twins::Collides(_) => "collides",
    };
    drop(twins);
    word(alloc, text)
}

/// Whether two of one digest, which stand one behind the other, are one proof of the needs.
pub fn compare_proofs(alloc: Global, needs: &[u8], parts: &[u8]) -> io::Result<String> {
    match read_needs(alloc, needs) {
        Ok(needs) => {
            let answer = compare_proofs_for(alloc, &needs, parts);
            drop(needs);
            answer
        },
        Err(fault) => describe(alloc, &fault),
    }
}

fn compare_proofs_for(alloc: Global, needs: &[Need], parts: &[u8]) -> io::Result<String> {
    match read_parts(alloc, parts) {
        Ok((first, second)) => {
            let answer = agree_for(alloc, needs, &first, &second);
            drop((first, second));
            answer
        },
        Err(fault) => describe(alloc, &fault),
    }
}

fn agree_for(
    alloc: Global,
    needs: &[Need],
    first: &PartTree<'_>,
    second: &PartTree<'_>,
) -> io::Result<String>
    requires fits { FitsPart (part_of first.now) }
    requires second_fits { FitsPart (part_of second.now) }
{
    if first.node_digest() != second.node_digest() {
        return word(alloc, "another digest");
    }
    match are_proofs(alloc, needs, first, second) {
        Ok(true) => twins_word(alloc, agree_two(alloc, first, second, needs)?, "one proof"),
        Ok(false) => word(alloc, "no proof"),
        Err(fault) => describe(alloc, &fault),
    }
}

fn are_proofs(
    alloc: Global,
    needs: &[Need],
    first: &PartTree<'_>,
    second: &PartTree<'_>,
) -> Result<bool, ScanFault>
    ensures { IfOk result (λ are. IsTrue are → IsCanonical needs.now (part_of first.now)
        × IsCanonical needs.now (part_of second.now)) }
{
    Ok(is_canonical(alloc, first, needs)? && is_canonical(alloc, second, needs)?)
}

fn all_rows(alloc: Global) -> io::Result<Need> {
    let columns = SharedList::new(alloc, Vec::new(alloc))?;
    let interval = Interval {
        low: Bound::Absent,
        high: Bound::Absent,
    };
    Ok(Need { interval, columns })
}
