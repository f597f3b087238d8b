//! Calls of a plan and of part trees: what the trees show for it.
ghost use Rattle.std.specs.Prelude.{◌≡◌, IsTrue, length};
ghost use Rattle.vo_spec.specs.Needs.{tables_used};
ghost use Rattle.query_binding.specs.HeldSources.{bound_sources_seen};

use line_pieces::{describe, word};
use plan_run::{Ran, right_needs, run_plan};
use query_plan::{BoundSources, Plan, has_one_tree};
use std::alloc::Global;
use std::io;
use vo_format::{Cursor, PartTree, ReadFault, take_tree};

/// The rows that the trees show for the plan, and what it needs of each.
pub fn run(alloc: Global, plan: &Plan<'_, '_>, bytes: &[u8]) -> io::Result<String> {
    match take_all(alloc, bytes) {
        Ok(trees) => run_on(alloc, plan, &trees),
        Err(fault) => describe(alloc, &fault),
    }
}

fn run_on(alloc: Global, plan: &Plan<'_, '_>, trees: &[PartTree<'_>]) -> io::Result<String> {
    if !has_trees(&plan.query.bound_sources, trees) {
        return word(alloc, "other trees");
    }
    match run_plan(alloc, plan, trees) {
        Ok(ran) => describe_ran(alloc, &ran),
        Err(fault) => describe(alloc, &fault),
    }
}

fn describe_ran(alloc: Global, ran: &Ran) -> io::Result<String> {
    let rows = describe(alloc, &ran.rows)?;
    let needs = describe(alloc, &ran.needs)?;
    Ok(format!(in alloc; "(ran {rows} {needs})")?)
}

/// What the query needs of the right tree by what the left one shows.
pub fn right_needs_of(alloc: Global, plan: &Plan<'_, '_>, bytes: &[u8]) -> io::Result<String> {
    match take_tree(alloc, &mut Cursor::new(bytes)) {
        Ok(left) => describe(alloc, &right_needs(alloc, plan, &left)),
        Err(fault) => describe(alloc, &fault),
    }
}

/// There is a tree for each table.
fn has_trees(bound_sources: &BoundSources<'_>, trees: &[PartTree<'_>]) -> bool
    ensures { IsTrue result → length trees.now
        ≡ length (tables_used (bound_sources_seen bound_sources.now)) }
{
    trees.len() == if has_one_tree(bound_sources) { 1 } else { 2 }
}

/// The trees that the bytes are.
fn take_all(alloc: Global, bytes: &[u8]) -> Result<Vec<PartTree<'_>>, ReadFault> {
    let mut cursor = Cursor::new(bytes);
    let mut trees = Vec::new(alloc);
    // A tree has one byte at least.
    for _ in 0..bytes.len() {
        if cursor.is_empty() {
            break;
        }
        trees.push(take_tree(alloc, &mut cursor)?)?;
    }
    Ok(trees)
}
