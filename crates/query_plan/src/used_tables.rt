//! The tables whose trees a query reads.
ghost use Rattle.std.specs.Prelude.{◌≡◌, ◌==◌, ◌||◌, map, length, IfOk};
ghost use Rattle.vo_spec.specs.Needs.{same_table, tables_used};
ghost use Rattle.query_binding.specs.HeldSources.{bound_sources_seen};
ghost use Rattle.query_plan.specs.UsedTables.{has_one_tree, lent_name};

use query_binding::BoundSources;
use std::alloc::{AllocError, Global};
use vo_spec::Name;

/// Whether a join is of a table with itself.
pub fn same_table(bound_sources: &BoundSources<'_>) -> bool
    ensures { result ≡ same_table (bound_sources_seen bound_sources.now) }
{
    let left = bound_sources.left.table.as_bytes();
    match &bound_sources.right {
        Some(right) => left == right.table.as_bytes(),
        None => left.is_empty(),
    }
}

/// Whether the query reads one tree: it has one source, or joins a table with itself.
pub fn has_one_tree(bound_sources: &BoundSources<'_>) -> bool
    ensures { result ≡ has_one_tree (bound_sources_seen bound_sources.now) }
{
    bound_sources.right.is_none() || same_table(bound_sources)
}

/// The names of the tables whose trees the query reads, the left one first.
pub fn tables_used<'q>(
    alloc: Global,
    bound_sources: &BoundSources<'q>,
) -> Result<Vec<&'q Name>, AllocError>
    ensures { IfOk result (λ names. map lent_name names.items
        ≡ tables_used (bound_sources_seen bound_sources.now)) }
{
    let mut names = Vec::new(alloc);
    names.push(bound_sources.left.table)?;
    if let Some(right) = bound_sources.right {
        if !same_table(bound_sources) {
            names.push(right.table)?;
        }
    }
    Ok(names)
}
