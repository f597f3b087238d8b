//! Adding up what is found, part by part.
ghost use Rattle.std.specs.Prelude.{◌≡◌, if◌then◌else◌, [], ◌∷◌, ◌++◌, nat_le, IsTrue, IsErr, OnOk};
ghost use Rattle.std.specs.List.{list_any};
ghost use Rattle.vo_spec.specs.Pruning.{has_column as is_among};
ghost use Rattle.vo_spec.specs.Scans.{in_interval as has_key};
ghost use Rattle.tree_stream.specs.Findings.{cell_findings, closed_row_findings, columns_at as columns_of, combine, combine_cells, entry_findings_by, no_findings, open_node_findings, row_head_findings, stub_findings};
ghost use Rattle.tree_stream.specs.Parsing.{cell_of};

use crate::findings::{CellFindings, Findings};
use crate::parse::CellToken;
use crate::target::{CellKind, Target};
use key_intervals::in_interval;
use row_bytes::is_key_of;
use std::alloc::{AllocError, Global};
use vo_spec::{Key, List, SeenRow, Value};

pub(crate) fn empty_findings(alloc: Global) -> Findings
    ensures { result ≡ no_findings }
{
    Findings {
        is_missing: false,
        has_surplus: false,
        has_shape: true,
        rows: List::new(alloc),
    }
}

pub(crate) fn add_stub(findings: &mut Findings, visited: bool)
    ensures { findings.new ≡ combine findings.old (stub_findings visited) }
{
    findings.is_missing |= visited;
}

pub(crate) fn add_open_node(findings: &mut Findings, visited: bool)
    ensures { findings.new ≡ combine findings.old (open_node_findings visited) }
{
    findings.has_surplus |= !visited;
}

/// The columns that are named of the row with this key.
pub(crate) fn columns_at<'n>(target: &'n Target, key: &[u8]) -> &'n [u8]
    ensures { result.now ≡ columns_of target.now key.now }
{
    if in_interval(&target.interval, key) {
        target.columns.as_slice()
    } else {
        &[]
    }
}

// Inlined, as all that is asked of each cell.
#[inline(always)]
pub(crate) fn has_column(columns: &[u8], column: u8) -> bool
    ensures { result ≡ is_among columns.now column }
{
    columns.iter().any(|other| *other == column)
}

/// Of a row that stands as so many cells, before them.
pub(crate) fn begin_cells(
    alloc: Global,
    kinds: &[CellKind],
    named: &[u8],
    count: u8,
) -> CellFindings
    ensures { result ≡ row_head_findings kinds.now named.now count }
{
    CellFindings {
        is_missing: names_beyond(named, count),
        has_surplus: named.is_empty(),
        has_shape: usize::from(count) == kinds.len(),
        values: List::new(alloc),
    }
}

fn names_beyond(named: &[u8], count: u8) -> bool
    ensures { result ≡ list_any (λ column. nat_le count column) named.now }
{
    named.iter().any(|column| count <= *column)
}

/// Of a row that stands as a digest.
pub(crate) fn closed_row(alloc: Global, named: &[u8]) -> CellFindings
    ensures { result ≡ closed_row_findings named.now }
{
    CellFindings {
        is_missing: !named.is_empty(),
        has_surplus: false,
        has_shape: true,
        values: List::new(alloc),
    }
}

/// Adds what is found in one cell, where its column is named or isn't, and its kind is the column's
/// or isn't.
// Inlined, as all that is asked of each cell.
#[inline(always)]
pub(crate) fn add_cell(
    alloc: Global,
    findings: &mut CellFindings,
    is_named: bool,
    fits: bool,
    cell: &CellToken<'_>,
) -> Result<(), AllocError>
    ensures sum { OnOk result (findings.new ≡ combine_cells findings.old
        (cell_findings is_named fits (cell_of cell.now))) }
    ensures memory { IsErr result → IsTrue is_named }
{
    findings.has_shape &= fits;
    match cell {
        CellToken::Hidden(_) => findings.is_missing |= is_named,
        CellToken::Shown { value, .. } => {
            if is_named {
                findings.values.push(value.to_value(alloc)?)?;
            } else {
                findings.has_surplus = true;
            }
        },
    }
    Ok(())
}

/// Adds the entry with this key, in whose cells this is found.
pub(crate) fn add_entry(
    alloc: Global,
    findings: &mut Findings,
    target: &Target,
    key: &[u8],
    found: CellFindings,
) -> Result<(), AllocError>
    ensures sum { OnOk result (findings.new ≡ combine findings.old
        (entry_findings_by target.now key.now found)) }
    ensures memory { IsErr result → IsTrue (has_key target.now.interval key.now) }
{
    let CellFindings {
        is_missing,
        has_surplus,
        has_shape,
        values,
    } = found;
    findings.is_missing |= is_missing;
    findings.has_surplus |= has_surplus;
    findings.has_shape &= is_key_of(target.key_kind, key) & has_shape;
    let is_seen = in_interval(&target.interval, key);
    keep_row(alloc, &mut findings.rows, is_seen, key, values)
}

/// Keeps the row of this key, where it is one of those that are seen.
fn keep_row(
    alloc: Global,
    rows: &mut List<SeenRow>,
    is_seen: bool,
    key: &[u8],
    values: List<Value>,
) -> Result<(), AllocError>
    ensures sum { OnOk result (rows.new ≡ rows.old
        ++ (if is_seen then record { key = key.now; values = values } ∷ [] else [])) }
    ensures memory { IsErr result → IsTrue is_seen }
{
    if is_seen {
        let key = Key::from_vec(Vec::from_slice(alloc, key)?);
        rows.push(SeenRow { key, values })?;
    }
    Ok(())
}
