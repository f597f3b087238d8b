//! The cells of a row that stands as cells.
ghost use Rattle.std.specs.Prelude.{◌≡◌, ◌<◌, ◌≤◌, ◌+◌, ◌*◌, [], ◌++◌, suc, length, List, ℕ, IsTrue, IfOk, IsErr, OnOk};
ghost use Rattle.vo_spec.specs.Cells.{cell_digest};
ghost use Rattle.vo_spec.specs.Fits.{FitsCell, max_cells};
ghost use Rattle.vo_spec.specs.TreeBytes.{cell_form};
ghost use Rattle.tree_stream.specs.Findings.{columns_at as columns_of};
ghost use Rattle.tree_stream.specs.Machines.{Advances, Passes, TakesCells, machine_of, row_summary};
ghost use Rattle.tree_stream.specs.Keeping.{KeepsAt, KeepsInCells, ValuesGrow};
ghost use Rattle.tree_stream.specs.Parsing.{BeginsCell, IsEncoded, cell_of};
ghost use Rattle.tree_stream.specs.Positions.{IsInCells, StandsAt};
ghost use Rattle.tree_stream.specs.Remaining.{rest_of_cells};
ghost use Rattle.tree_stream.specs.Summaries.{CanEnd, Yields, is_needed_row, summary_by, summary_from};
ghost use Rattle.tree_stream.specs.Tokens.{cell_size as size_of_cell};

use crate::accumulate::{add_cell, columns_at, has_column};
use crate::context::Context;
use crate::kinds::fits_kind;
use crate::leaves::next_cell;
use crate::parse::{CellToken, parse_cell};
use crate::state::{OpenRow, State};
use crate::tokens::cell_size;
use arrayvec::ArrayVec;
use running_hash::RunningHash;
use std::alloc::{AllocError, Global};
use vo_spec::Digest;

/// The digests of cells of one row that aren't its last.
type CellDigests = ArrayVec<u8, 960>;

/// The digest of a cell of this column.
// Inlined, as all that is asked of each cell.
#[inline(always)]
fn digest_of(column: u8, cell: &CellToken<'_>) -> Digest
    requires { IsEncoded cell.now }
    ensures { result ≡ cell_digest column (cell_of cell.now) }
{
    match cell {
        CellToken::Hidden(digest) => Digest::new(**digest),
        CellToken::Shown { encoding, .. } => {
            let mut attribute = RunningHash::new();
            attribute.add(&[1, column]);
            attribute.add(encoding);
            attribute.digest()
        },
    }
}

pub(crate) fn take_cell(
    context: &mut Context,
    alloc: Global,
    row: OpenRow,
    token: &[u8],
) -> Result<State, AllocError>
    requires { length token.now ≡ size_of_cell token.now }
    ensures ok { IfOk result (λ state. Yields context.new state (λ rest. summary_by context.old
        (rest_of_cells context.old.target row.leaf.hasher context.old.last_key.items row.leaf.left
        row.hasher row.column row.findings (suc row.left)) (token.now ++ rest))) }
    ensures stands { IfOk result (λ state. (bytes : List ℕ)
        → IsInCells context.old.ancestors.items row.leaf.left context.old.last_key.items row.column
        (suc row.left) bytes → StandsAt context.new state (bytes ++ token.now)) }
    ensures keeps { IfOk result (λ state. (bytes : List ℕ)
        → KeepsInCells context.old row.column (suc row.left) row.findings.values bytes
        → KeepsAt context.new state (bytes ++ token.now)) }
    ensures good { IsErr result → BeginsCell token.now }
    ensures memory { IsErr result → IsTrue (is_needed_row context.old) }
    ensures target { context.new.target ≡ context.old.target }
{
    match parse_cell(token) {
        None => Ok(State::Invalid),
        Some(cell) => add_whole_cell(context, alloc, row, &cell, token),
    }
}

fn add_whole_cell(
    context: &mut Context,
    alloc: Global,
    row: OpenRow,
    cell: &CellToken<'_>,
    token: &[u8],
) -> Result<State, AllocError>
    requires form { token.now ≡ cell_form (cell_of cell.now) }
    requires fits { FitsCell (cell_of cell.now) }
    requires encoded { IsEncoded cell.now }
    ensures ok { IfOk result (λ state. Yields context.new state (λ rest. summary_by context.old
        (rest_of_cells context.old.target row.leaf.hasher context.old.last_key.items row.leaf.left
        row.hasher row.column row.findings (suc row.left)) (token.now ++ rest))) }
    ensures stands { IfOk result (λ state. (bytes : List ℕ)
        → IsInCells context.old.ancestors.items row.leaf.left context.old.last_key.items row.column
        (suc row.left) bytes → StandsAt context.new state (bytes ++ token.now)) }
    ensures keeps { IfOk result (λ state. (bytes : List ℕ)
        → KeepsInCells context.old row.column (suc row.left) row.findings.values bytes
        → KeepsAt context.new state (bytes ++ token.now)) }
    ensures memory { IsErr result → IsTrue (is_needed_row context.old) }
    ensures target { context.new.target ≡ context.old.target }
{
    let OpenRow {
        leaf,
        mut hasher,
        column,
        left,
        mut findings,
    } = row;
    let named = columns_at(&context.target, context.last_key.as_slice());
    let is_named = has_column(named, column);
    let fits = fits_kind(context.target.cell_kinds.as_slice(), column, cell);
    hasher.add(digest_of(column, cell).as_bytes());
    add_cell(alloc, &mut findings, is_named, fits, cell)?;
    next_cell(context, alloc, leaf, hasher, column + 1, findings, left)
}

/// Takes the whole cells in front of the bytes but for the row's last one, and gives the bytes
/// behind them. What is no cell is left. What is known of the row after an error is open.
pub(crate) fn pass_cells<'b>(
    context: &Context,
    alloc: Global,
    row: &mut OpenRow,
    bytes: &'b [u8],
) -> Result<&'b [u8], AllocError>
    ensures ok { IfOk result (λ left. Advances (machine_of context.now (State.Cell row.old))
        (machine_of context.now (State.Cell row.new)) bytes.now left.now) }
    ensures way { IsErr result → CanEnd (summary_from context.now (State.Cell row.old)) }
    ensures memory { IsErr result → IsTrue (is_needed_row context.now) }
    ensures some { IsErr result → 0 < length bytes.now }
{
    let mut digests = ArrayVec::new();
    let left = gather_cells(context, alloc, row, &mut digests, bytes)?;
    row.hasher.add(&digests);
    Ok(left)
}

/// The same, but that the cells' digests are gathered, since each that is hashed takes a call.
fn gather_cells<'b>(
    context: &Context,
    alloc: Global,
    row: &mut OpenRow,
    digests: &mut CellDigests,
    bytes: &'b [u8],
) -> Result<&'b [u8], AllocError>
    requires { digests.old.items ≡ [] }
    ensures ok { IfOk result (λ left. Passes (row_summary context.now row.old row.old.hasher)
        (row_summary context.now row.new (row.new.hasher ++ digests.new.items))
        bytes.now left.now) }
    ensures cells { IfOk result (λ left.
        TakesCells (is_needed_row context.now) row.old row.new bytes.now left.now) }
    ensures way { IsErr result → CanEnd (row_summary context.now row.old row.old.hasher) }
    ensures memory { IsErr result → IsTrue (is_needed_row context.now) }
    ensures some { IsErr result → 0 < length bytes.now }
{
    let named = columns_at(&context.target, context.last_key.as_slice());
    let mut left = bytes;
    'cells: while row.left > 0 {
        let size = cell_size(left);
        if left.len() < size {
            return Ok(left);
        }
        let (token, behind) = left.split_at(size);
        match parse_cell(token) {
            Some(cell) => pass_cell(context, alloc, named, row, digests, &cell)?,
            None => return Ok(left),
        }
        left = behind;
    }
    Ok(left)
}

// Inlined, as all that is asked of each cell.
#[inline(always)]
fn push_digest(digests: &mut CellDigests, digest: Digest)
    requires { length digests.old.items + 32 ≤ 960 }
    ensures { digests.new.items ≡ digests.old.items ++ digest }
{
    let _ = digests.try_extend_from_slice(digest.as_bytes());
}

/// Takes a cell behind which its row has others, where these columns of the row are named. What is
/// known of the row after an error is open.
// Inlined, as all that is asked of each cell.
#[inline(always)]
fn pass_cell(
    context: &Context,
    alloc: Global,
    named: &[u8],
    row: &mut OpenRow,
    digests: &mut CellDigests,
    cell: &CellToken<'_>,
) -> Result<(), AllocError>
    requires fits { FitsCell (cell_of cell.now) }
    requires encoded { IsEncoded cell.now }
    requires some { 0 < row.old.left }
    requires named { named.now ≡ columns_of context.now.target context.now.last_key.items }
    requires room { length digests.old.items ≤ 32 * row.old.column }
    ensures ok { OnOk result ((rest : List ℕ)
        → row_summary context.now row.new (row.new.hasher ++ digests.new.items) rest
        ≡ row_summary context.now row.old (row.old.hasher ++ digests.old.items)
        (cell_form (cell_of cell.now) ++ rest)) }
    ensures count { OnOk result (suc row.new.left ≡ row.old.left) }
    ensures column { OnOk result (row.new.column ≡ row.old.column + 1) }
    ensures behind { OnOk result (row.new.leaf.left ≡ row.old.leaf.left) }
    ensures room { OnOk result (length digests.new.items ≤ 32 * row.new.column) }
    ensures grown { OnOk result (ValuesGrow (is_needed_row context.now) row.old.findings.values
        row.new.findings.values (length (cell_form (cell_of cell.now)))) }
    ensures memory { IsErr result → IsTrue (is_needed_row context.now) }
{
    let is_named = has_column(named, row.column);
    let fits = fits_kind(context.target.cell_kinds.as_slice(), row.column, cell);
    push_digest(digests, digest_of(row.column, cell));
    add_cell(alloc, &mut row.findings, is_named, fits, cell)?;
    row.column += 1;
    row.left -= 1;
    Ok(())
}
