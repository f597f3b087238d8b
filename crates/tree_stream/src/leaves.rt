//! The entries of a leaf: their keys and rows.
ghost use Rattle.std.specs.Prelude.{◌≡◌, [], ◌∷◌, ◌++◌, ◌≤◌, ◌+◌, ℕ, List, suc, length, IsTrue, IfOk, IsErr};
ghost use Rattle.vo_spec.specs.declared.cells.RowPart.{RowPart};
ghost use Rattle.vo_spec.specs.Fits.{FitsRowPart, max_cells};
ghost use Rattle.vo_spec.specs.Tables.{max_key};
ghost use Rattle.vo_spec.specs.TreeBytes.{row_form};
ghost use Rattle.tree_stream.specs.Findings.{entry_findings_by};
ghost use Rattle.tree_stream.specs.Keeping.{KeepsAt, KeepsBehindKey, KeepsInCells, KeepsRows, values_bytes};
ghost use Rattle.tree_stream.specs.Parsing.{BeginsRow};
ghost use Rattle.tree_stream.specs.Positions.{IsBehindKey, IsInCells, IsInLeaf, StandsAt};
ghost use Rattle.tree_stream.specs.Remaining.{rest_of_cells, rest_of_leaf, rest_of_row, with_findings};
ghost use Rattle.tree_stream.specs.Summaries.{Yields, is_needed_row, summary_by};
ghost use Rattle.tree_stream.specs.Tokens.{row_size, string_size};

use crate::accumulate::{add_entry, begin_cells, closed_row, columns_at};
use crate::ancestors::end_node;
use crate::context::Context;
use crate::findings::CellFindings;
use crate::parse::{RowToken, parse_key, parse_row};
use crate::state::{OpenLeaf, OpenRow, State};
use arrayvec::ArrayVec;
use running_hash::RunningHash;
use std::alloc::{AllocError, Global};
use vo_spec::Digest;

/// So many more entries of a leaf.
pub(crate) fn next_entry(context: &mut Context, hasher: RunningHash, left: u8) -> State
    ensures yields { Yields context.new result (summary_by context.old
        (rest_of_leaf context.old.target hasher left)) }
    ensures stands { (bytes : List ℕ) → IsInLeaf context.old.ancestors.items left bytes
        → StandsAt context.new result bytes }
    ensures keeps { (bytes : List ℕ) → KeepsRows context.old bytes
        → KeepsAt context.new result bytes }
    ensures target { context.new.target ≡ context.old.target }
{
    if left == 0 {
        return end_node(context, hasher.digest());
    }
    State::Key(OpenLeaf {
        hasher,
        left: left - 1,
    })
}

/// Puts another key in the place of the last one.
pub(crate) fn replace_key(last_key: &mut ArrayVec<u8, 255>, key: &[u8])
    requires { length key.now ≤ max_key }
    ensures { last_key.new.items ≡ key.now }
{
    last_key.clear();
    let _ = last_key.try_extend_from_slice(key);
}

pub(crate) fn take_key(context: &mut Context, leaf: OpenLeaf, token: &[u8]) -> State
    requires { length token.now ≡ string_size max_key token.now }
    ensures yields { Yields context.new result (λ rest. summary_by context.old
        (rest_of_leaf context.old.target leaf.hasher (suc leaf.left)) (token.now ++ rest)) }
    ensures stands { (bytes : List ℕ) → IsInLeaf context.old.ancestors.items (suc leaf.left) bytes
        → StandsAt context.new result (bytes ++ token.now) }
    ensures keeps { (bytes : List ℕ) → IsInLeaf context.old.ancestors.items (suc leaf.left) bytes
        → KeepsRows context.old bytes → KeepsAt context.new result (bytes ++ token.now) }
    ensures target { context.new.target ≡ context.old.target }
{
    match parse_key(token) {
        None => State::Invalid,
        Some(key) => {
            replace_key(&mut context.last_key, key);
            let OpenLeaf { mut hasher, left } = leaf;
            hasher.add(token);
            State::Row(OpenLeaf { hasher, left })
        },
    }
}

/// The row of the last key has this digest, and this was found in it.
pub(crate) fn end_row(
    context: &mut Context,
    alloc: Global,
    leaf: OpenLeaf,
    digest: Digest,
    found: CellFindings,
) -> Result<State, AllocError>
    ensures ok { IfOk result (λ state. Yields context.new state (summary_by context.old
        (with_findings (entry_findings_by context.old.target context.old.last_key.items found)
        (rest_of_leaf context.old.target (leaf.hasher ++ digest) leaf.left)))) }
    ensures stands { IfOk result (λ state. (bytes : List ℕ) (row : RowPart)
        → IsBehindKey context.old.ancestors.items leaf.left context.old.last_key.items bytes
        → FitsRowPart row → StandsAt context.new state (bytes ++ row_form row)) }
    ensures keeps { IfOk result (λ state. (bytes : List ℕ) (row : RowPart)
        → KeepsBehindKey context.old bytes → FitsRowPart row
        → length (values_bytes found.values) ≤ length (row_form row)
        → KeepsAt context.new state (bytes ++ row_form row)) }
    ensures memory { IsErr result → IsTrue (is_needed_row context.old) }
    ensures target { context.new.target ≡ context.old.target }
{
    let OpenLeaf { mut hasher, left } = leaf;
    add_entry(
        alloc,
        &mut context.findings,
        &context.target,
        context.last_key.as_slice(),
        found,
    )?;
    hasher.add(digest.as_bytes());
    Ok(next_entry(context, hasher, left))
}

/// So many more cells of the row of the last key, the first of them that of this column.
pub(crate) fn next_cell(
    context: &mut Context,
    alloc: Global,
    leaf: OpenLeaf,
    hasher: RunningHash,
    column: u8,
    found: CellFindings,
    left: u8,
) -> Result<State, AllocError>
    requires { column + left ≤ max_cells }
    ensures ok { IfOk result (λ state. Yields context.new state (summary_by context.old
        (rest_of_cells context.old.target leaf.hasher context.old.last_key.items leaf.left hasher
        column found left))) }
    ensures stands { IfOk result (λ state. (bytes : List ℕ)
        → IsInCells context.old.ancestors.items leaf.left context.old.last_key.items column left
        bytes → StandsAt context.new state bytes) }
    ensures keeps { IfOk result (λ state. (bytes : List ℕ)
        → KeepsInCells context.old column left found.values bytes
        → KeepsAt context.new state bytes) }
    ensures memory { IsErr result → IsTrue (is_needed_row context.old) }
    ensures target { context.new.target ≡ context.old.target }
{
    if left == 0 {
        return end_row(context, alloc, leaf, hasher.digest(), found);
    }
    Ok(State::Cell(OpenRow {
        leaf,
        hasher,
        column,
        left: left - 1,
        findings: found,
    }))
}

pub(crate) fn take_row(
    context: &mut Context,
    alloc: Global,
    leaf: OpenLeaf,
    token: &[u8],
) -> Result<State, AllocError>
    requires { length token.now ≡ row_size token.now }
    ensures ok { IfOk result (λ state. Yields context.new state (λ rest. summary_by context.old
        (rest_of_row context.old.target leaf.hasher context.old.last_key.items leaf.left)
        (token.now ++ rest))) }
    ensures stands { IfOk result (λ state. (bytes : List ℕ)
        → IsBehindKey context.old.ancestors.items leaf.left context.old.last_key.items bytes
        → StandsAt context.new state (bytes ++ token.now)) }
    ensures keeps { IfOk result (λ state. (bytes : List ℕ) → KeepsBehindKey context.old bytes
        → KeepsAt context.new state (bytes ++ token.now)) }
    ensures good { IsErr result → BeginsRow token.now }
    ensures memory { IsErr result → IsTrue (is_needed_row context.old) }
    ensures target { context.new.target ≡ context.old.target }
{
    match parse_row(token) {
        RowToken::Digest(digest) => take_closed_row(context, alloc, leaf, digest),
        RowToken::Cells(count) => take_open_row(context, alloc, leaf, count),
        RowToken::Invalid => Ok(State::Invalid),
    }
}

fn take_closed_row(
    context: &mut Context,
    alloc: Global,
    leaf: OpenLeaf,
    digest: Digest,
) -> Result<State, AllocError>
    requires { length digest ≡ 32 }
    ensures ok { IfOk result (λ state. Yields context.new state (λ rest. summary_by context.old
        (rest_of_row context.old.target leaf.hasher context.old.last_key.items leaf.left)
        (0 ∷ digest ++ rest))) }
    ensures stands { IfOk result (λ state. (bytes : List ℕ)
        → IsBehindKey context.old.ancestors.items leaf.left context.old.last_key.items bytes
        → StandsAt context.new state (bytes ++ 0 ∷ digest)) }
    ensures keeps { IfOk result (λ state. (bytes : List ℕ) → KeepsBehindKey context.old bytes
        → KeepsAt context.new state (bytes ++ 0 ∷ digest)) }
    ensures memory { IsErr result → IsTrue (is_needed_row context.old) }
    ensures target { context.new.target ≡ context.old.target }
{
    let named = columns_at(&context.target, context.last_key.as_slice());
    let found = closed_row(alloc, named);
    end_row(context, alloc, leaf, digest, found)
}

fn take_open_row(
    context: &mut Context,
    alloc: Global,
    leaf: OpenLeaf,
    count: u8,
) -> Result<State, AllocError>
    requires { count ≤ max_cells }
    ensures ok { IfOk result (λ state. Yields context.new state (λ rest. summary_by context.old
        (rest_of_row context.old.target leaf.hasher context.old.last_key.items leaf.left)
        (1 ∷ count ∷ rest))) }
    ensures stands { IfOk result (λ state. (bytes : List ℕ)
        → IsBehindKey context.old.ancestors.items leaf.left context.old.last_key.items bytes
        → StandsAt context.new state (bytes ++ 1 ∷ count ∷ [])) }
    ensures keeps { IfOk result (λ state. (bytes : List ℕ) → KeepsBehindKey context.old bytes
        → KeepsAt context.new state (bytes ++ 1 ∷ count ∷ [])) }
    ensures memory { IsErr result → IsTrue (is_needed_row context.old) }
    ensures target { context.new.target ≡ context.old.target }
{
    let target = &context.target;
    let named = columns_at(target, context.last_key.as_slice());
    let found = begin_cells(alloc, target.cell_kinds.as_slice(), named, count);
    let mut hasher = RunningHash::new();
    hasher.add(&[2, count]);
    next_cell(context, alloc, leaf, hasher, 0, found, count)
}
