//! The calls by their words.
use crate::counted_calls::count_changes;
use crate::line::{Call, read_line};
use crate::need_calls::{judge_needs, scan_part};
use crate::part_calls::{
    change_part, change_part_in_turn, digest_of, judge_change, preimage_of, read_again,
};
use crate::table_calls::{apply_batch, catalog_of, clear, proof_of, refusals, rows_of, step_batch};
use crate::tree_calls::{agree_tree, change_tree, prove_change, prune_tree, root_of};
use crate::twin_calls::{compare_proofs, compare_two, walk_two};
use line_pieces::word;
use std::alloc::Global;
use std::io;
use stored_tables::StoredTables;

/// The answer to a line.
pub fn answer(alloc: Global, tables: &mut StoredTables, line: &str) -> io::Result<String> {
    match read_line(alloc, line)? {
        Some(line) => {
            let answer = answer_call(alloc, tables, line.call, &line.first, &line.second);
            drop(line);
            answer
        }
        None => word(alloc, "no such line"),
    }
}

fn answer_call(
    alloc: Global,
    tables: &mut StoredTables,
    call: Call,
    first: &[u8],
    second: &[u8],
) -> io::Result<String> {
    match call {
        Call::Clear => clear(alloc, tables),
        Call::Apply => apply_batch(alloc, tables, first),
        Call::Step => step_batch(alloc, tables, first),
        Call::Refusal => refusals(alloc, tables, first),
        Call::Proof => proof_of(alloc, tables, first),
        Call::Catalog => catalog_of(alloc, tables),
        Call::Rows => rows_of(alloc, tables),
        Call::Root => root_of(alloc, tables),
        Call::Change => change_tree(alloc, tables, first),
        Call::Prove => prove_change(alloc, tables, first),
        Call::Prune => prune_tree(alloc, tables, first),
        Call::Agree => agree_tree(alloc, tables, first),
        Call::Work => change_part(alloc, first, second),
        Call::After => change_part_in_turn(alloc, first, second),
        Call::Judge => judge_change(alloc, first, second),
        Call::Scan => scan_part(alloc, first, second),
        Call::Canonical => judge_needs(alloc, first, second),
        Call::Digest => digest_of(alloc, first),
        Call::Preimage => preimage_of(alloc, first),
        Call::Read => read_again(alloc, first),
        Call::Same => compare_two(alloc, first, second),
        Call::Walks => walk_two(alloc, first, second),
        Call::Twins => compare_proofs(alloc, first, second),
        Call::Counted => count_changes(alloc, first),
    }
}
