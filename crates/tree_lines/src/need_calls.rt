//! What needs find in a part tree.
use crate::answers::verdict;
use crate::need_reading::{read_need, read_needs};
use crate::part_reading::read_part;
use line_pieces::describe;
use range_proof::{is_canonical, scan};
use std::alloc::Global;
use std::io;
use vo_spec::{List, Need, ScanFault, SeenRow};

/// The rows that a scan for a need gives.
pub fn scan_part(alloc: Global, need: &[u8], part: &[u8]) -> io::Result<String> {
    match read_need(alloc, need) {
        Ok(need) => {
            let answer = scan_part_for(alloc, &need, part);
            drop(need);
            answer
        }
        Err(fault) => describe(alloc, &fault),
    }
}

fn scan_part_for(alloc: Global, need: &Need, part: &[u8]) -> io::Result<String> {
    match read_part(alloc, part) {
        Ok(part) => {
            let found = scan(alloc, &part, need);
            drop(part);
            describe_found(alloc, found)
        }
        Err(fault) => describe(alloc, &fault),
    }
}

fn describe_found(alloc: Global, found: Result<List<SeenRow>, ScanFault>) -> io::Result<String> {
    let text = describe(alloc, &found);
    drop(found);
    text
}

/// Whether the part tree is the proof of the needs.
pub fn judge_needs(alloc: Global, needs: &[u8], part: &[u8]) -> io::Result<String> {
    match read_needs(alloc, needs) {
        Ok(needs) => {
            let answer = judge_for(alloc, &needs, part);
            drop(needs);
            answer
        }
        Err(fault) => describe(alloc, &fault),
    }
}

fn judge_for(alloc: Global, needs: &[Need], part: &[u8]) -> io::Result<String> {
    match read_part(alloc, part) {
        Ok(part) => {
            let is_proof = is_canonical(alloc, &part, needs);
            drop(part);
            verdict(alloc, is_proof)
        }
        Err(fault) => describe(alloc, &fault),
    }
}
