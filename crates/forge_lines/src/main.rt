//! Explains forged signatures by the lines of standard input, for comparisons.
//!
//! `explain RECORDS RECORD SIGNATURE` has what explains that the signature of the record is valid
//! under the key that was made last, which signed none but these records, one behind the other; it
//! is a line only where it is valid, by the leaf of the record's version, and the record isn't one
//! of these. Each other line is one of `format_lines`, and byte strings are spelled as there.
#![tactic(auto)]

mod answers;
mod explaining;

use answers::answer;
use format_lines::State;
use std::io::{self, BufRead, BufReader};

fn main(rt: HostRuntime) -> io::Result<()> {
    answer_lines(&rt, &mut State::new(rt.alloc()))
}

fn answer_lines(rt: &HostRuntime, state: &mut State) -> io::Result<()> {
    let alloc = rt.alloc();
    for line in BufReader::new(alloc, rt.reader())?.lines(alloc) {
        let answer = answer(alloc, state, &line?)?;
        println!(rt; "{answer}")?;
    }
    Ok(())
}
