//! Answers each line of standard input by a crate of lines, for comparisons.
//!
//! A line `with NAME` names the crate that answers the lines behind it, and is answered by that
//! name: `call_lines`, `tree_lines`, `format_lines` or `check_lines`. Each keeps what its lines
//! leave until it is named again.
#![tactic(auto)]

mod crates;

use crates::Crates;
use std::io::{self, BufRead, BufReader};

fn main(rt: HostRuntime) -> io::Result<()> {
    answer_lines(&rt, &mut Crates::new(rt.alloc()))
}

fn answer_lines(rt: &HostRuntime, crates: &mut Crates) -> io::Result<()> {
    let alloc = rt.alloc();
    for line in BufReader::new(alloc, rt.reader())?.lines(alloc) {
        let answer = crates.answer(rt, &line?)?;
        println!(rt; "{answer}")?;
    }
    Ok(())
}
