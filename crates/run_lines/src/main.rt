//! Runs the program for lines of standard input, over what is outside in memory, for comparisons.
//!
//! A line is a word and what it is asked of. `keep NAME BYTES` keeps a file, and `splice NAME FROM
//! AT CUT BYTES` one that is the file FROM with these bytes in the place of CUT others from AT on;
//! `frame NAME FROM KIND` one that is the frame of this kind with the file FROM as its body; they
//! say how long it is, and `clear` has no files again. `run WORDS` runs the program, its name
//! first, and says the status and the output; `make NAME WORDS` keeps the output besides. `talk
//! NAMES PIECE WORDS` runs it with connections, on which the bytes of these files come, one file
//! for each, in pieces of at most PIECE, and says besides what was put there. `each_cut NAME WORDS`
//! runs it for each shorter front of the file NAME, which stands in its place, and `each_turn NAME
//! WORDS` for the file with the lowest bit of each of its bytes turned. `words WORDS` says what the
//! words ask for.
//!
//! `own FILE NAMES PIECE WORDS` is a `talk` with a disk that holds the file FILE, if it is there,
//! which is then what the disk holds behind the run. It says besides how many calls of the disk
//! were made, and what is there: `=` and the name of the file with these bytes, the latest kept of
//! several, or else the bytes. `crash_own MOMENT LOST FILE NAMES PIECE WORDS` does so where the file
//! is what a crash behind so many writes and syncs leaves, with these bytes in the place of those
//! that are lost.
//!
//! `fail PART CALL AFTER` in front of a `run`, a `talk` or an `own` has the call with this number,
//! from 0 on, of the `files`, the `output`, the `net` or the `disk` fail, where it writes behind so
//! many bytes.
//!
//! Bytes are in hexadecimal, in pieces with a blank between; digits of a piece that stands several
//! times are written as `DIGITS*COUNT`. Each of the words is such a piece. Output is said as a text
//! in quotes, if it is one, or else in hexadecimal. Names have `+` between each two. Of many runs
//! the answers are said in order, each behind the number of runs that gave it one after the other.
#![tactic(auto)]

mod calls;
mod changes;
mod counted_disk;
mod disk_run;
mod failing;
mod folder;
mod line;
mod pieces;

use calls::answer;
use folder::Folder;
use std::io::{self, BufRead, BufReader};

fn main(rt: HostRuntime) -> io::Result<()> {
    answer_lines(&rt, &mut Folder::new(rt.alloc()))
}

fn answer_lines(rt: &HostRuntime, folder: &mut Folder) -> io::Result<()> {
    let alloc = rt.alloc();
    for line in BufReader::new(alloc, rt.reader())?.lines(alloc) {
        let answer = answer(alloc, folder, &line?)?;
        println!(rt; "{answer}")?;
    }
    Ok(())
}
