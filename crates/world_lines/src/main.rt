//! Has a world go on by each line of standard input, for comparisons.
//!
//! A line is a word and byte strings, spelled as those of `format_lines` are, and `keep`, `make` and
//! `make_hss` are its calls: the bytes kept last, and the owner's key.
//!
//! `new CLIENTS` begins a world of that key and so many clients. What happens there is `commit BATCH
//! PROOFS`, `crash LOST BYTES`, whose image is the journal with these bytes in the place of so many
//! at its end, and `receive CLIENT QUERY BYTES`, of which the query is a text; each says what is
//! said of the event. `schedule` has all that happened since `new` happen once more, by the one call
//! for lists of events, says what is said of each, and goes on with the world that it comes to.
//!
//! `journal` has the length and the digest of the journal's bytes, as has `new`; `entries` and
//! `clients` count; `released` has the records of which anybody may know, and `accepted` of each
//! accepted reply the client, the version, the query and the digest.
#![tactic(auto)]

mod answers;
mod happenings;
mod said;
mod shown;
mod state;

use answers::answer;
use state::State;
use std::io::{self, BufRead, BufReader};

fn main(rt: HostRuntime) -> io::Result<()> {
    answer_lines(&rt, &mut State::new(rt.alloc()))
}

fn answer_lines(rt: &HostRuntime, state: &mut State) -> io::Result<()> {
    let alloc = rt.alloc();
    for line in BufReader::new(alloc, rt.reader())?.lines(alloc) {
        let answer = answer(alloc, state, &line?)?;
        println!(rt; "{answer}")?;
    }
    Ok(())
}
