//! The answer to a line.
use crate::file_checks::check_file;
use crate::held_counts::count_held;
use crate::line::{Line, read_line};
use crate::reply_checks::{check_both_ways, check_fronts};
use crate::state::State;
use line_pieces::NoAnswer;
use std::alloc::Global;
use std::io;
use std::rt::Files;

/// The answer to a line, which may name a file that `rt` reads.
pub fn answer<R: Files>(
    rt: &R,
    alloc: Global,
    state: &mut State,
    line: &str,
) -> io::Result<String> {
    match answer_line(rt, alloc, state, line) {
        Ok(answer) => Ok(answer),
        Err(fault) => Ok(format!(in alloc; "{fault}")?),
    }
}

fn answer_line<R: Files>(
    rt: &R,
    alloc: Global,
    state: &mut State,
    line: &str,
) -> Result<String, NoAnswer> {
    match read_line(alloc, line)? {
        Line::Key(bytes) => state.keep_key(alloc, &bytes),
        Line::Query(text) => state.keep_query(alloc, &text),
        Line::Reply(bytes) => state.keep_reply(alloc, bytes),
        Line::Splice(splice) => state.splice_reply(alloc, &splice),
        Line::Check(pieces) => check_both_ways(alloc, state, &pieces, &state.reply),
        Line::Fronts(pieces) => check_fronts(alloc, state, &pieces),
        Line::Held(sizes) => count_held(alloc, state, &sizes),
        Line::File(pieces) => check_file(rt, alloc, state, &pieces),
    }
}
