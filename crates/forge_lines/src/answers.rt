//! The answer to a line.
use crate::explaining::explanation_text;
use format_lines::{State, strings_of};
use line_pieces::NoAnswer;
use std::alloc::Global;
use std::io;
use std::str::Split;

/// The answer to a line.
pub fn answer(alloc: Global, state: &mut State, line: &str) -> io::Result<String> {
    let mut words = line.split(' ');
    match words.next().unwrap_or("") {
        "explain" => answer_explain(alloc, state, words),
        _ => format_lines::answer(alloc, state, line),
    }
}

fn answer_explain(alloc: Global, state: &State, words: Split<'_, char>) -> io::Result<String> {
    match explain_words(alloc, state, words) {
        Ok(answer) => Ok(answer),
        Err(fault) => Ok(format!(in alloc; "{fault}")?),
    }
}

fn explain_words(alloc: Global, state: &State, words: Split<'_, char>) -> Result<String, NoAnswer> {
    let strings = strings_of(alloc, &state.bytes, words)?;
    let [records, record, signature] = strings.as_slice() else {
        return Err(NoAnswer::NoSuchLine);
    };
    explanation_text(alloc, state.secret()?, records, record, signature)
}
