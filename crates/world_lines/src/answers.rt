//! The answer to a line.
use crate::happenings::Kind;
use crate::shown::{Part, show};
use crate::state::State;
use format_lines::{number_of, strings_of};
use line_pieces::{NoAnswer, call_named};
use std::alloc::Global;
use std::io;

/// The calls of worlds.
#[derive(Clone, Copy)]
enum Call {
    New,
    Happen(Kind),
    Schedule,
    Show(Part),
}

const CALLS: [(&str, Call); 10] = [
    ("new", Call::New),
    ("commit", Call::Happen(Kind::Commit)),
    ("crash", Call::Happen(Kind::Crash)),
    ("receive", Call::Happen(Kind::Receive)),
    ("schedule", Call::Schedule),
    ("clients", Call::Show(Part::Clients)),
    ("entries", Call::Show(Part::Entries)),
    ("journal", Call::Show(Part::Journal)),
    ("released", Call::Show(Part::Released)),
    ("accepted", Call::Show(Part::Accepted)),
];

/// The answer to a line.
pub fn answer(alloc: Global, state: &mut State, line: &str) -> io::Result<String> {
    let mut words = line.split(' ');
    match words.next().unwrap_or("") {
        "keep" | "make" | "make_hss" => format_lines::answer(alloc, &mut state.made, line),
        _ => answer_in_world(alloc, state, line),
    }
}

fn answer_in_world(alloc: Global, state: &mut State, line: &str) -> io::Result<String> {
    match answer_line(alloc, state, line) {
        Ok(answer) => Ok(answer),
        Err(fault) => Ok(format!(in alloc; "{fault}")?),
    }
}

fn answer_line(alloc: Global, state: &mut State, line: &str) -> Result<String, NoAnswer> {
    let mut words = line.split(' ');
    let Some(call) = call_named(&CALLS, words.next().unwrap_or("")) else {
        return Err(NoAnswer::NoSuchLine);
    };
    let strings = strings_of(alloc, &state.made.bytes, words)?;
    match call {
        Call::Happen(kind) => state.happen(alloc, kind, strings),
        _ => {
            let answer = answer_call(alloc, state, call, strings.as_slice());
            drop(strings);
            answer
        }
    }
}

/// The answer to a call by which nothing new happens.
fn answer_call(
    alloc: Global,
    state: &mut State,
    call: Call,
    strings: &[Vec<u8>],
) -> Result<String, NoAnswer> {
    match (call, strings) {
        (Call::New, [clients]) => state.begin(alloc, number_of(clients)? as usize),
        (Call::Schedule, []) => state.happen_again(alloc),
        (Call::Show(part), []) => show(alloc, state.world()?, part),
        _ => Err(NoAnswer::NoSuchLine),
    }
}
