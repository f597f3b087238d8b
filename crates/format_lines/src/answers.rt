//! The answer to a line: bytes in hexadecimal, numbers, words, and written forms.
use crate::call::Call;
use crate::disk_images::images;
use crate::hashing::{collision, digest, hash};
use crate::journals::{entries, journal, owned_journal, seal, slots, taken_journal};
use crate::keys::{copy, key, leaf, make, node, sign, verify};
use crate::line::read_line;
use crate::one_time::{candidate, checksum, digit, ots_public, ots_sign};
use crate::owners::{next, owned_entries, replay_entries, start, step};
use crate::records::{catalog, record};
use crate::replies::{answer_at, answer_by, begin, proofs, reply};
use crate::rows::{attribute, cell, closed_row, hide, hide_cells, row, value, whole_row};
use crate::state::{State, keep};
use line_pieces::NoAnswer;
use std::alloc::Global;
use std::io;
use vo_spec::Levels;

/// The answer to a line.
pub fn answer(alloc: Global, state: &mut State, line: &str) -> io::Result<String> {
    match answer_line(alloc, state, line) {
        Ok(answer) => Ok(answer),
        Err(fault) => Ok(format!(in alloc; "{fault}")?),
    }
}

fn answer_line(alloc: Global, state: &mut State, line: &str) -> Result<String, NoAnswer> {
    let line = read_line(alloc, &state.bytes, line)?;
    let answer = answer_call(alloc, state, line.call, line.strings.as_slice());
    drop(line);
    answer
}

fn answer_call(
    alloc: Global,
    state: &mut State,
    call: Call,
    strings: &[Vec<u8>],
) -> Result<String, NoAnswer> {
    match call {
        Call::Keep => keep(alloc, state, strings),
        Call::OtsSign => ots_sign(alloc, state, strings),
        Call::Make => make(alloc, state, Levels::One, strings),
        Call::MakeHss => make(alloc, state, Levels::Two, strings),
        Call::Copy => copy(alloc, state),
        Call::Node => node(alloc, state, strings),
        Call::Sign => sign(alloc, state, strings),
        Call::Seal => seal(alloc, state, strings),
        Call::Start => start(alloc, state),
        Call::Step => step(alloc, state, strings),
        Call::Replay => replay_entries(alloc, state, strings),
        _ => by_strings(alloc, call, strings),
    }
}

/// The answer to a line that asks of its byte strings alone, and leaves nothing.
fn by_strings(alloc: Global, call: Call, strings: &[Vec<u8>]) -> Result<String, NoAnswer> {
    match call {
        Call::Digest => digest(alloc, strings),
        Call::Hash => hash(alloc, strings),
        Call::Collision => collision(alloc, strings),
        Call::Digit => digit(alloc, strings),
        Call::Checksum => checksum(alloc, strings),
        Call::OtsPublic => ots_public(alloc, strings),
        Call::Candidate => candidate(alloc, strings),
        Call::Key => key(alloc, strings),
        Call::Leaf => leaf(alloc, strings),
        Call::Verify => verify(alloc, strings),
        _ => by_formats(alloc, call, strings),
    }
}

/// The answer to a line of rows, formats or journals.
fn by_formats(alloc: Global, call: Call, strings: &[Vec<u8>]) -> Result<String, NoAnswer> {
    match call {
        Call::Value => value(alloc, strings),
        Call::Attribute => attribute(alloc, strings),
        Call::Cell => cell(alloc, strings),
        Call::Row => row(alloc, strings),
        Call::Closed => closed_row(alloc, strings),
        Call::Whole => whole_row(alloc, strings),
        Call::Hide => hide(alloc, strings),
        Call::HideCells => hide_cells(alloc, strings),
        Call::Catalog => catalog(alloc, strings),
        Call::Record => record(alloc, strings),
        Call::Reply => reply(alloc, strings),
        Call::Proofs => proofs(alloc, strings),
        Call::Begin => begin(alloc, strings),
        Call::Slots => slots(alloc, strings),
        Call::Entries => entries(alloc, strings),
        Call::Journal => journal(alloc, strings),
        Call::Images => images(alloc, strings),
        Call::Owned => owned_journal(alloc, strings),
        Call::Taken => taken_journal(alloc, strings),
        Call::Answer => answer_by(alloc, strings),
        Call::AnswerAt => answer_at(alloc, strings),
        Call::Next => next(alloc, strings),
        Call::OwnedEntries => owned_entries(alloc, strings),
        _ => Err(NoAnswer::NoSuchLine),
    }
}
