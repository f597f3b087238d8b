//! Runs in which a call of what is outside fails.
use crate::folder::Attempt;
use crate::line::{Line, take_one_run};
use crate::pieces::{Pieces, take_number};
use line_pieces::{NoAnswer, call_named};
use outside::Failure;
use std::alloc::Global;

/// What is outside.
#[derive(Clone, Copy)]
enum Part {
    Files,
    Output,
    Net,
    Disk,
}

const PARTS: [(&str, Part); 4] = [
    ("files", Part::Files),
    ("output", Part::Output),
    ("net", Part::Net),
    ("disk", Part::Disk),
];

/// A run in which the call of a part with a number fails, a write behind so many bytes.
pub fn take_failing(alloc: Global, pieces: &mut Pieces<'_>) -> Result<Line, NoAnswer> {
    let part = part_named(pieces.next().unwrap_or(""))?;
    let failure = Failure {
        call: take_number(pieces)? as u64,
        after: take_number(pieces)?,
    };
    let word = pieces.next().unwrap_or("");
    let mut line = take_one_run(alloc, word, pieces)?;
    fail_call(&mut line, part, failure)?;
    Ok(line)
}

fn part_named(word: &str) -> Result<Part, NoAnswer> {
    call_named(&PARTS, word).ok_or(NoAnswer::NoSuchLine)
}

fn fail_call(line: &mut Line, part: Part, failure: Failure) -> Result<(), NoAnswer> {
    match (line, part) {
        (Line::Own(run), Part::Disk) => Ok(run.failures.push(failure)?),
        (Line::Own(run), _) => fail_call_of(&mut run.attempt, part, failure),
        (Line::Run(attempt), _) => fail_call_of(attempt, part, failure),
        (Line::Talk(attempt), _) => fail_call_of(attempt, part, failure),
        _ => Err(NoAnswer::NoSuchLine),
    }
}

/// The same of a part that each run has, or of its peer.
fn fail_call_of(attempt: &mut Attempt, part: Part, failure: Failure) -> Result<(), NoAnswer> {
    match (part, &mut attempt.peer) {
        (Part::Files, _) => Ok(attempt.take_failures.push(failure)?),
        (Part::Output, _) => Ok(attempt.put_failures.push(failure)?),
        (Part::Net, Some(peer)) => Ok(peer.failures.push(failure)?),
        _ => Err(NoAnswer::NoSuchLine),
    }
}
