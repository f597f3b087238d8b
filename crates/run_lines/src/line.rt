//! A line: the word of a call, and what it is asked of.
use crate::changes::{Change, Changes};
use crate::disk_run::{Crash, DiskRun};
use crate::failing::take_failing;
use crate::folder::{Attempt, Peer};
use crate::pieces::{
    Pieces, take_bytes, take_name, take_names, take_number, take_piece, take_words,
};
use line_pieces::NoAnswer;
use std::alloc::Global;

/// What a line asks for.
#[derive(Drop)]
pub enum Line {
    Clear,
    Keep(String, Vec<u8>),
    Splice(String, Splice),
    Frame(String, Frame),
    Run(Attempt),
    Talk(Attempt),
    Own(DiskRun),
    Make(String, Attempt),
    Each(Changes),
    Words(Vec<String>),
}

/// A file with other bytes in the place of so many from one on.
#[derive(Drop)]
pub struct Splice {
    pub from: String,
    pub at: usize,
    pub cut: usize,
    pub bytes: Vec<u8>,
}

/// A frame of a kind, whose body is a file.
#[derive(Drop)]
pub struct Frame {
    pub kind: Vec<u8>,
    pub body: String,
}

/// What a line asks for.
pub fn read_line(alloc: Global, line: &str) -> Result<Line, NoAnswer> {
    let mut pieces = line.split(' ');
    let word = pieces.next().unwrap_or("");
    line_of(alloc, word, &mut pieces)
}

fn line_of(alloc: Global, word: &str, pieces: &mut Pieces<'_>) -> Result<Line, NoAnswer> {
    Ok(match word {
        "clear" => Line::Clear,
        "keep" => Line::Keep(take_name(alloc, pieces)?, take_bytes(alloc, pieces)?),
        "splice" => Line::Splice(take_name(alloc, pieces)?, take_splice(alloc, pieces)?),
        "frame" => Line::Frame(take_name(alloc, pieces)?, take_frame(alloc, pieces)?),
        "fail" => take_failing(alloc, pieces)?,
        "make" => Line::Make(take_name(alloc, pieces)?, take_run(alloc, pieces)?),
        "each_cut" => take_changes(alloc, Change::Cut, pieces)?,
        "each_turn" => take_changes(alloc, Change::Turn, pieces)?,
        "crash_own" => Line::Own(take_run_before_crash(alloc, pieces)?),
        "words" => Line::Words(take_words(alloc, pieces)?),
        _ => take_one_run(alloc, word, pieces)?,
    })
}

/// A run, with a peer and a disk as its word says.
pub fn take_one_run(alloc: Global, word: &str, pieces: &mut Pieces<'_>) -> Result<Line, NoAnswer> {
    Ok(match word {
        "run" => Line::Run(take_run(alloc, pieces)?),
        "talk" => Line::Talk(take_run_with_peer(alloc, pieces)?),
        "own" => Line::Own(take_disk_run(alloc, pieces)?),
        _ => return Err(NoAnswer::NoSuchLine),
    })
}

fn take_changes(alloc: Global, change: Change, pieces: &mut Pieces<'_>) -> Result<Line, NoAnswer> {
    let name = take_name(alloc, pieces)?;
    let words = take_words(alloc, pieces)?;
    Ok(Line::Each(Changes {
        change,
        name,
        words,
    }))
}

fn take_splice(alloc: Global, pieces: &mut Pieces<'_>) -> Result<Splice, NoAnswer> {
    Ok(Splice {
        from: take_name(alloc, pieces)?,
        at: take_number(pieces)?,
        cut: take_number(pieces)?,
        bytes: take_bytes(alloc, pieces)?,
    })
}

fn take_frame(alloc: Global, pieces: &mut Pieces<'_>) -> Result<Frame, NoAnswer> {
    Ok(Frame {
        body: take_name(alloc, pieces)?,
        kind: take_bytes(alloc, pieces)?,
    })
}

fn take_run(alloc: Global, pieces: &mut Pieces<'_>) -> Result<Attempt, NoAnswer> {
    Ok(Attempt {
        words: take_words(alloc, pieces)?,
        take_failures: Vec::new(alloc),
        put_failures: Vec::new(alloc),
        peer: None,
    })
}

/// A run with a peer, whose bytes are those of files, one for each connection, in pieces of at most
/// so many.
fn take_run_with_peer(alloc: Global, pieces: &mut Pieces<'_>) -> Result<Attempt, NoAnswer> {
    let files = take_names(alloc, pieces)?;
    let piece = take_number(pieces)?;
    let failures = Vec::new(alloc);
    let mut attempt = take_run(alloc, pieces)?;
    attempt.peer = Some(Peer {
        files,
        piece,
        failures,
    });
    Ok(attempt)
}

/// A run with a peer and a disk that is a file.
fn take_disk_run(alloc: Global, pieces: &mut Pieces<'_>) -> Result<DiskRun, NoAnswer> {
    Ok(DiskRun {
        file: take_name(alloc, pieces)?,
        failures: Vec::new(alloc),
        crash: None,
        attempt: take_run_with_peer(alloc, pieces)?,
    })
}

/// The same where a crash comes behind so many writes and syncs, and leaves given bytes in the
/// place of those that it loses.
fn take_run_before_crash(alloc: Global, pieces: &mut Pieces<'_>) -> Result<DiskRun, NoAnswer> {
    let moment = take_number(pieces)?;
    let lost = take_piece(alloc, pieces)?;
    let mut run = take_disk_run(alloc, pieces)?;
    run.crash = Some(Crash { moment, lost });
    Ok(run)
}
