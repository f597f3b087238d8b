//! What the calls answer.
use crate::changes::{Changes, run_over_changes};
use crate::disk_run::run_with_disk;
use crate::folder::{Attempt, Folder, RunEnd};
use crate::line::{Frame, Line, Splice, read_line};
use cli_args::{Command, Commitment, OwnerAudit, Request, Service, read_words};
use line_pieces::NoAnswer;
use std::alloc::Global;
use std::{io, mem};

/// The answer to a line.
pub fn answer(alloc: Global, folder: &mut Folder, line: &str) -> io::Result<String> {
    match answer_line(alloc, folder, line) {
        Ok(answer) => Ok(answer),
        Err(fault) => Ok(format!(in alloc; "{fault}")?),
    }
}

fn answer_line(alloc: Global, folder: &mut Folder, line: &str) -> Result<String, NoAnswer> {
    match read_line(alloc, line)? {
        Line::Clear => clear(alloc, folder),
        Line::Keep(name, bytes) => keep_file(alloc, folder, name, bytes),
        Line::Splice(name, splice) => keep_splice(alloc, folder, name, splice),
        Line::Frame(name, frame) => keep_frame(alloc, folder, name, frame),
        Line::Run(attempt) => run_once(alloc, folder, attempt),
        Line::Talk(attempt) => run_with_peer(alloc, folder, attempt),
        Line::Own(run) => run_with_disk(alloc, folder, run),
        Line::Make(name, attempt) => run_and_keep(alloc, folder, name, attempt),
        Line::Each(changes) => run_each(alloc, folder, changes),
        Line::Words(words) => words_text(alloc, words),
    }
}

fn clear(alloc: Global, folder: &mut Folder) -> Result<String, NoAnswer> {
    drop(mem::replace(folder, Folder::new(alloc)));
    Ok("cleared".to_string(alloc)?)
}

fn run_each(alloc: Global, folder: &Folder, changes: Changes) -> Result<String, NoAnswer> {
    let answer = run_over_changes(alloc, folder, &changes);
    drop(changes);
    answer
}

fn words_text(alloc: Global, words: Vec<String>) -> Result<String, NoAnswer> {
    let answer = request_text(alloc, &words);
    drop(words);
    answer
}

/// What the words ask for.
fn request_text(alloc: Global, words: &[String]) -> Result<String, NoAnswer> {
    match read_words(alloc, words)? {
        Some(request) => request_form(alloc, request),
        None => Ok("none".to_string(alloc)?),
    }
}

fn request_form(alloc: Global, request: Request<'_>) -> Result<String, NoAnswer> {
    match request {
        Request::Command(command) => command_form(alloc, command),
        Request::Own(commitment) => commitment_form(alloc, commitment),
        Request::Serve(service) => service_form(alloc, service),
    }
}

fn commitment_form(alloc: Global, commitment: Commitment<'_>) -> Result<String, NoAnswer> {
    let Commitment {
        seed,
        address,
        script,
        shape,
    } = commitment;
    let (height, levels) = (shape.height.number(), shape.levels.number());
    Ok(format!(in alloc; "(own {seed:?} {address:?} {script:?} {height} {levels})")?)
}

fn service_form(alloc: Global, service: Service<'_>) -> Result<String, NoAnswer> {
    let (address, key) = (service.address, service.key);
    let (journal, count) = (service.journal, service.count);
    Ok(format!(in alloc; "(serve {address:?} {key:?} {journal:?} {count})")?)
}

/// The command and its words in quotes, and what its options give.
fn command_form(alloc: Global, command: Command<'_>) -> Result<String, NoAnswer> {
    Ok(match command {
        Command::Keygen { seed, shape } => {
            let (height, levels) = (shape.height.number(), shape.levels.number());
            format!(in alloc; "(keygen {seed:?} {height} {levels})")?
        }
        Command::Seal {
            seed,
            script,
            shape,
        } => {
            let (height, levels) = (shape.height.number(), shape.levels.number());
            format!(in alloc; "(seal {seed:?} {script:?} {height} {levels})")?
        }
        Command::Answer {
            key,
            journal,
            query,
            at,
        } => {
            let at = version_text(alloc, at)?;
            format!(in alloc; "(answer {key:?} {journal:?} {query:?} {at})")?
        }
        Command::Check {
            key,
            query,
            reply,
            least,
        } => format!(in alloc; "(check {key:?} {query:?} {reply:?} {least})")?,
        Command::Ask {
            address,
            key,
            query,
            at,
            least,
        } => {
            let at = version_text(alloc, at)?;
            format!(in alloc; "(ask {address:?} {key:?} {query:?} {at} {least})")?
        }
        Command::Audit {
            key,
            journal,
            query,
            reply,
        } => format!(in alloc; "(audit {key:?} {journal:?} {query:?} {reply:?})")?,
        Command::Explain(audit) => owner_audit_form(alloc, audit)?,
        Command::Meet {
            key,
            query,
            first,
            second,
        } => format!(in alloc; "(meet {key:?} {query:?} {first:?} {second:?})")?,
        Command::Generate { steps, number } => format!(in alloc; "(gen {steps} {number})")?,
    })
}

/// A version that is asked for, or none.
fn version_text(alloc: Global, at: Option<u64>) -> Result<String, NoAnswer> {
    Ok(match at {
        Some(version) => format!(in alloc; "{version}")?,
        None => "none".to_string(alloc)?,
    })
}

fn owner_audit_form(alloc: Global, audit: OwnerAudit<'_>) -> Result<String, NoAnswer> {
    let OwnerAudit {
        key,
        journal,
        query,
        reply,
        seed,
        shape,
    } = audit;
    let (height, levels) = (shape.height.number(), shape.levels.number());
    Ok(format!(in alloc;
        "(explain {key:?} {journal:?} {query:?} {reply:?} {seed:?} {height} {levels})"
    )?)
}

/// Keeps a file, and says how long it is.
fn keep_file(
    alloc: Global,
    folder: &mut Folder,
    name: String,
    bytes: Vec<u8>,
) -> Result<String, NoAnswer> {
    let count = bytes.len();
    folder.keep(name, bytes)?;
    Ok(format!(in alloc; "{count} bytes")?)
}

/// The same of bytes that were made for it, if they were.
fn keep_made(
    alloc: Global,
    folder: &mut Folder,
    name: String,
    made: Result<Vec<u8>, NoAnswer>,
) -> Result<String, NoAnswer> {
    match made {
        Ok(bytes) => keep_file(alloc, folder, name, bytes),
        Err(fault) => {
            drop(name);
            Err(fault)
        }
    }
}

fn keep_splice(
    alloc: Global,
    folder: &mut Folder,
    name: String,
    splice: Splice,
) -> Result<String, NoAnswer> {
    let made = splice_file(alloc, folder, &splice);
    drop(splice);
    keep_made(alloc, folder, name, made)
}

fn splice_file(alloc: Global, folder: &Folder, splice: &Splice) -> Result<Vec<u8>, NoAnswer> {
    let Some(bytes) = folder.find(&splice.from) else {
        return Err(NoAnswer::NoSuchLine);
    };
    let (front, rest) = bytes.split_at(bytes.len().min(splice.at));
    let (_, back) = rest.split_at(rest.len().min(splice.cut));
    let mut all = Vec::from_slice(alloc, front)?;
    all.extend_from_slice(&splice.bytes)?;
    all.extend_from_slice(back)?;
    Ok(all)
}

/// Keeps the bytes of a frame: how many follow, its kind, and its body.
fn keep_frame(
    alloc: Global,
    folder: &mut Folder,
    name: String,
    frame: Frame,
) -> Result<String, NoAnswer> {
    let made = frame_bytes(alloc, folder, &frame);
    drop(frame);
    keep_made(alloc, folder, name, made)
}

fn frame_bytes(alloc: Global, folder: &Folder, frame: &Frame) -> Result<Vec<u8>, NoAnswer> {
    let Some(body) = folder.find(&frame.body) else {
        return Err(NoAnswer::NoSuchLine);
    };
    let Ok(length) = u32::try_from(frame.kind.len() + body.len()) else {
        return Err(NoAnswer::NoSuchLine);
    };
    let mut bytes = Vec::from_slice(alloc, &length.to_be_bytes())?;
    bytes.extend_from_slice(&frame.kind)?;
    bytes.extend_from_slice(body)?;
    Ok(bytes)
}

fn run_once(alloc: Global, folder: &Folder, attempt: Attempt) -> Result<String, NoAnswer> {
    let end = folder.run(alloc, attempt)?;
    let answer = end_text(alloc, &end);
    drop(end);
    answer
}

fn run_with_peer(alloc: Global, folder: &Folder, attempt: Attempt) -> Result<String, NoAnswer> {
    let end = folder.run(alloc, attempt)?;
    let answer = talk_text(alloc, &end);
    drop(end);
    answer
}

/// What a run ended with, and what was put on its connections.
pub fn talk_text(alloc: Global, end: &RunEnd) -> Result<String, NoAnswer> {
    let text = end_text(alloc, end)?;
    let digits = hex::encode(alloc, end.put.as_slice())?;
    Ok(format!(in alloc; "{text} put {digits}")?)
}

/// Runs the program, and keeps what it writes.
fn run_and_keep(
    alloc: Global,
    folder: &mut Folder,
    name: String,
    attempt: Attempt,
) -> Result<String, NoAnswer> {
    match folder.run(alloc, attempt) {
        Ok(end) => {
            let answer = end_text(alloc, &end);
            folder.keep(name, end.written)?;
            answer
        }
        Err(_) => {
            drop(name);
            Err(NoAnswer::Memory)
        }
    }
}

/// A status, and output as a text in quotes, if it is one, or else in hexadecimal.
pub fn end_text(alloc: Global, end: &RunEnd) -> Result<String, NoAnswer> {
    match std::str::from_utf8(&end.written) {
        Ok(text) => Ok(format!(in alloc; "{} {text:?}", end.status)?),
        Err(_) => {
            let digits = hex::encode(alloc, end.written.as_slice())?;
            Ok(format!(in alloc; "{} {digits}", end.status)?)
        }
    }
}
