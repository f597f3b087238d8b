//! The check of a reply whose pieces are read from a file.
use crate::line::FilePieces;
use crate::reply_checks::end_check;
use crate::state::State;
use line_pieces::NoAnswer;
use std::alloc::Global;
use std::fs;
use std::io::Read;
use std::rt::Files;
use vo_check::{Checking, Client};

/// The answer to the bytes of a file, of which no more than a piece is held here.
pub fn check_file<R: Files>(
    rt: &R,
    alloc: Global,
    state: &State,
    pieces: &FilePieces,
) -> Result<String, NoAnswer> {
    match fs::open(rt, &pieces.path) {
        Ok(file) => check_opened(alloc, state, pieces, file),
        Err(_) => Err(NoAnswer::NoSuchLine),
    }
}

fn check_opened<F: Read + Drop>(
    alloc: Global,
    state: &State,
    pieces: &FilePieces,
    file: F,
) -> Result<String, NoAnswer> {
    let client = Client::new(state.key()?, pieces.least);
    let mut checking = client.begin(alloc, state.query()?);
    let fed = feed_file(alloc, &mut checking, file, pieces.size);
    end_check(alloc, client, checking, fed)
}

fn feed_file<F: Read + Drop>(
    alloc: Global,
    checking: &mut Checking<'_>,
    mut file: F,
    size: usize,
) -> Result<(), NoAnswer> {
    let mut piece = vec![in alloc; 0; size]?;
    for _ in 0..u64::MAX {
        let Ok(count) = file.read(&mut piece) else {
            return Err(NoAnswer::NoSuchLine);
        };
        if count == 0 {
            break;
        }
        checking.feed(alloc, &piece[..count])?;
    }
    Ok(())
}
