//! A line of a checker: the word of a call, and the reply, pieces or file that it is asked of.
use line_pieces::{NoAnswer, put_piece};
use std::alloc::Global;

/// What a line asks for.
#[derive(Drop)]
pub enum Line {
    Key(Vec<u8>),
    Query(Vec<u8>),
    Reply(Vec<u8>),
    Splice(Splice),
    Check(Pieces),
    Fronts(Pieces),
    Held(Vec<usize>),
    File(FilePieces),
}

/// Bytes in the place of so many others from one on.
#[derive(Drop)]
pub struct Splice {
    pub at: usize,
    pub cut: usize,
    pub bytes: Vec<u8>,
}

/// The sizes of the pieces that a client gets, one at least of which isn't 0, and the least version
/// that it takes.
#[derive(Drop)]
pub struct Pieces {
    pub least: u64,
    pub sizes: Vec<usize>,
}

/// A file that a client gets in pieces of at most so many bytes, and the least version that it
/// takes.
#[derive(Drop)]
pub struct FilePieces {
    pub least: u64,
    pub size: usize,
    pub path: String,
}

/// What a line asks for.
pub fn read_line(alloc: Global, line: &str) -> Result<Line, NoAnswer> {
    let (word, rest) = line.split_once(' ').unwrap_or((line, ""));
    Ok(match word {
        "key" => Line::Key(bytes_of(alloc, rest)?),
        "query" => Line::Query(bytes_of(alloc, rest)?),
        "reply" => Line::Reply(bytes_of(alloc, rest)?),
        "splice" => Line::Splice(splice_of(alloc, rest)?),
        "check" => Line::Check(pieces_of(alloc, rest)?),
        "fronts" => Line::Fronts(pieces_of(alloc, rest)?),
        "held" => Line::Held(sizes_of(alloc, rest)?),
        "file" => Line::File(file_of(alloc, rest)?),
        _ => return Err(NoAnswer::NoSuchLine),
    })
}

/// The bytes of pieces with a blank between each two.
fn bytes_of(alloc: Global, pieces: &str) -> Result<Vec<u8>, NoAnswer> {
    let mut bytes = Vec::new(alloc);
    for piece in pieces.split(' ') {
        put_piece(alloc, &mut bytes, piece)?;
    }
    Ok(bytes)
}

fn splice_of(alloc: Global, rest: &str) -> Result<Splice, NoAnswer> {
    let (at, rest) = rest.split_once(' ').unwrap_or((rest, ""));
    let (cut, pieces) = rest.split_once(' ').unwrap_or((rest, ""));
    Ok(Splice {
        at: size_of(at)?,
        cut: size_of(cut)?,
        bytes: bytes_of(alloc, pieces)?,
    })
}

fn pieces_of(alloc: Global, rest: &str) -> Result<Pieces, NoAnswer> {
    let (least, sizes) = rest.split_once(' ').unwrap_or((rest, ""));
    Ok(Pieces {
        least: version_of(least)?,
        sizes: sizes_of(alloc, sizes)?,
    })
}

fn file_of(alloc: Global, rest: &str) -> Result<FilePieces, NoAnswer> {
    let (least, rest) = rest.split_once(' ').unwrap_or((rest, ""));
    let (size, path) = rest.split_once(' ').unwrap_or((rest, ""));
    Ok(FilePieces {
        least: version_of(least)?,
        size: size_of(size)?,
        path: path.to_string(alloc)?,
    })
}

fn sizes_of(alloc: Global, text: &str) -> Result<Vec<usize>, NoAnswer> {
    let mut sizes = Vec::new(alloc);
    for size in text.split('+') {
        sizes.push(size_of(size)?)?;
    }
    // Pieces of no bytes alone never come to an end.
    if sizes.iter().all(|size| *size == 0) {
        return Err(NoAnswer::NoSuchLine);
    }
    Ok(sizes)
}

fn size_of(digits: &str) -> Result<usize, NoAnswer> {
    digits.parse::<usize>().or(Err(NoAnswer::NoSuchLine))
}

fn version_of(digits: &str) -> Result<u64, NoAnswer> {
    digits.parse::<u64>().or(Err(NoAnswer::NoSuchLine))
}
