//! The pieces of a line, with a blank between each two: names, numbers, bytes and words.
use line_pieces::{NoAnswer, put_piece};
use std::alloc::Global;
use std::str::Split;

pub type Pieces<'a> = Split<'a, char>;

/// The next piece, as it stands.
pub fn take_name(alloc: Global, pieces: &mut Pieces<'_>) -> Result<String, NoAnswer> {
    match pieces.next() {
        Some(name) => Ok(String::from_str(alloc, name)?),
        None => Err(NoAnswer::NoSuchLine),
    }
}

/// The names in the next piece, with `+` between each two.
pub fn take_names(alloc: Global, pieces: &mut Pieces<'_>) -> Result<Vec<String>, NoAnswer> {
    let mut names = Vec::new(alloc);
    for name in pieces.next().unwrap_or("").split('+') {
        names.push(String::from_str(alloc, name)?)?;
    }
    Ok(names)
}

/// The number that the next piece is.
pub fn take_number(pieces: &mut Pieces<'_>) -> Result<usize, NoAnswer> {
    let Some(piece) = pieces.next() else {
        return Err(NoAnswer::NoSuchLine);
    };
    piece.parse::<usize>().map_err(|_| NoAnswer::NoSuchLine)
}

/// The bytes of the next piece.
pub fn take_piece(alloc: Global, pieces: &mut Pieces<'_>) -> Result<Vec<u8>, NoAnswer> {
    let mut bytes = Vec::new(alloc);
    put_piece(alloc, &mut bytes, pieces.next().unwrap_or(""))?;
    Ok(bytes)
}

/// The bytes of all further pieces, joined.
pub fn take_bytes(alloc: Global, pieces: &mut Pieces<'_>) -> Result<Vec<u8>, NoAnswer> {
    let mut bytes = Vec::new(alloc);
    for piece in pieces {
        put_piece(alloc, &mut bytes, piece)?;
    }
    Ok(bytes)
}

/// The words that all further pieces are.
pub fn take_words(alloc: Global, pieces: &mut Pieces<'_>) -> Result<Vec<String>, NoAnswer> {
    let mut words = Vec::new(alloc);
    for piece in pieces {
        words.push(word_of(alloc, piece)?)?;
    }
    Ok(words)
}

fn word_of(alloc: Global, piece: &str) -> Result<String, NoAnswer> {
    let mut bytes = Vec::new(alloc);
    put_piece(alloc, &mut bytes, piece)?;
    String::from_utf8(bytes).or(Err(NoAnswer::NoSuchLine))
}
