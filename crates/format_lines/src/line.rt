//! What a line asks for: a call, and its byte strings, made of digits and of the bytes kept last.
use crate::call::{Call, call_of};
use line_pieces::{NoAnswer, put_piece};
use std::alloc::Global;
use std::str::Split;

/// A call with the byte strings that it is asked of.
#[derive(Drop)]
pub struct Line {
    pub call: Call,
    pub strings: Vec<Vec<u8>>,
}

/// What a line asks, where these bytes were kept last.
pub fn read_line(alloc: Global, kept: &[u8], line: &str) -> Result<Line, NoAnswer> {
    let mut words = line.split(' ');
    let word = words.next().unwrap_or("");
    let call = call_of(word).ok_or(NoAnswer::NoSuchLine)?;
    let strings = strings_of(alloc, kept, words)?;
    Ok(Line { call, strings })
}

/// The byte strings that the words are, where these bytes were kept last.
pub fn strings_of(
    alloc: Global,
    kept: &[u8],
    words: Split<'_, char>,
) -> Result<Vec<Vec<u8>>, NoAnswer> {
    let mut strings = Vec::new(alloc);
    for word in words {
        strings.push(string_of(alloc, kept, word)?)?;
    }
    Ok(strings)
}

/// The byte string of pieces with a `+` between each two.
fn string_of(alloc: Global, kept: &[u8], pieces: &str) -> Result<Vec<u8>, NoAnswer> {
    let mut bytes = Vec::new(alloc);
    for piece in pieces.split('+') {
        match piece.split_once("..") {
            Some((from, to)) => bytes.extend_from_slice(kept_piece(kept, from, to)?)?,
            None => put_piece(alloc, &mut bytes, piece)?,
        }
    }
    Ok(bytes)
}

/// The kept bytes from one place up to another.
fn kept_piece<'b>(kept: &'b [u8], from: &str, to: &str) -> Result<&'b [u8], NoAnswer> {
    let from = parse_offset(from)?;
    let to = parse_offset(to)?;
    kept.get(from..to).ok_or(NoAnswer::NoSuchLine)
}

fn parse_offset(digits: &str) -> Result<usize, NoAnswer> {
    match digits.parse::<usize>() {
        Ok(place) => Ok(place),
        Err(_) => Err(NoAnswer::NoSuchLine),
    }
}
