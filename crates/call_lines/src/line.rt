//! What a line asks for: a call of texts, of bytes or of plans, and its byte strings.
use line_pieces::{NoAnswer, call_named, put_piece};
use std::alloc::Global;

/// The calls that are asked of a text.
#[derive(Clone, Copy)]
pub enum TextCall {
    Query,
    Batch,
    Script,
    PrintQuery,
    PrintBatch,
    Bytes,
    Apply,
    Step,
    Result,
    Count,
    Length,
}

/// The calls that are asked of bytes.
#[derive(Clone, Copy)]
pub enum BytesCall {
    Read,
    Value,
    Values,
    Key,
    KeyValue,
    Columns,
}

/// The calls that are asked of a query, on the tables of the catalog.
#[derive(Clone, Copy)]
pub enum PlanCall {
    Trees,
    LeftNeed,
    RightNeed,
    RightNeeds,
    Run,
}

#[derive(Clone, Copy)]
pub enum Call {
    Text(TextCall),
    Bytes(BytesCall),
    Plan(PlanCall),
    Catalog,
    Clear,
}

/// The calls by their words.
const CALLS: [(&str, Call); 24] = [
    ("query", Call::Text(TextCall::Query)),
    ("batch", Call::Text(TextCall::Batch)),
    ("script", Call::Text(TextCall::Script)),
    ("print_query", Call::Text(TextCall::PrintQuery)),
    ("print_batch", Call::Text(TextCall::PrintBatch)),
    ("bytes", Call::Text(TextCall::Bytes)),
    ("apply", Call::Text(TextCall::Apply)),
    ("step", Call::Text(TextCall::Step)),
    ("result", Call::Text(TextCall::Result)),
    ("count", Call::Text(TextCall::Count)),
    ("length", Call::Text(TextCall::Length)),
    ("read", Call::Bytes(BytesCall::Read)),
    ("value", Call::Bytes(BytesCall::Value)),
    ("values", Call::Bytes(BytesCall::Values)),
    ("key", Call::Bytes(BytesCall::Key)),
    ("key_value", Call::Bytes(BytesCall::KeyValue)),
    ("columns", Call::Bytes(BytesCall::Columns)),
    ("trees", Call::Plan(PlanCall::Trees)),
    ("left_need", Call::Plan(PlanCall::LeftNeed)),
    ("right_need", Call::Plan(PlanCall::RightNeed)),
    ("right_needs", Call::Plan(PlanCall::RightNeeds)),
    ("run", Call::Plan(PlanCall::Run)),
    ("catalog", Call::Catalog),
    ("clear", Call::Clear),
];

/// A call with its byte strings, the second of which most calls leave empty.
#[derive(Drop)]
pub struct Line {
    pub call: Call,
    pub bytes: Vec<u8>,
    pub more: Vec<u8>,
}

/// What a line asks.
pub fn read_line(alloc: Global, line: &str) -> Result<Line, NoAnswer> {
    let (word, digits) = line.split_once(' ').unwrap_or((line, ""));
    let (bytes, more) = digits.split_once('/').unwrap_or((digits, ""));
    Ok(Line {
        call: call_named(&CALLS, word).ok_or(NoAnswer::NoSuchLine)?,
        bytes: bytes_of(alloc, bytes)?,
        more: bytes_of(alloc, more)?,
    })
}

/// The bytes of pieces with a blank between each two.
fn bytes_of(alloc: Global, pieces: &str) -> Result<Vec<u8>, NoAnswer> {
    let mut bytes = Vec::new(alloc);
    for piece in pieces.split(' ') {
        put_piece(alloc, &mut bytes, piece)?;
    }
    Ok(bytes)
}
