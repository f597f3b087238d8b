//! What a line asks for: a call of tables, of a tree or of a part tree, and its byte strings.
use line_pieces::call_named;
use std::alloc::Global;
use std::io;

/// The calls that a line can ask for.
#[derive(Clone, Copy)]
pub enum Call {
    Clear,
    Apply,
    Step,
    Refusal,
    Proof,
    Catalog,
    Rows,
    Root,
    Change,
    Prove,
    Prune,
    Agree,
    Work,
    After,
    Judge,
    Scan,
    Canonical,
    Digest,
    Preimage,
    Read,
    Same,
    Walks,
    Twins,
    Counted,
}

/// The calls by their words.
const CALLS: [(&str, Call); 24] = [
    ("clear", Call::Clear),
    ("apply", Call::Apply),
    ("step", Call::Step),
    ("refusal", Call::Refusal),
    ("proof", Call::Proof),
    ("catalog", Call::Catalog),
    ("rows", Call::Rows),
    ("root", Call::Root),
    ("change", Call::Change),
    ("prove", Call::Prove),
    ("prune", Call::Prune),
    ("agree", Call::Agree),
    ("work", Call::Work),
    ("after", Call::After),
    ("judge", Call::Judge),
    ("scan", Call::Scan),
    ("canonical", Call::Canonical),
    ("digest", Call::Digest),
    ("preimage", Call::Preimage),
    ("read", Call::Read),
    ("same", Call::Same),
    ("walks", Call::Walks),
    ("twins", Call::Twins),
    ("counted", Call::Counted),
];

/// A call with its byte strings, which are empty where the line has none.
#[derive(Drop)]
pub struct Line {
    pub call: Call,
    pub first: Vec<u8>,
    pub second: Vec<u8>,
}

/// What a line asks for, or none where it is no such line.
pub fn read_line(alloc: Global, line: &str) -> io::Result<Option<Line>> {
    let (word, digits) = line.split_once(' ').unwrap_or((line, ""));
    let (first, second) = digits.split_once(' ').unwrap_or((digits, ""));
    let Some(call) = call_named(&CALLS, word) else {
        return Ok(None);
    };
    let Ok(first) = hex::decode(alloc, first) else {
        return Ok(None);
    };
    let Ok(second) = hex::decode(alloc, second) else {
        return Ok(None);
    };
    Ok(Some(Line {
        call,
        first,
        second,
    }))
}
