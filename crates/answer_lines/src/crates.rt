//! The crates of lines, and the one whose turn it is.
use line_pieces::{call_named, word};
use std::alloc::Global;
use std::io;
use stored_tables::StoredTables;

/// Whose lines come.
#[derive(Clone, Copy)]
enum Turn {
    Nobody,
    Calls,
    Trees,
    Formats,
    Checks,
}

const TURNS: [(&str, Turn); 4] = [
    ("call_lines", Turn::Calls),
    ("tree_lines", Turn::Trees),
    ("format_lines", Turn::Formats),
    ("check_lines", Turn::Checks),
];

/// What the lines of each crate have left.
#[derive(Drop)]
pub struct Crates {
    turn: Turn,
    calls: call_lines::State,
    trees: StoredTables,
    formats: format_lines::State,
    checks: check_lines::State,
}

impl Crates {
    pub fn new(alloc: Global) -> Crates {
        Crates {
            turn: Turn::Nobody,
            calls: call_lines::State::new(alloc),
            trees: StoredTables::new(alloc),
            formats: format_lines::State::new(alloc),
            checks: check_lines::State::new(alloc),
        }
    }

    /// The answer to a line.
    pub fn answer(&mut self, rt: &HostRuntime, line: &str) -> io::Result<String> {
        match line.strip_prefix("with ") {
            Some(name) => self.give_turn(rt.alloc(), name),
            None => self.answer_by_turn(rt, line),
        }
    }

    fn give_turn(&mut self, alloc: Global, name: &str) -> io::Result<String> {
        self.turn = call_named(&TURNS, name).unwrap_or(Turn::Nobody);
        word(alloc, name)
    }

    fn answer_by_turn(&mut self, rt: &HostRuntime, line: &str) -> io::Result<String> {
        let alloc = rt.alloc();
        match self.turn {
            Turn::Nobody => word(alloc, "nobody's turn"),
            Turn::Calls => self.calls.answer(alloc, line),
            Turn::Trees => tree_lines::answer(alloc, &mut self.trees, line),
            Turn::Formats => format_lines::answer(alloc, &mut self.formats, line),
            Turn::Checks => check_lines::answer(rt, alloc, &mut self.checks, line),
        }
    }
}
