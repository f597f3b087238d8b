//! The answer to each line, by what the lines before it left.
use crate::line::{Call, Line, read_line};
use crate::{byte_strings, plans, texts};
use line_pieces::describe;
use std::alloc::Global;
use std::io;
use table_list::Tables;
use version_record::read_catalog;
use vo_spec::{Catalog, List};

/// What lines leave to those after them: tables, and a catalog.
#[derive(Drop)]
pub struct State {
    tables: Tables,
    catalog: Catalog,
}

impl State {
    /// No tables, and a catalog of none.
    pub fn new(alloc: Global) -> State {
        State {
            tables: Tables::new(alloc),
            catalog: Catalog {
                tables: List::new(alloc),
            },
        }
    }

    /// The answer to a line.
    pub fn answer(&mut self, alloc: Global, line: &str) -> io::Result<String> {
        match read_line(alloc, line) {
            Ok(line) => self.answer_call(alloc, &line),
            Err(fault) => Ok(format!(in alloc; "{fault}")?),
        }
    }

    fn answer_call(&mut self, alloc: Global, line: &Line) -> io::Result<String> {
        match line.call {
            Call::Text(call) => texts::answer(alloc, &mut self.tables, call, &line.bytes),
            Call::Bytes(call) => byte_strings::answer(alloc, call, &line.bytes),
            Call::Plan(call) => plans::answer(alloc, &self.catalog, call, &line.bytes, &line.more),
            Call::Catalog => self.keep_catalog(alloc, &line.bytes),
            Call::Clear => {
                *self = State::new(alloc);
                Ok("cleared".to_string(alloc)?)
            }
        }
    }

    /// How many tables the catalog of these bytes has, which is kept.
    fn keep_catalog(&mut self, alloc: Global, bytes: &[u8]) -> io::Result<String> {
        match read_catalog(alloc, bytes) {
            Ok(catalog) => {
                self.catalog = catalog;
                Ok(format!(in alloc; "{}", self.catalog.tables.len())?)
            }
            Err(fault) => describe(alloc, &fault),
        }
    }
}
