//! Calls of texts, and of tables by texts.
use crate::line::TextCall;
use crate::text_faults::describe_read;
use batch_format::batch_bytes;
use line_pieces::{describe, word};
use plain_result::result;
use sql_text::{SqlFault, parse_batch, parse_query, parse_script, print_batch, print_query};
use std::alloc::{AllocError, Global};
use std::io;
use table_list::{ApplyFault, BatchFault, Tables, apply, apply_batch};
use vo_spec::Outcome;

/// The answer to a call of these bytes, which are to be a text.
pub fn answer(
    alloc: Global,
    tables: &mut Tables,
    call: TextCall,
    bytes: &[u8],
) -> io::Result<String> {
    match std::str::from_utf8(bytes) {
        Ok(text) => answer_call(alloc, tables, call, text),
        Err(_) => word(alloc, "no text"),
    }
}

fn answer_call(
    alloc: Global,
    tables: &mut Tables,
    call: TextCall,
    text: &str,
) -> io::Result<String> {
    match call {
        TextCall::Query => read_query(alloc, text),
        TextCall::Batch => read_batch(alloc, text),
        TextCall::Script => read_script(alloc, text),
        TextCall::Apply => describe_read(alloc, apply_script(alloc, tables, text)),
        TextCall::Step => describe_read(alloc, apply_each(alloc, tables, text)),
        TextCall::Result => result_of(alloc, tables, text),
        TextCall::PrintQuery => reprint_query(alloc, text),
        TextCall::PrintBatch => reprint_batch(alloc, text),
        TextCall::Bytes => batch_digits(alloc, text),
        TextCall::Count => describe_read(alloc, batch_count(alloc, text)),
        TextCall::Length => describe(alloc, &text.len()),
    }
}

fn read_query(alloc: Global, text: &str) -> io::Result<String> {
    describe_read(alloc, parse_query(alloc, text))
}

fn read_batch(alloc: Global, text: &str) -> io::Result<String> {
    describe_read(alloc, parse_batch(alloc, text))
}

fn read_script(alloc: Global, text: &str) -> io::Result<String> {
    describe_read(alloc, parse_script(alloc, text))
}

fn result_of(alloc: Global, tables: &Tables, text: &str) -> io::Result<String> {
    describe_read(alloc, query_result(alloc, tables, text))
}

/// The text that the query of a text is printed as.
fn reprint_query(alloc: Global, text: &str) -> io::Result<String> {
    match parse_query(alloc, text) {
        Ok(query) => {
            let printed = print_query(alloc, &query);
            drop(query);
            Ok(printed?)
        }
        Err(_) => word(alloc, "none"),
    }
}

/// The text that the batch of a text is printed as.
fn reprint_batch(alloc: Global, text: &str) -> io::Result<String> {
    match parse_batch(alloc, text) {
        Ok(batch) => {
            let printed = print_batch(alloc, &batch);
            drop(batch);
            Ok(printed?)
        }
        Err(_) => word(alloc, "none"),
    }
}

/// The bytes of the batch of a text, in hexadecimal.
fn batch_digits(alloc: Global, text: &str) -> io::Result<String> {
    match parse_batch(alloc, text) {
        Ok(batch) => digits(alloc, batch_bytes(alloc, &batch)),
        Err(_) => word(alloc, "none"),
    }
}

fn digits(alloc: Global, bytes: Result<Vec<u8>, AllocError>) -> io::Result<String> {
    Ok(hex::encode(alloc, bytes?)?)
}

/// How many batches a script has.
fn batch_count(alloc: Global, script: &str) -> Result<usize, SqlFault> {
    Ok(parse_script(alloc, script)?.len())
}

/// What becomes of each batch of a script.
fn apply_script(
    alloc: Global,
    tables: &mut Tables,
    script: &str,
) -> Result<Vec<Option<BatchFault>>, SqlFault> {
    let batches = parse_script(alloc, script)?;
    let mut faults = Vec::new(alloc);
    for batch in &batches {
        let fault = apply_batch(alloc, tables, batch).err();
        if faults.push(fault).is_err() {
            return Err(SqlFault::Memory);
        }
    }
    Ok(faults)
}

/// What becomes of each command of a batch, applied by itself.
fn apply_each(
    alloc: Global,
    tables: &mut Tables,
    text: &str,
) -> Result<Vec<Option<ApplyFault>>, SqlFault> {
    let batch = parse_batch(alloc, text)?;
    let mut faults = Vec::new(alloc);
    for command in batch.commands.as_slice() {
        let fault = apply(alloc, tables, command).err();
        if faults.push(fault).is_err() {
            return Err(SqlFault::Memory);
        }
    }
    Ok(faults)
}

/// What the query of a text gives on the tables.
fn query_result(alloc: Global, tables: &Tables, text: &str) -> Result<Outcome, SqlFault> {
    match parse_query(alloc, text) {
        Ok(query) => {
            let outcome = result(alloc, tables, &query);
            drop(query);
            outcome.or(Err(SqlFault::Memory))
        }
        Err(fault) => Err(fault),
    }
}
