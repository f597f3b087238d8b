//! What is asked of the tables.
ghost use Rattle.std.specs.Prelude.{IfOk};
ghost use Rattle.vo_spec.specs.Batches.{FitsBatch, FitsCommand};

use crate::answers::{digits, tree_digits};
use batch_format::read_batch;
use line_pieces::{describe, word};
use std::alloc::{AllocError, Global};
use std::{io, mem};
use stored_tables::StoredTables;
use table_list::ApplyFault;
use vo_spec::{Batch, Catalog, Command, CommandFault, Table};

/// Has no tables from now on.
pub fn clear(alloc: Global, tables: &mut StoredTables) -> io::Result<String> {
    drop(mem::replace(tables, StoredTables::new(alloc)));
    word(alloc, "cleared")
}

/// The digest of the table `t` after a batch, or why the batch is refused.
pub fn apply_batch(alloc: Global, tables: &mut StoredTables, batch: &[u8]) -> io::Result<String> {
    match read_batch(alloc, batch) {
        Ok(batch) => {
            let answer = apply_batch_to(alloc, tables, &batch);
            drop(batch);
            answer
        }
        Err(fault) => describe(alloc, &fault),
    }
}

fn apply_batch_to(alloc: Global, tables: &mut StoredTables, batch: &Batch) -> io::Result<String>
    requires { FitsBatch batch.now.commands }
{
    if let Err(fault) = tables.apply_batch(alloc, batch) {
        return describe(alloc, &fault);
    }
    match tables.find(b"t") {
        Some(table) => digits(alloc, table.tree.node_digest()),
        None => word(alloc, "no table"),
    }
}

/// Why each command of a batch is refused, or that it is applied, by itself.
pub fn step_batch(alloc: Global, tables: &mut StoredTables, batch: &[u8]) -> io::Result<String> {
    match read_batch(alloc, batch) {
        Ok(batch) => {
            let faults = apply_each(alloc, tables, batch.commands.as_slice());
            drop(batch);
            describe(alloc, &faults?)
        }
        Err(fault) => describe(alloc, &fault),
    }
}

fn apply_each(
    alloc: Global,
    tables: &mut StoredTables,
    commands: &[Command],
) -> Result<Vec<Option<ApplyFault>>, AllocError>
    requires { FitsBatch commands.now }
{
    let mut faults = Vec::new(alloc);
    for command in commands {
        faults.push(apply_one(alloc, tables, command))?;
    }
    Ok(faults)
}

/// Why a command is refused, if it is.
fn apply_one(alloc: Global, tables: &mut StoredTables, command: &Command) -> Option<ApplyFault>
    requires { FitsCommand command.now }
{
    match tables.apply(alloc, command) {
        Ok(next) => {
            drop(mem::replace(tables, next));
            None
        }
        Err(fault) => Some(fault),
    }
}

/// Why each command of a batch is refused on the tables as they are, without a look at the rows.
pub fn refusals(alloc: Global, tables: &StoredTables, batch: &[u8]) -> io::Result<String> {
    match read_batch(alloc, batch) {
        Ok(batch) => {
            let faults = refusals_of(alloc, tables, batch.commands.as_slice());
            drop(batch);
            describe(alloc, &faults?)
        }
        Err(fault) => describe(alloc, &fault),
    }
}

fn refusals_of(
    alloc: Global,
    tables: &StoredTables,
    commands: &[Command],
) -> Result<Vec<Option<CommandFault>>, AllocError> {
    let mut faults = Vec::new(alloc);
    for command in commands {
        faults.push(tables.refusal(command))?;
    }
    Ok(faults)
}

/// The proof of a batch's one command, if it has one.
pub fn proof_of(alloc: Global, tables: &StoredTables, batch: &[u8]) -> io::Result<String> {
    match read_batch(alloc, batch) {
        Ok(batch) => {
            let answer = proof_of_one(alloc, tables, batch.commands.as_slice());
            drop(batch);
            answer
        }
        Err(fault) => describe(alloc, &fault),
    }
}

fn proof_of_one(alloc: Global, tables: &StoredTables, commands: &[Command]) -> io::Result<String>
    requires { FitsBatch commands.now }
{
    let [command] = commands else {
        return word(alloc, "not one command");
    };
    match tables.command_proof(alloc, command)? {
        Some(proof) => tree_digits(alloc, proof),
        None => word(alloc, "none"),
    }
}

/// The name, the number of rows and the root of each table, as they stay where the tables are
/// shared.
pub fn catalog_of(alloc: Global, tables: &StoredTables) -> io::Result<String> {
    let shared = tables.share(alloc)?;
    let catalog = shared.catalog(alloc);
    drop(shared);
    describe_catalog(alloc, catalog?)
}

fn describe_catalog(alloc: Global, catalog: Catalog) -> io::Result<String> {
    let answer = describe(alloc, &catalog.tables);
    drop(catalog);
    answer
}

/// The rows of the plain table `t`.
pub fn rows_of(alloc: Global, tables: &StoredTables) -> io::Result<String> {
    let plain = tables.tables(alloc)?;
    let answer = describe_rows(alloc, plain.as_slice());
    drop(plain);
    answer
}

fn describe_rows(alloc: Global, tables: &[Table]) -> io::Result<String> {
    for table in tables {
        if table.name.as_bytes() == b"t".as_slice() {
            return describe(alloc, &table.rows);
        }
    }
    word(alloc, "no table")
}
