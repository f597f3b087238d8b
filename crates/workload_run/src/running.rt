//! The run of a workload, and the numbers that it comes to.
ghost use Rattle.std.specs.Prelude.{◌≡◌, ◌≤◌, ◌<◌, ◌^◌, [], length, slice_get, option_map, Some, IfOk, IsSome};
ghost use Rattle.std.specs.List.{AllByRecursion};
ghost use Rattle.std.specs.Option.{option_map_or};
ghost use Rattle.vo_spec.specs.Conditions.{FitsQuery, query_of};
ghost use Rattle.vo_spec.specs.Secret.{secret_leaves};
ghost use Rattle.vo_spec.specs.Tables.{tables_after};
ghost use Rattle.vo_laws.specs.Sealing.{AreAcceptedAfter};
ghost use Rattle.owner_state.specs.Sealing.{FitEach, commands_of};
ghost use Rattle.vo_gen.specs.Workload.{max_steps};
ghost use Rattle.workload_run.specs.Parties.{HasRoom, StandBehind};
ghost use Rattle.workload_run.specs.Running.{rows_given, workload_key, workload_summary};

use crate::asking::{Counts, ask_each};
use crate::committing::commit_each;
use crate::laws::workload_replies_fit;
use crate::parties::{Parties, begin};
use crate::readers::readers_of;
use lms_sign::SecretKey;
use owner_state::journal_bytes;
use std::alloc::{AllocError, Global};
use vo_gen::{generate, workloads_are_accepted};
use vo_spec::{Batch, Catalog, OtsType, QueryText, Record};
use vo_store::Store;

/// What a run comes to.
#[derive(Drop)]
pub struct Summary {
    /// The CREATE and the steps.
    pub commands: u64,
    /// The last version.
    pub version: u64,
    /// The table's rows at the last version.
    pub rows: u64,
    pub answers: u64,
    /// The rows of all answers.
    pub answer_rows: u64,
    /// The answers that the audit calls exact.
    pub exact: u64,
    /// The record of the last version.
    pub last: Record,
}

/// The owner's key.
#[tactic(auto, unfolding(crate::specs::Running::workload_key))]
fn workload_key(alloc: Global, number: u64) -> Result<SecretKey, AllocError>
    ensures { IfOk result (λ key. key ≡ workload_key number) }
{
    let mut seed = [0; 32];
    seed[..8].copy_from_slice(&number.to_le_bytes());
    SecretKey::make(alloc, [0; 16], seed, OtsType::W8, 10)
}

/// How many rows the first table has.
fn table_rows(catalog: &Catalog) -> u64
    ensures { result ≡ option_map_or (λ table. table.rows) (slice_get catalog.now.tables 0) 0 }
{
    match catalog.tables.as_slice().first() {
        Some(table) => table.rows,
        None => 0,
    }
}

/// The record that the store has installed.
fn last_record(store: &Store) -> Record
    requires { IsSome store.now.installed }
    ensures { option_map (λ installed. installed.rec) store.now.installed ≡ Some result }
{
    match store.standing() {
        Some(last) => last,
        None => unreachable!(),
    }
}

/// Parties that have committed batches, and what was counted of the replies to queries then.
#[derive(Drop)]
struct Run {
    parties: Parties,
    counts: Counts,
}

/// An owner that has roots alone commits the batches to a store, which answers the queries; one
/// client checks each reply, and the auditor audits it by the owner's journal.
fn commit_and_ask(
    alloc: Global,
    key: &SecretKey,
    batches: &[Batch],
    queries: &[QueryText],
) -> Result<Run, AllocError>
    requires fits { FitEach batches.now }
    requires accepted { AreAcceptedAfter [] (commands_of batches.now) }
    requires left { length batches.now < secret_leaves key.now }
    requires numbers { AllByRecursion (λ query. FitsQuery (query_of query)) queries.now }
    requires room { AllByRecursion (λ query.
        HasRoom (commands_of batches.now) (query_of query)) queries.now }
    requires few { length (rows_given (tables_after (commands_of batches.now)) queries.now)
        < 2 ^ 64 }
    ensures stand { IfOk result (λ run.
        StandBehind key.now (commands_of batches.now) run.parties) }
    ensures answers { IfOk result (λ run. run.counts.answers ≡ length queries.now) }
    ensures rows { IfOk result (λ run. run.counts.rows
        ≡ length (rows_given (tables_after (commands_of batches.now)) queries.now)) }
    ensures exact { IfOk result (λ run. run.counts.exact ≡ length queries.now) }
{
    let mut parties = begin(alloc, key)?;
    commit_each(alloc, &mut parties, batches)?;
    let journal = journal_bytes(alloc, parties.entries.as_slice())?;
    let version = parties.owner.roots().version;
    let mut readers = readers_of(alloc, key.public(), &journal, version)?;
    let counts = ask_each(alloc, &parties, &mut readers, queries)?;
    Ok(Run { parties, counts })
}

/// Runs the workload of so many steps that a number gives.
pub fn run_workload(alloc: Global, steps: u32, number: u64) -> Result<Summary, AllocError>
    requires some { 1 ≤ steps }
    requires most { steps ≤ max_steps }
    ensures { IfOk result (λ summary. summary ≡ workload_summary steps number) }
{
    workloads_are_accepted();
    workload_replies_fit();
    let work = generate(alloc, steps, number)?;
    let key = workload_key(alloc, number)?;
    let (batches, queries) = (work.batches.as_slice(), work.queries.as_slice());
    let run = commit_and_ask(alloc, &key, batches, queries)?;
    let roots = run.parties.owner.roots();
    Ok(Summary {
        commands: steps as u64 + 1,
        version: roots.version,
        rows: table_rows(&roots.catalog),
        answers: run.counts.answers,
        answer_rows: run.counts.rows,
        exact: run.counts.exact,
        last: last_record(&run.parties.store),
    })
}
