//! `serve`: the store of a journal, over a network.
ghost use Rattle.std.specs.Prelude.{◌≡◌, ◌≢◌, ◌⊎◌, ℕ, ◌≤◌, [], ◌∷◌, length, Some, IfErr, IfOk, IfSome};
ghost use Rattle.std.specs.List.{AllByRecursion};
ghost use Rattle.outside.specs.ConnectionModel.{ConnectionModel};
ghost use Rattle.outside.specs.FaultRose.{FaultRose};
ghost use Rattle.outside.specs.Outputs.{Writes};
ghost use Rattle.vo_spec.specs.Journals.{FitsEntry};
ghost use Rattle.vo_spec.specs.Owners.{AreLoadable};
ghost use Rattle.vo_store.specs.Loading.{store_behind};
ghost use Rattle.vo_commands.specs.Expected.{Anything, journal_limit, with_file, with_key};
ghost use Rattle.vo_commands.specs.Serving.{FailsToListen, IsServedFrom, Loads, LoadsStore, ServeEnds, StopsLoading, served_output, service_expected};
ghost use Rattle.vo_commands.specs.Reports.{StaysInside};
ghost use Rattle.vo_commands.specs.Taking.{TakesFiles, LeavesFiles, Along};

use crate::files::{take_file, take_key};
use crate::limits::JOURNAL_LIMIT;
use crate::lines::words_line;
use crate::output::print_outcome;
use crate::piece::Word;
use crate::refusals::bad_entry;
use crate::report::Stop;
use cli_args::Service;
use lms_sign::PublicKey;
use outside::{Net, Shelf, Sink, write_output};
use owner_state::{Ending, LentEntry, read_slots};
use std::alloc::{AllocError, Global};
use vo_store::{LoadFault, Store};
use vo_wire::{ServeFault, serve_all};

/// Serves connections with a store that has loaded the journal; a line is written as each ends, and
/// one behind them. Returns the exit status.
pub fn serve<F: Shelf, N: Net, S: Sink>(
    alloc: Global,
    files: &mut F,
    net: &mut N,
    out: &mut S,
    service: &Service<'_>,
) -> u8
    ensures ends { IfSome (F.contents files.old) (λ known.
        ServeEnds (service_expected service.now.key.now service.now.journal.now service.now.count
        known)
        (FaultRose (F.faults files.old) (F.faults files.new)
        ⊎ FaultRose (N.faults net.old) (N.faults net.new))
        (FaultRose (S.faults out.old) (S.faults out.new)) result
        (N.faults net.old) (N.faults net.new) (N.wire net.old) (N.wire net.new)
        (S.written out.old) (S.written out.new)) }
    ensures files { LeavesFiles F.contents F.faults F.misses
        (Along (λ known. with_key known service.now.key.now (λ _.
        with_file known service.now.journal.now journal_limit (λ _. Anything)))) files.old
        files.new }

    ensures outside { result ≡ 3
        → FaultRose (F.faults files.old) (F.faults files.new)
        ⊎ FaultRose (N.faults net.old) (N.faults net.new)
        ⊎ FaultRose (S.faults out.old) (S.faults out.new) }
    ensures quiet { result ≢ 3 → result ≢ 4 → (F.faults files.new ≡ F.faults files.old)
        × (S.faults out.new ≡ S.faults out.old) }
    ensures net_misses { (before : ConnectionModel) → N.wire net.old ≡ Some before
        → service.now.count ≤ length before.queue → N.misses net.new ≡ N.misses net.old }
{
    match load_store(alloc, files, service.key, service.journal) {
        Ok(mut store) => {
            let status = serve_store(alloc, &mut store, net, out, service.address, service.count);
            drop(store);
            status
        }
        Err(stop) => print_outcome(out, Err(stop)),
    }
}

/// A store that has loaded the journal in a file.
fn load_store<F: Shelf>(
    alloc: Global,
    files: &mut F,
    key: &str,
    journal: &str,
) -> Result<Store, Stop>
    ensures known { (count : ℕ) → IfSome (F.contents files.old)
        (λ known. Loads (service_expected key.now journal.now count known) count result) }
    ensures files { TakesFiles F.contents F.faults F.misses (Along (λ known.
        with_key known key.now (λ _. with_file known journal.now journal_limit
        (λ _. Anything)))) files.old files.new result }
{
    let key = take_key(alloc, files, key)?;
    let journal = take_file(alloc, files, journal, JOURNAL_LIMIT)?;
    store_of(alloc, key, &journal)
}

/// The store of a journal; one without entries has an empty store.
fn store_of(alloc: Global, key: PublicKey, journal: &[u8]) -> Result<Store, Stop>
    ensures known { LoadsStore key journal.now result }
    ensures inside { StaysInside result }
{
    let slots = read_slots(alloc, journal)?;
    let loaded = load_entries(alloc, key, slots.entries.as_slice());
    let count = slots.entries.len() as u64;
    let ending = slots.ending;
    drop(slots);
    match loaded {
        Ok(store) => match ending {
            Ending::Closed { .. } => Ok(store),
            Ending::Damaged { .. } => {
                drop(store);
                Err(Stop::Refused(bad_entry(alloc, count)?))
            }
        },
        Err(stop) => Err(stop),
    }
}

/// A store that has taken these entries.
fn load_entries(alloc: Global, key: PublicKey, entries: &[LentEntry<'_>]) -> Result<Store, Stop>
    requires { AllByRecursion FitsEntry entries.now }
    ensures taken { IfOk result (λ _. AreLoadable key entries.now) }
    ensures state { IfOk result (λ store. store ≡ store_behind key entries.now) }
    ensures stopped { IfErr result (StopsLoading key entries.now) }
{
    match Store::load(alloc, key, entries) {
        Ok(store) => Ok(store),
        Err(LoadFault::Entry { index }) => Err(Stop::Refused(bad_entry(alloc, index)?)),
        Err(LoadFault::Memory) => Err(Stop::Memory),
    }
}

/// Serves so many connections at this address.
fn serve_store<N: Net, S: Sink>(
    alloc: Global,
    store: &mut Store,
    net: &mut N,
    out: &mut S,
    address: &str,
    count: u32,
) -> u8
    ensures ends { FailsToListen (FaultRose (N.faults net.old) (N.faults net.new))
        (FaultRose (S.faults out.old) (S.faults out.new)) result
        (N.wire net.old) (N.wire net.new) (S.written out.old) (S.written out.new)
        ⊎ IsServedFrom store.old count (FaultRose (N.faults net.old) (N.faults net.new))
        (FaultRose (S.faults out.old) (S.faults out.new)) result
        (N.faults net.old) (N.faults net.new) (N.wire net.old) (N.wire net.new)
        (S.written out.old) (S.written out.new) }

    ensures outside { result ≡ 3 → FaultRose (N.faults net.old) (N.faults net.new)
        ⊎ FaultRose (S.faults out.old) (S.faults out.new) }
    ensures quiet { result ≢ 3 → result ≢ 4 → S.faults out.new ≡ S.faults out.old }
    ensures misses { (before : ConnectionModel) → N.wire net.old ≡ Some before
        → count ≤ length before.queue → N.misses net.new ≡ N.misses net.old }
{
    match net.listen(address, store.version()) {
        Ok(()) => serve_connections(alloc, store, net, out, count),
        Err(_) => write_output(out, 3, b"fault: outside\n"),
    }
}

fn serve_connections<N: Net, S: Sink>(
    alloc: Global,
    store: &mut Store,
    net: &mut N,
    out: &mut S,
    count: u32,
) -> u8
    ensures ends { IsServedFrom store.old count (FaultRose (N.faults net.old) (N.faults net.new))
        (FaultRose (S.faults out.old) (S.faults out.new)) result
        (N.faults net.old) (N.faults net.new) (N.wire net.old) (N.wire net.new)
        (S.written out.old) (S.written out.new) }

    ensures counts { N.faults net.old ≤ N.faults net.new }
    ensures outside { result ≡ 3 → FaultRose (N.faults net.old) (N.faults net.new)
        ⊎ FaultRose (S.faults out.old) (S.faults out.new) }
    ensures quiet { result ≢ 3 → result ≢ 4 → S.faults out.new ≡ S.faults out.old }
    ensures misses { (before : ConnectionModel) → N.wire net.old ≡ Some before
        → count ≤ length before.queue → N.misses net.new ≡ N.misses net.old }
{
    match serve_all(alloc, store, net, out, count) {
        Ok(()) => write_served(alloc, out, count),
        Err(ServeFault::Network) => write_output(out, 3, b"fault: outside\n"),
        Err(ServeFault::Output) => 3,
        Err(ServeFault::Memory) => 4,
    }
}

/// Writes the last line.
fn write_served<S: Sink>(alloc: Global, out: &mut S, count: u32) -> u8
    ensures wrote { Writes (served_output count) (FaultRose (S.faults out.old) (S.faults out.new))
        result (S.written out.old) (S.written out.new) }
    ensures outside { result ≡ 3 → FaultRose (S.faults out.old) (S.faults out.new) }
    ensures quiet { result ≢ 3 → S.faults out.new ≡ S.faults out.old }
{
    match served_line(alloc, count) {
        Ok(line) => write_output(out, 0, &line),
        Err(_) => 4,
    }
}

fn served_line(alloc: Global, count: u32) -> Result<Vec<u8>, AllocError>
    ensures { IfOk result (λ line. line.items ≡ (served_output count).bytes) }
{
    words_line(alloc, &[Word::Phrase("served"), Word::Number(count as u64)])
}
