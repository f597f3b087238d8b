//! `own`: the owner of a key commits the batches of a script with a store, over a network.
ghost use Rattle.std.specs.Prelude.{◌≡◌, ◌≢◌, ◌⊎◌, ◌≤◌, ◌∷◌, [], length, All, Some, IfOk, IfSome};
ghost use Rattle.outside.specs.ConnectionModel.{ConnectionModel};
ghost use Rattle.outside.specs.FaultRose.{FaultRose};
ghost use Rattle.link_frames.specs.Reading.{StaysWhereItStands};
ghost use Rattle.vo_spec.specs.Batches.{FitsBatch};
ghost use Rattle.vo_spec.specs.Secret.{Secret};
ghost use Rattle.owner_state.specs.Stepping.{AreStepsTo};
ghost use Rattle.owner_journal.specs.Entries.{entries_of};
ghost use Rattle.owner_journal.specs.Resting.{IsAtRest};
ghost use Rattle.cli_args.specs.Shapes.{plain_shape};
ghost use Rattle.vo_commands.specs.Expected.{script_limit, with_file, Anything, with_seed};
ghost use Rattle.vo_commands.specs.Committing.{CanGoOn};
ghost use Rattle.vo_commands.specs.Owning.{CommitsFrom, CommitsNothing, CommitsOnline, CommitsOver, OwnEnds, Prepares, commitment_expected, commitment_in};
ghost use Rattle.vo_commands.specs.Reports.{StaysInside};
ghost use Rattle.vo_commands.specs.Taking.{TakesFiles, LeavesFiles, One, Along};

use crate::files::{take_file, take_seed};
use crate::journal_owner::{JournalOwner, LentDisk};
use crate::limits::SCRIPT_LIMIT;
use crate::output::print_outcome;
use crate::owner_opening::{OpenedJournal, open_owner};
use crate::report::Stop;
use crate::texts::{batches_in, text_in};
use cli_args::Commitment;
use lms_sign::SecretKey;
use outside::{Disk, Net, Shelf, Sink, write_output};
use owner_session::run_session;
use std::alloc::Global;
use std::marker::{Brand, PhantomData};
use vo_spec::Batch;
use vo_wire::Loan;

/// Opens the owner's journal on the disk, gives the store at the address what it lacks of it, and
/// commits the script's batches; a line is written as each is installed. Returns the exit status.
pub fn own<F: Shelf, D: Disk, N: Net, S: Sink>(
    alloc: Global,
    files: &mut F,
    disk: &mut D,
    net: &mut N,
    out: &mut S,
    commitment: &Commitment<'_>,
) -> u8
    ensures ends { IfSome (F.contents files.old) (λ known. OwnEnds (commitment_expected commitment.now.seed.now commitment.now.script.now
        (plain_shape commitment.now.shape) known)
        (FaultRose (F.faults files.old) (F.faults files.new))
        (FaultRose (N.faults net.old) (N.faults net.new))
        (FaultRose (D.faults disk.old) (D.faults disk.new))
        (FaultRose (S.faults out.old) (S.faults out.new)) result
        (D.drive disk.old) (D.drive disk.new) (N.wire net.old) (N.wire net.new)
        (S.written out.old) (S.written out.new)) }
    ensures files { LeavesFiles F.contents F.faults F.misses
        (Along (λ known. with_seed known commitment.now.seed.now (plain_shape commitment.now.shape)
        (λ _. with_file known commitment.now.script.now script_limit (λ _. Anything)))) files.old
        files.new }
    ensures refused { IfSome (F.contents files.old) (λ known. CommitsNothing (commitment_expected commitment.now.seed.now commitment.now.script.now
        (plain_shape commitment.now.shape) known)
        → (disk.new ≡ disk.old) × (net.new ≡ net.old)) }

    ensures outside { result ≡ 3
        → FaultRose (F.faults files.old) (F.faults files.new)
        ⊎ FaultRose (N.faults net.old) (N.faults net.new)
        ⊎ FaultRose (D.faults disk.old) (D.faults disk.new)
        ⊎ FaultRose (S.faults out.old) (S.faults out.new) }
    ensures quiet { result ≢ 3 → result ≢ 4 → (F.faults files.new ≡ F.faults files.old)
        × (N.faults net.new ≡ N.faults net.old) × (D.faults disk.new ≡ D.faults disk.old)
        × (S.faults out.new ≡ S.faults out.old) }
    ensures net_misses { (before : ConnectionModel) → N.wire net.old ≡ Some before
        → 1 ≤ length before.queue → N.misses net.new ≡ N.misses net.old }
{
    match take_seed(alloc, files, commitment.seed, commitment.shape) {
        Ok(key) => own_with_key(alloc, &key, files, disk, net, out, commitment),
        Err(stop) => print_outcome(out, Err(stop)),
    }
}

/// The same by the owner's key.
fn own_with_key<F: Shelf, D: Disk, N: Net, S: Sink>(
    alloc: Global,
    key: &SecretKey,
    files: &mut F,
    disk: &mut D,
    net: &mut N,
    out: &mut S,
    commitment: &Commitment<'_>,
) -> u8
    ensures ends { IfSome (F.contents files.old) (λ known. OwnEnds (with_file known commitment.now.script.now script_limit (commitment_in key.now))
        (FaultRose (F.faults files.old) (F.faults files.new))
        (FaultRose (N.faults net.old) (N.faults net.new))
        (FaultRose (D.faults disk.old) (D.faults disk.new))
        (FaultRose (S.faults out.old) (S.faults out.new)) result
        (D.drive disk.old) (D.drive disk.new) (N.wire net.old) (N.wire net.new)
        (S.written out.old) (S.written out.new)) }
    ensures files { LeavesFiles F.contents F.faults F.misses (One commitment.now.script.now)
        files.old files.new }
    ensures refused { IfSome (F.contents files.old) (λ known.
        CommitsNothing (with_file known commitment.now.script.now script_limit (commitment_in key.now))
        → (disk.new ≡ disk.old) × (net.new ≡ net.old)) }

    ensures outside { result ≡ 3
        → FaultRose (F.faults files.old) (F.faults files.new)
        ⊎ FaultRose (N.faults net.old) (N.faults net.new)
        ⊎ FaultRose (D.faults disk.old) (D.faults disk.new)
        ⊎ FaultRose (S.faults out.old) (S.faults out.new) }
    ensures quiet { result ≢ 3 → result ≢ 4 → (F.faults files.new ≡ F.faults files.old)
        × (N.faults net.new ≡ N.faults net.old) × (D.faults disk.new ≡ D.faults disk.old)
        × (S.faults out.new ≡ S.faults out.old) }
    ensures net_misses { (before : ConnectionModel) → N.wire net.old ≡ Some before
        → 1 ≤ length before.queue → N.misses net.new ≡ N.misses net.old }
{
    match take_batches(alloc, files, commitment.script) {
        Ok(batches) => {
            let status = commit(alloc, key, &batches, disk, net, out, commitment.address);
            drop(batches);
            status
        }
        Err(stop) => print_outcome(out, Err(stop)),
    }
}

/// The batches of the script in a file.
fn take_batches<F: Shelf>(alloc: Global, files: &mut F, script: &str) -> Result<Vec<Batch>, Stop>
    ensures known { IfSome (F.contents files.old) (λ known. (secret : Secret)
        → Prepares (with_file known script.now script_limit (commitment_in secret)) secret result) }
    ensures fit { IfOk result (λ batches. All (λ batch. FitsBatch batch.commands) batches.items) }
    ensures files { TakesFiles F.contents F.faults F.misses (One script.now) files.old files.new
        result }
{
    let bytes = take_file(alloc, files, script, SCRIPT_LIMIT)?;
    script_batches(alloc, &bytes)
}

/// The batches of the script that the bytes are.
fn script_batches(alloc: Global, script: &[u8]) -> Result<Vec<Batch>, Stop>
    ensures known { (secret : Secret) → Prepares (commitment_in secret script.now) secret result }
    ensures fit { IfOk result (λ batches. All (λ batch. FitsBatch batch.commands) batches.items) }
    ensures inside { StaysInside result }
{
    match text_in(alloc, script) {
        Ok(text) => batches_in(alloc, text),
        Err(stop) => Err(stop),
    }
}

/// Commits the batches behind the journal on the disk.
fn commit<D: Disk, N: Net, S: Sink>(
    alloc: Global,
    key: &SecretKey,
    batches: &[Batch],
    disk: &mut D,
    net: &mut N,
    out: &mut S,
    address: &str,
) -> u8
    requires { All (λ batch. FitsBatch batch.commands) batches.now }
    ensures ends { CommitsFrom key.now batches.now (FaultRose (N.faults net.old) (N.faults net.new))
        (FaultRose (D.faults disk.old) (D.faults disk.new))
        (FaultRose (S.faults out.old) (S.faults out.new)) result
        (D.drive disk.old) (D.drive disk.new) (N.wire net.old) (N.wire net.new)
        (S.written out.old) (S.written out.new) }

    ensures outside { result ≡ 3
        → FaultRose (N.faults net.old) (N.faults net.new)
        ⊎ FaultRose (D.faults disk.old) (D.faults disk.new)
        ⊎ FaultRose (S.faults out.old) (S.faults out.new) }
    ensures quiet { result ≢ 3 → result ≢ 4 → (N.faults net.new ≡ N.faults net.old)
        × (D.faults disk.new ≡ D.faults disk.old) × (S.faults out.new ≡ S.faults out.old) }
    ensures misses { (before : ConnectionModel) → N.wire net.old ≡ Some before
        → 1 ≤ length before.queue → N.misses net.new ≡ N.misses net.old }
{
    match open_owner(alloc, key, disk) {
        Ok(opened) => connect_and_commit(alloc, opened, batches, disk, net, out, address),
        Err(stop) => print_outcome(out, Err(stop)),
    }
}

/// The same of an owner behind its journal.
fn connect_and_commit<D: Disk, N: Net, S: Sink>(
    alloc: Global,
    opened: OpenedJournal,
    batches: &[Batch],
    disk: &mut D,
    net: &mut N,
    out: &mut S,
    address: &str,
) -> u8
    requires batches { All (λ batch. FitsBatch batch.commands) batches.now }
    requires can_go_on { CanGoOn opened.journal }
    requires steps { AreStepsTo opened.owner.key (entries_of opened.journal) opened.owner.roots }
    requires at_rest { IfSome (D.drive disk.old) (IsAtRest (entries_of opened.journal)) }
    ensures ends { (before : ConnectionModel) → N.wire net.old ≡ Some before
        → CommitsOnline batches.now (FaultRose (N.faults net.old) (N.faults net.new))
        (FaultRose (D.faults disk.old) (D.faults disk.new))
        (FaultRose (S.faults out.old) (S.faults out.new)) result opened.owner
        (entries_of opened.journal) (D.drive disk.new) before (N.wire net.new)
        (S.written out.old) (S.written out.new) }

    ensures disk_counts { D.faults disk.old ≤ D.faults disk.new }
    ensures outside { result ≡ 3
        → FaultRose (N.faults net.old) (N.faults net.new)
        ⊎ FaultRose (D.faults disk.old) (D.faults disk.new)
        ⊎ FaultRose (S.faults out.old) (S.faults out.new) }
    ensures quiet { result ≢ 3 → result ≢ 4 → (N.faults net.new ≡ N.faults net.old)
        × (D.faults disk.new ≡ D.faults disk.old) × (S.faults out.new ≡ S.faults out.old) }
    ensures misses { (before : ConnectionModel) → N.wire net.old ≡ Some before
        → 1 ≤ length before.queue → N.misses net.new ≡ N.misses net.old }
{
    match net.connect(address) {
        Ok(()) => hold_session(alloc, opened, batches, disk, net, out),
        Err(_) => write_output(out, 3, b"fault: outside\n"),
    }
}

/// A session over the connection that stands.
fn hold_session<D: Disk, N: Net, S: Sink>(
    alloc: Global,
    opened: OpenedJournal,
    batches: &[Batch],
    disk: &mut D,
    net: &mut N,
    out: &mut S,
) -> u8
    requires batches { All (λ batch. FitsBatch batch.commands) batches.now }
    requires can_go_on { CanGoOn opened.journal }
    requires steps { AreStepsTo opened.owner.key (entries_of opened.journal) opened.owner.roots }
    requires at_rest { IfSome (D.drive disk.old) (IsAtRest (entries_of opened.journal)) }
    ensures commits { CommitsOver batches.now (FaultRose (N.faults net.old) (N.faults net.new))
        (FaultRose (D.faults disk.old) (D.faults disk.new))
        (FaultRose (S.faults out.old) (S.faults out.new)) result opened.owner
        (entries_of opened.journal) (D.drive disk.new) (N.wire net.old) (N.wire net.new)
        (S.written out.old) (S.written out.new) }

    ensures disk_counts { D.faults disk.old ≤ D.faults disk.new }
    ensures counts { N.faults net.old ≤ N.faults net.new }
    ensures outside { result ≡ 3
        → FaultRose (N.faults net.old) (N.faults net.new)
        ⊎ FaultRose (D.faults disk.old) (D.faults disk.new)
        ⊎ FaultRose (S.faults out.old) (S.faults out.new) }
    ensures quiet { result ≢ 3 → result ≢ 4 → (N.faults net.new ≡ N.faults net.old)
        × (D.faults disk.new ≡ D.faults disk.old) × (S.faults out.new ≡ S.faults out.old) }
    ensures misses { StaysWhereItStands (N.wire net.old) (N.misses net.old) (N.misses net.new) }
{
    let lent = LentDisk { disk };
    let (_, status) = hold_session_on_lent_disk::<Brand, D, N, S>(
        alloc, opened, lent, batches, net, out,
    );
    status
}

/// The same on a disk that is lent, which is given back.
fn hold_session_on_lent_disk<'a, K: Loan, D: Disk, N: Net, S: Sink>(
    alloc: Global,
    opened: OpenedJournal,
    lent: LentDisk<'a, D>,
    batches: &[Batch],
    net: &mut N,
    out: &mut S,
) -> (LentDisk<'a, D>, u8)
    requires loan { lent.disk.ghost_name ≡ K.name }
    requires batches { All (λ batch. FitsBatch batch.commands) batches.now }
    requires can_go_on { CanGoOn opened.journal }
    requires steps { AreStepsTo opened.owner.key (entries_of opened.journal) opened.owner.roots }
    requires at_rest { IfSome (D.drive lent.disk.now) (IsAtRest (entries_of opened.journal)) }
    ensures same { result.0.disk.ghost_name ≡ lent.entry.disk.ghost_name }
    ensures commits { CommitsOver batches.now (FaultRose (N.faults net.old) (N.faults net.new))
        (FaultRose (D.faults lent.entry.disk.now) (D.faults result.0.disk.now))
        (FaultRose (S.faults out.old) (S.faults out.new)) result.1 opened.owner
        (entries_of opened.journal) (D.drive result.0.disk.now) (N.wire net.old)
        (N.wire net.new) (S.written out.old) (S.written out.new) }

    ensures disk_counts { D.faults lent.entry.disk.now ≤ D.faults result.0.disk.now }
    ensures counts { N.faults net.old ≤ N.faults net.new }
    ensures outside { result.1 ≡ 3
        → FaultRose (N.faults net.old) (N.faults net.new)
        ⊎ FaultRose (D.faults lent.entry.disk.now) (D.faults result.0.disk.now)
        ⊎ FaultRose (S.faults out.old) (S.faults out.new) }
    ensures quiet { result.1 ≢ 3 → result.1 ≢ 4 → (N.faults net.new ≡ N.faults net.old)
        × (D.faults result.0.disk.now ≡ D.faults lent.entry.disk.now)
        × (S.faults out.new ≡ S.faults out.old) }
    ensures misses { StaysWhereItStands (N.wire net.old) (N.misses net.old) (N.misses net.new) }
{
    let OpenedJournal { owner, journal } = opened;
    let mut owner: JournalOwner<'a, D, K> = JournalOwner {
        owner,
        journal,
        lent,
        loan: PhantomData,
    };
    let status = run_session(alloc, &mut owner, batches, net, out);
    let JournalOwner {
        owner,
        journal,
        lent,
        loan: _,
    } = owner;
    drop(owner);
    drop(journal);
    (lent, status)
}
