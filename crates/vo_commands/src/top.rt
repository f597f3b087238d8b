//! The top call.
ghost use Rattle.std.specs.Prelude.{◌≡◌, ◌≢◌, ◌⊎◌, ◌≤◌, false, length, map, string_bytes, Some, None, IfSome};
ghost use Rattle.outside.specs.ConnectionModel.{ConnectionModel};
ghost use Rattle.outside.specs.FaultRose.{FaultRose};
ghost use Rattle.cli_args.specs.PlainRequest.{HasSteps, request_in};
ghost use Rattle.cli_args.specs.Request.{plain_command};
ghost use Rattle.vo_commands.specs.Expected.{Exactly, is_service, expected_of, command_expected, words_refusal, queue_of, connections_of, uses_disk, uses_net, writes_as_it_works, UsesNet, Ends, HoldsEach, file_words, files_expected, words_expected};
ghost use Rattle.vo_commands.specs.Owning.{CommitsNothing, OwnEnds, own_expected};
ghost use Rattle.vo_commands.specs.Reports.{Answers, StaysInside, FailsOutside};
ghost use Rattle.vo_commands.specs.Serving.{ServeEnds, serve_expected};
ghost use Rattle.vo_commands.specs.Taking.{LacksFile, LeavesFiles, Along};

use crate::answer::answer;
use crate::ask::{Versions, ask};
use crate::audit::audit;
use crate::check::check;
use crate::explain::explain;
use crate::generate::generate;
use crate::keygen::keygen;
use crate::meet::meet;
use crate::output::print_outcome;
use crate::own::own;
use crate::piece::Word;
use crate::refusals::refusal_report;
use crate::report::{Report, Status, Stop};
use crate::seal::seal;
use crate::serve::serve;
use cli_args::{Command, Request, read_words};
use outside::{Disk, Net, Shelf, Sink};
use std::alloc::Global;

/// Runs the program: `words` are the command line with the program's name first, `files` has the
/// files that they name, `disk` has the owner's journal, and all output goes to `out`: in one
/// piece, but that of `own`, which writes a line as each batch is installed, and of `serve`, which
/// writes one as each connection ends. Returns the exit status.
pub fn run<F: Shelf, D: Disk, N: Net, S: Sink>(
    alloc: Global,
    words: &[String],
    files: &mut F,
    disk: &mut D,
    net: &mut N,
    out: &mut S,
) -> u8
    // Where the contents of the files are known, or it takes none, it ends with the expected output,
    // or a fault rose, or memory ran out; of `ask` by the connections to come too, where these are
    // known.
    ensures lines { IfSome (expected_of (request_in (map string_bytes words.now))
        (F.contents files.old) (queue_of (N.wire net.old)))
        (λ expected. Ends expected (FaultRose (F.faults files.old) (F.faults files.new)
        ⊎ FaultRose (N.faults net.old) (N.faults net.new))
        (FaultRose (S.faults out.old) (S.faults out.new))
        result (S.written out.old) (S.written out.new)) }
    ensures outside { result ≡ 3
        → FaultRose (F.faults files.old) (F.faults files.new)
        ⊎ FaultRose (N.faults net.old) (N.faults net.new)
        ⊎ FaultRose (D.faults disk.old) (D.faults disk.new)
        ⊎ FaultRose (S.faults out.old) (S.faults out.new) }
    // A call of the outside that failed is told: another status comes only where none has, but that
    // a server goes on where a connection fails, and its lines tell of it.
    ensures quiet { result ≢ 3 → result ≢ 4 → (F.faults files.new ≡ F.faults files.old)
        × (D.faults disk.new ≡ D.faults disk.old) × (S.faults out.new ≡ S.faults out.old) }
    ensures net_quiet { is_service (request_in (map string_bytes words.now)) ≡ false
        → result ≢ 3 → result ≢ 4 → N.faults net.new ≡ N.faults net.old }
    ensures memory { writes_as_it_works (request_in (map string_bytes words.now)) ≡ false
        → result ≡ 4 → S.written out.new ≡ S.written out.old }
    // Where the contents of the files are known, `serve` ends so, or as is expected before that.
    ensures serves { IfSome (serve_expected (request_in (map string_bytes words.now))
        (F.contents files.old))
        (λ expected. ServeEnds expected (FaultRose (F.faults files.old) (F.faults files.new)
        ⊎ FaultRose (N.faults net.old) (N.faults net.new))
        (FaultRose (S.faults out.old) (S.faults out.new)) result
        (N.faults net.old) (N.faults net.new) (N.wire net.old) (N.wire net.new)
        (S.written out.old) (S.written out.new)) }
    // So does `own`.
    ensures owns { IfSome (own_expected (request_in (map string_bytes words.now))
        (F.contents files.old))
        (λ expected. OwnEnds expected (FaultRose (F.faults files.old) (F.faults files.new))
        (FaultRose (N.faults net.old) (N.faults net.new))
        (FaultRose (D.faults disk.old) (D.faults disk.new))
        (FaultRose (S.faults out.old) (S.faults out.new)) result
        (D.drive disk.old) (D.drive disk.new) (N.wire net.old) (N.wire net.new)
        (S.written out.old) (S.written out.new)) }

    // What it does to the outside: words that ask for nothing leave all but the output.
    ensures refused { request_in (map string_bytes words.now) ≡ None → files.new ≡ files.old }
    ensures files { F.contents files.new ≡ F.contents files.old }
    ensures disk { uses_disk (request_in (map string_bytes words.now)) ≡ false
        → disk.new ≡ disk.old }
    ensures net { uses_net (request_in (map string_bytes words.now)) ≡ false
        → net.new ≡ net.old }
    // So does `own` where the seed file or the script is refused, or isn't there.
    ensures own_refused { IfSome (own_expected (request_in (map string_bytes words.now))
        (F.contents files.old)) (λ expected. CommitsNothing expected
        → (disk.new ≡ disk.old) × (net.new ≡ net.old)) }
    ensures asks { (before : ConnectionModel) → N.wire net.old ≡ Some before
        → UsesNet (request_in (map string_bytes words.now)) (F.contents files.old) before
        (N.wire net.new) }

    // No file is missed but one that isn't there and to which it comes, since what is before that in
    // the order of the words is as it must be; so what is there is not missed.
    ensures misses_in_order { IfSome (F.contents files.old) (λ known.
        (LacksFile (words_expected (request_in (map string_bytes words.now)) known) → ⊥)
        → F.misses files.new ≡ F.misses files.old) }
    ensures misses { IfSome (F.contents files.old) (λ known.
        HoldsEach known (file_words (request_in (map string_bytes words.now)))
        → F.misses files.new ≡ F.misses files.old) }
    ensures net_misses { (before : ConnectionModel) → N.wire net.old ≡ Some before
        → connections_of (request_in (map string_bytes words.now)) ≤ length before.queue
        → N.misses net.new ≡ N.misses net.old }
{
    match read_words(alloc, words) {
        Ok(Some(Request::Own(commitment))) => own(alloc, files, disk, net, out, &commitment),
        Ok(Some(Request::Serve(service))) => serve(alloc, files, net, out, &service),
        Ok(Some(Request::Command(command))) => {
            let outcome = run_command(alloc, command, files, net);
            print_outcome(out, outcome)
        }
        Ok(None) => print_outcome(out, refuse_words(alloc)),
        Err(_) => 4,
    }
}

/// The refusal of words that ask for nothing.
fn refuse_words(alloc: Global) -> Result<Report, Stop>
    ensures known { Answers (Exactly words_refusal) result }
    ensures inside { StaysInside result }
{
    Ok(refusal_report(alloc, Status::RefusedInput, &[Word::Phrase("words")])?)
}

/// What a command comes to.
fn run_command<F: Shelf, N: Net>(
    alloc: Global,
    command: Command<'_>,
    files: &mut F,
    net: &mut N,
) -> Result<Report, Stop>
    requires steps { HasSteps (plain_command command) }
    ensures known { IfSome (command_expected (plain_command command.entry) (F.contents files.old)
        (queue_of (N.wire net.old))) (λ expected. Answers expected result) }
    ensures files { LeavesFiles F.contents F.faults F.misses
        (Along (files_expected (plain_command command.entry))) files.old files.new }
    ensures net { uses_net (Some (plain_command command.entry)) ≡ false → net.new ≡ net.old }
    ensures asks { (before : ConnectionModel) → N.wire net.old ≡ Some before
        → UsesNet (Some (plain_command command.entry)) (F.contents files.old) before
        (N.wire net.new) }

    ensures net_counts { N.faults net.old ≤ N.faults net.new }
    ensures cause { FailsOutside result
        → FaultRose (F.faults files.old) (F.faults files.new)
        ⊎ FaultRose (N.faults net.old) (N.faults net.new) }
    ensures quiet { (FailsOutside result → ⊥) → (F.faults files.new ≡ F.faults files.old)
        × (N.faults net.new ≡ N.faults net.old) }
    ensures net_misses { (before : ConnectionModel) → N.wire net.old ≡ Some before
        → connections_of (Some (plain_command command.entry)) ≤ length before.queue
        → N.misses net.new ≡ N.misses net.old }
{
    match command {
        Command::Keygen { seed, shape } => keygen(alloc, files, seed, shape),
        Command::Seal {
            seed,
            script,
            shape,
        } => seal(alloc, files, seed, script, shape),
        Command::Answer {
            key,
            journal,
            query,
            at,
        } => answer(alloc, files, key, journal, query, at),
        Command::Check {
            key,
            query,
            reply,
            least,
        } => check(alloc, files, key, query, reply, least),
        Command::Ask {
            address,
            key,
            query,
            at,
            least,
        } => {
            let versions = Versions { at, least };
            ask(alloc, files, net, address, key, query, versions)
        }
        Command::Audit {
            key,
            journal,
            query,
            reply,
        } => audit(alloc, files, key, journal, query, reply),
        Command::Explain(audit) => explain(alloc, files, &audit),
        Command::Meet {
            key,
            query,
            first,
            second,
        } => meet(alloc, files, key, query, first, second),
        Command::Generate { steps, number } => generate(alloc, steps, number),
    }
}
