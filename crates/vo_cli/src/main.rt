//! The program: an owner, a store, clients and auditors of outsourced tables.
#![tactic(auto)]

mod usage;

ghost use Rattle.std.specs.Prelude.{◌≡◌, ◌≢◌, ◌⊎◌, map, string_bytes, IfOk, IfErr, IfSome};
ghost use Rattle.std.specs.IoError.{error_kind};
ghost use Rattle.outside.specs.FaultRose.{FaultRose};
ghost use Rattle.cli_args.specs.PlainRequest.{request_in};
ghost use Rattle.vo_commands.specs.Expected.{Exactly, Ends, expected_of, queue_of, words_refusal};
ghost use Rattle.vo_commands.specs.Owning.{OwnEnds, own_expected};
ghost use Rattle.vo_commands.specs.Serving.{ServeEnds, serve_expected};

use outside::{Disk, Net, Shelf, Sink};
use outside_real::{FolderFiles, JournalFile, StandardOutput, Tcp};
use std::alloc::Global;
use std::env;
use std::io::{self, ErrorKind};
use std::process::ExitCode;
use std::rt::Env;
use usage::{USAGE, are_refused};
use vo_commands::run;

fn main(rt: HostRuntime) -> ExitCode {
    let words = words(&rt);
    let are_refused = are_refused(rt.alloc(), &words);
    let mut files = FolderFiles::new(&rt);
    let mut disk = JournalFile::new(&rt, "owner.journal");
    let mut net = Tcp::new(&rt);
    let mut out = StandardOutput::new(&rt);
    let status = run_on_words(rt.alloc(), words, &mut files, &mut disk, &mut net, &mut out);
    if are_refused {
        let _ = eprint!(rt; "{USAGE}");
    }
    ExitCode::from(status)
}

/// The words of the command line, the program's name first.
fn words(rt: &(impl Env + AllocGlobal)) -> io::Result<Vec<String>> {
    Ok(env::args(rt)?.collect(rt.alloc())?)
}

/// Runs the program on the words of the command line, if they could be collected. Words that
/// aren't text ask for nothing, as no words do.
#[tactic(auto, using(crate::proofs::NoWords::no_words, crate::proofs::NoWords::no_disk, crate::proofs::NoWords::no_net))]
fn run_on_words<F: Shelf, D: Disk, N: Net, S: Sink>(
    alloc: Global,
    words: io::Result<Vec<String>>,
    files: &mut F,
    disk: &mut D,
    net: &mut N,
    out: &mut S,
) -> u8
    ensures lines { IfOk words (λ words.
        IfSome (expected_of (request_in (map string_bytes words.items)) (F.contents files.old)
        (queue_of (N.wire net.old))) (λ expected.
        Ends expected (FaultRose (F.faults files.old) (F.faults files.new)
        ⊎ FaultRose (N.faults net.old) (N.faults net.new))
        (FaultRose (S.faults out.old) (S.faults out.new))
        result (S.written out.old) (S.written out.new))) }
    ensures serves { IfOk words (λ words.
        IfSome (serve_expected (request_in (map string_bytes words.items)) (F.contents files.old))
        (λ expected. ServeEnds expected (FaultRose (F.faults files.old) (F.faults files.new)
        ⊎ FaultRose (N.faults net.old) (N.faults net.new))
        (FaultRose (S.faults out.old) (S.faults out.new)) result
        (N.faults net.old) (N.faults net.new) (N.wire net.old) (N.wire net.new)
        (S.written out.old) (S.written out.new))) }
    ensures owns { IfOk words (λ words.
        IfSome (own_expected (request_in (map string_bytes words.items)) (F.contents files.old))
        (λ expected. OwnEnds expected (FaultRose (F.faults files.old) (F.faults files.new))
        (FaultRose (N.faults net.old) (N.faults net.new))
        (FaultRose (D.faults disk.old) (D.faults disk.new))
        (FaultRose (S.faults out.old) (S.faults out.new)) result
        (D.drive disk.old) (D.drive disk.new) (N.wire net.old) (N.wire net.new)
        (S.written out.old) (S.written out.new))) }

    // Words that can't be collected leave all but the output as it was.
    ensures files { IfErr words (λ _. files.new ≡ files.old) }
    ensures disk { IfErr words (λ _. disk.new ≡ disk.old) }
    ensures net { IfErr words (λ _. net.new ≡ net.old) }
    ensures memory { IfErr words (λ error. error_kind error ≡ ErrorKind.OutOfMemory → result ≡ 4) }
    ensures silent { IfErr words (λ error. error_kind error ≡ ErrorKind.OutOfMemory
        → out.new ≡ out.old) }
    ensures no_text { IfErr words (λ error. error_kind error ≢ ErrorKind.OutOfMemory
        → Ends (Exactly words_refusal) (FaultRose (F.faults files.old) (F.faults files.new)
        ⊎ FaultRose (N.faults net.old) (N.faults net.new))
        (FaultRose (S.faults out.old) (S.faults out.new)) result (S.written out.old)
        (S.written out.new)) }
{
    match words {
        Ok(words) => run(alloc, &words, files, disk, net, out),
        Err(error) if error.kind() == ErrorKind::OutOfMemory => 4,
        Err(_) => run(alloc, &[], files, disk, net, out),
    }
}
