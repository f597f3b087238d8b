//! `seal`: the journal of a script's batches.
ghost use Rattle.std.specs.Prelude.{[], ◌∷◌, IfSome};
ghost use Rattle.vo_commands.specs.Expected.{Seals, script_expected, seal_expected};
ghost use Rattle.vo_commands.specs.Reports.{Answers, StaysInside};
ghost use Rattle.cli_args.specs.Shapes.{plain_shape};
ghost use Rattle.owner_state.specs.Sealing.{FitEach};
ghost use Rattle.vo_commands.specs.Taking.{TakesFiles, Along};

use crate::files::{take_file, take_seed};
use crate::limits::SCRIPT_LIMIT;
use crate::refusals::{command_refusal, spent_key};
use crate::report::{Report, Status, Stop};
use crate::texts::{batches_in, text_in};
use cli_args::KeyShape;
use lms_sign::SecretKey;
use outside::Shelf;
use owner_state::{SealFault, seal as seal_batches};
use std::alloc::Global;
use vo_spec::{Batch, List};

/// The journal of the script's batches, signed by the key of the seed file.
pub fn seal<F: Shelf>(
    alloc: Global,
    files: &mut F,
    seed: &str,
    script: &str,
    shape: KeyShape,
) -> Result<Report, Stop>
    ensures known { IfSome (F.contents files.old)
        (λ known. Answers (seal_expected seed.now script.now (plain_shape shape) known) result) }
    ensures files { TakesFiles F.contents F.faults F.misses (Along
        (seal_expected seed.now script.now (plain_shape shape))) files.old files.new result }
{
    let key = take_seed(alloc, files, seed, shape)?;
    let script = take_file(alloc, files, script, SCRIPT_LIMIT)?;
    seal_script(alloc, &key, &script)
}

/// The journal of the script that the bytes are.
fn seal_script(alloc: Global, key: &SecretKey, script: &[u8]) -> Result<Report, Stop>
    ensures known { Answers (script_expected key.now script.now) result }
    ensures inside { StaysInside result }
{
    let text = match text_in(alloc, script) {
        Ok(text) => text,
        Err(stop) => return Err(stop),
    };
    match batches_in(alloc, text) {
        Ok(batches) => journal_report(alloc, key, List::from_vec(batches)),
        Err(stop) => Err(stop),
    }
}

fn journal_report(alloc: Global, key: &SecretKey, batches: List<Batch>) -> Result<Report, Stop>
    requires { FitEach batches }
    ensures known { Answers (Seals key.now batches) result }
    ensures inside { StaysInside result }
{
    match seal_batches(alloc, key, batches) {
        Ok(bytes) => Ok(Report {
            status: Status::Done,
            bytes,
        }),
        Err(SealFault::KeySpent) => Err(Stop::Refused(spent_key(alloc)?)),
        Err(SealFault::Command { index, fault }) => {
            Err(Stop::Refused(command_refusal(alloc, index, fault)?))
        }
        Err(SealFault::Memory) => Err(Stop::Memory),
    }
}
