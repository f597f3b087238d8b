//! `keygen`: the public key of a seed file.
ghost use Rattle.std.specs.Prelude.{IfSome};
ghost use Rattle.cli_args.specs.Shapes.{plain_shape};
ghost use Rattle.vo_commands.specs.Expected.{keygen_expected};
ghost use Rattle.vo_commands.specs.Reports.{Answers};
ghost use Rattle.vo_commands.specs.Taking.{TakesFiles, Along};

use crate::files::take_seed;
use crate::report::{Report, Status, Stop};
use cli_args::KeyShape;
use outside::Shelf;
use std::alloc::Global;

/// The bytes of the public key.
pub fn keygen<F: Shelf>(
    alloc: Global,
    files: &mut F,
    seed: &str,
    shape: KeyShape,
) -> Result<Report, Stop>
    ensures known { IfSome (F.contents files.old)
        (λ known. Answers (keygen_expected seed.now (plain_shape shape) known) result) }
    ensures files { TakesFiles F.contents F.faults F.misses (Along
        (keygen_expected seed.now (plain_shape shape))) files.old files.new result }
{
    let key = take_seed(alloc, files, seed, shape)?;
    let bytes = key.public().bytes(alloc)?;
    Ok(Report {
        status: Status::Done,
        bytes,
    })
}
