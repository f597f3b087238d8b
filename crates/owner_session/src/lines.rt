//! The lines of a session.
ghost use Rattle.std.specs.Prelude.{◌≡◌, ◌++◌, IfOk};
ghost use Rattle.outside.specs.Outputs.{line};
ghost use Rattle.owner_session.specs.Endings.{number_line, version_line, IsOfLink, StopsAs, StopsWith, StoreRefuses, StandsElsewhere, BadAnswer, CutAnswer, OwnerRefuses};

use crate::refusals::Refusal;
use crate::stop::{SessionReport, SessionStatus, SessionStop};
use std::alloc::{AllocError, Global};

/// The store refuses a request, with this code.
pub fn store_refusal(alloc: Global, code: u8) -> SessionStop
    ensures ending { StopsWith (StoreRefuses code) result }
    ensures inside { IsOfLink result }
{
    stop_with(
        SessionStatus::Refused,
        number_line(alloc, "refused: store ", code as u64),
    )
}

/// The store's record, or the version that it installed, is another than the journal's.
pub fn stands_elsewhere(alloc: Global) -> SessionStop
    ensures ending { StopsWith StandsElsewhere result }
    ensures inside { IsOfLink result }
{
    stop_with(
        SessionStatus::Refused,
        Vec::from_slice(alloc, b"refused: store stands elsewhere\n"),
    )
}

/// An answer has a bad frame of this length.
pub fn bad_answer(alloc: Global, length: u64) -> SessionStop
    ensures ending { StopsWith (BadAnswer length) result }
    ensures inside { IsOfLink result }
{
    stop_with(
        SessionStatus::BadAnswer,
        number_line(alloc, "bad frame ", length),
    )
}

/// An answer ends after so many bytes.
pub fn cut_answer(alloc: Global, got: usize) -> SessionStop
    ensures ending { StopsWith (CutAnswer got) result }
    ensures inside { IsOfLink result }
{
    stop_with(
        SessionStatus::BadAnswer,
        number_line(alloc, "cut ", got as u64),
    )
}

/// The owner refuses to make an entry.
pub fn owner_refusal(refusal: Refusal) -> SessionStop
    ensures ending { StopsWith (OwnerRefuses refusal.cause refusal.lines.items) result }
    ensures inside { IsOfLink result }
{
    SessionStop::Refused(SessionReport {
        status: refusal.cause.status(),
        bytes: refusal.lines,
    })
}

/// The line of a version that is installed.
pub fn version_line(alloc: Global, version: u64) -> Result<Vec<u8>, AllocError>
    ensures { IfOk result (λ bytes. bytes.items ≡ version_line version) }
{
    number_line(alloc, "version ", version)
}

fn number_line(alloc: Global, phrase: &str, number: u64) -> Result<Vec<u8>, AllocError>
    ensures { IfOk result (λ bytes. bytes.items ≡ number_line phrase.now number) }
{
    let mut bytes = Vec::from_slice(alloc, phrase.as_bytes())?;
    bytes.extend_from_slice(number.to_string(alloc)?.as_bytes())?;
    bytes.push(b'\n')?;
    Ok(bytes)
}

fn stop_with(status: SessionStatus, line: Result<Vec<u8>, AllocError>) -> SessionStop
    ensures judgement { StopsAs status line result }
    ensures inside { IsOfLink result }
{
    match line {
        Ok(bytes) => SessionStop::Refused(SessionReport { status, bytes }),
        Err(_) => SessionStop::Memory,
    }
}
