//! What `audit` prints of a reply that a client accepts, and evidence that `meet` has too.
ghost use Rattle.std.specs.Prelude.{◌≡◌, ◌++◌, IfOk, OnOk};
ghost use Rattle.vo_spec.specs.declared.checks.Verdict.TheVariants.{Exact, Unsigned};
ghost use Rattle.vo_commands.specs.Lines.{collision_output, signed_lines, string_lines, unsigned_lines, verdict_output};
ghost use Rattle.vo_commands.specs.Reports.{output_of};

use crate::lines::{push_words, words_line};
use crate::piece::Word;
use crate::report::{Report, Status};
use std::alloc::{AllocError, Global};
use version_record::record_bytes;
use vo_spec::{Collision, Record, Verdict};

/// The verdict, in one line or more.
pub fn verdict_report(alloc: Global, verdict: &Verdict) -> Result<Report, AllocError>
    ensures { IfOk result (λ report. output_of report ≡ verdict_output verdict.now) }
{
    match verdict {
        Verdict::Exact { version } => exact_report(alloc, *version),
        Verdict::Unsigned {
            rec,
            signature,
            last,
        } => unsigned_report(alloc, rec, signature.as_slice(), *last),
        Verdict::Collides(found) => collision_report(alloc, found),
    }
}

fn exact_report(alloc: Global, version: u64) -> Result<Report, AllocError>
    ensures { IfOk result (λ report. output_of report ≡ verdict_output (Exact version)) }
{
    let bytes = words_line(
        alloc,
        &[Word::Phrase("exact version"), Word::Number(version)],
    )?;
    Ok(Report {
        status: Status::Done,
        bytes,
    })
}

fn unsigned_report(
    alloc: Global,
    rec: &Record,
    signature: &[u8],
    last: u64,
) -> Result<Report, AllocError>
    ensures { IfOk result (λ report. output_of report
        ≡ verdict_output (Unsigned rec.now signature.now last)) }
{
    let mut bytes = Vec::new(alloc);
    push_unsigned(alloc, &mut bytes, rec, signature, last)?;
    Ok(Report {
        status: Status::Unsigned,
        bytes,
    })
}

/// A record that the journal lacks, with its signature, and where the journal ends.
pub fn push_unsigned(
    alloc: Global,
    out: &mut Vec<u8>,
    rec: &Record,
    signature: &[u8],
    last: u64,
) -> Result<(), AllocError>
    ensures { OnOk result (out.new.items
        ≡ out.old.items ++ unsigned_lines rec.now signature.now last) }
{
    push_words(alloc, out, &[Word::Phrase("unsigned")])?;
    push_signed(alloc, out, rec, signature)?;
    let words = [Word::Phrase("journal ends at version"), Word::Number(last)];
    push_words(alloc, out, &words)
}

/// A record and its signature, a line each.
pub fn push_signed(
    alloc: Global,
    out: &mut Vec<u8>,
    rec: &Record,
    signature: &[u8],
) -> Result<(), AllocError>
    ensures { OnOk result (out.new.items ≡ out.old.items ++ signed_lines rec.now signature.now) }
{
    push_words(alloc, out, &[Word::Hexadecimal(&record_bytes(rec))])?;
    push_words(alloc, out, &[Word::Hexadecimal(signature)])
}

/// Two byte strings of one digest, a line each.
pub fn collision_report(alloc: Global, found: &Collision) -> Result<Report, AllocError>
    ensures { IfOk result (λ report. output_of report ≡ collision_output found.now) }
{
    let mut bytes = Vec::new(alloc);
    push_words(alloc, &mut bytes, &[Word::Phrase("collision")])?;
    push_strings(alloc, &mut bytes, found)?;
    Ok(Report {
        status: Status::Collision,
        bytes,
    })
}

/// The two strings of a collision, a line each.
pub fn push_strings(alloc: Global, out: &mut Vec<u8>, found: &Collision) -> Result<(), AllocError>
    ensures { OnOk result (out.new.items ≡ out.old.items ++ string_lines found.now) }
{
    push_words(alloc, out, &[Word::Hexadecimal(found.first())])?;
    push_words(alloc, out, &[Word::Hexadecimal(found.second())])
}
