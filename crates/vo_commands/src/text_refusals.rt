//! What is printed of a text that is no query or no script: its first fault.
ghost use Rattle.std.specs.Prelude.{◌≡◌, [], ◌∷◌, decimal, IfOk};
ghost use Rattle.vo_commands.specs.Lines.{input_refusal, sql_output};
ghost use Rattle.vo_commands.specs.Reports.{StopsWith, output_of};

use crate::piece::Word;
use crate::refusals::refusal_report;
use crate::report::{Report, Status, Stop};
use sql_text::SqlFault;
use std::alloc::{AllocError, Global};

/// Why there is nothing to go on with after a fault of a text: it, in one line, or want of memory.
pub fn stop_after(alloc: Global, fault: SqlFault) -> Result<Stop, AllocError>
    ensures { IfOk result (λ stop. StopsWith (sql_output fault) stop) }
{
    let report = match fault {
        SqlFault::TooLong => phrase_refusal(alloc, "sql too long"),
        SqlFault::Token { at } => refusal_at(alloc, "sql token", at),
        SqlFault::Syntax { at } => refusal_at(alloc, "sql syntax", at),
        SqlFault::Literal { at } => refusal_at(alloc, "sql literal", at),
        SqlFault::Nesting => phrase_refusal(alloc, "sql nesting"),
        SqlFault::Name => phrase_refusal(alloc, "sql name"),
        SqlFault::TooMany => phrase_refusal(alloc, "sql too many"),
        SqlFault::Memory => return Ok(Stop::Memory),
    }?;
    Ok(Stop::Refused(report))
}

fn phrase_refusal(alloc: Global, what: &str) -> Result<Report, AllocError>
    ensures { IfOk result (λ report. output_of report ≡ input_refusal (what.now ∷ [])) }
{
    refusal_report(alloc, Status::RefusedInput, &[Word::Phrase(what)])
}

/// The fault and its place in bytes.
fn refusal_at(alloc: Global, what: &str, at: usize) -> Result<Report, AllocError>
    ensures { IfOk result (λ report. output_of report
        ≡ input_refusal (what.now ∷ decimal at ∷ [])) }
{
    let words = [Word::Phrase(what), Word::Number(at as u64)];
    refusal_report(alloc, Status::RefusedInput, &words)
}
