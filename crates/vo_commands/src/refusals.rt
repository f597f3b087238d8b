//! Refusals, each in one line that begins with `refused:`.
ghost use Rattle.std.specs.Prelude.{◌≡◌, ◌∷◌, map, IfOk};
ghost use Rattle.vo_commands.specs.Lines.{refusal_output, line_output, command_output, spent_key, fault_name, bad_journal};
ghost use Rattle.vo_commands.specs.Reports.{output_of, status_code};
ghost use Rattle.vo_commands.specs.Words.{word_text};

use crate::lines::words_line;
use crate::piece::Word;
use crate::report::{Report, Status};
use std::alloc::{AllocError, Global};
use vo_spec::CommandFault;

/// A refusal in one line: these words behind `refused:`.
pub fn refusal_report(
    alloc: Global,
    status: Status,
    words: &[Word<'_>],
) -> Result<Report, AllocError>
    ensures { IfOk result (λ report. output_of report
        ≡ refusal_output (status_code status) (map word_text words.now)) }
{
    line_report(alloc, status, "refused:", words)
}

/// One line: these words behind its beginning.
pub fn line_report<'a>(
    alloc: Global,
    status: Status,
    beginning: &'a str,
    words: &[Word<'a>],
) -> Result<Report, AllocError>
    ensures { IfOk result (λ report. output_of report
        ≡ line_output beginning.now (status_code status) (map word_text words.now)) }
{
    let all = words_behind(alloc, beginning, words)?;
    let bytes = words_line(alloc, &all)?;
    Ok(Report { status, bytes })
}

fn words_behind<'a>(
    alloc: Global,
    beginning: &'a str,
    words: &[Word<'a>],
) -> Result<Vec<Word<'a>>, AllocError>
    ensures { IfOk result (λ all. map word_text all.items
        ≡ beginning.now ∷ map word_text words.now) }
{
    let mut all = Vec::from_slice(alloc, &[Word::Phrase(beginning)])?;
    all.extend_from_slice(words)?;
    Ok(all)
}

/// The command of this number in its batch is refused.
pub fn command_refusal(alloc: Global, index: u64, fault: CommandFault) -> Result<Report, AllocError>
    ensures { IfOk result (λ report. output_of report ≡ command_output index fault) }
{
    let words = [
        Word::Phrase("command"),
        Word::Number(index),
        Word::Phrase(name_of(fault)),
    ];
    refusal_report(alloc, Status::RefusedCommand, &words)
}

/// The key has no leaf left for another version.
pub fn spent_key(alloc: Global) -> Result<Report, AllocError>
    ensures { IfOk result (λ report. output_of report ≡ spent_key) }
{
    refusal_report(alloc, Status::RefusedCommand, &[Word::Phrase("key spent")])
}

/// The journal's entry of this number is bad.
pub fn bad_entry(alloc: Global, index: u64) -> Result<Report, AllocError>
    ensures { IfOk result (λ report. output_of report ≡ bad_journal index) }
{
    let bytes = words_line(alloc, &[Word::Phrase("bad journal"), Word::Number(index)])?;
    Ok(Report {
        status: Status::BadJournal,
        bytes,
    })
}

fn name_of(fault: CommandFault) -> &'static str
    ensures { result.now ≡ fault_name fault }
{
    match fault {
        CommandFault::TableExists => "TableExists",
        CommandFault::NoTable => "NoTable",
        CommandFault::BadSchema => "BadSchema",
        CommandFault::Arity => "Arity",
        CommandFault::TypeMismatch => "TypeMismatch",
        CommandFault::DuplicateKey => "DuplicateKey",
        CommandFault::NoRow => "NoRow",
        CommandFault::TableFull => "TableFull",
        CommandFault::TooManyTables => "TooManyTables",
        CommandFault::KeyTooLong => "KeyTooLong",
        CommandFault::NoColumn => "NoColumn",
        CommandFault::NotKey => "NotKey",
        CommandFault::BadSet => "BadSet",
        CommandFault::NotNull => "NotNull",
    }
}
