//! What is printed of a reply that a client refuses: why, in one line.
ghost use Rattle.std.specs.Prelude.{◌≡◌, ◌≢◌, [], ◌∷◌, map, codes, decimal, Err, Some, Vec, option_map, IfOk};
ghost use Rattle.std.specs.Global.{Global};
ghost use Rattle.hex.specs.Hex.{encode_lower};
ghost use Rattle.outside.specs.Outputs.{Output};
ghost use Rattle.vo_commands.specs.declared.report.Stop.TheVariants.{Outside};
ghost use Rattle.vo_commands.specs.Expected.{Allows, Expected};
ghost use Rattle.vo_commands.specs.Lines.{fault_output, fault_words, line_output};
ghost use Rattle.vo_commands.specs.Reports.{Answers};
ghost use Rattle.vo_commands.specs.Words.{word_text};

use crate::piece::Word;
use crate::refusals::line_report;
use crate::report::{Status, Stop};
use std::alloc::{AllocError, Global};
use vo_spec::CheckFault;

/// What a command ends with where a reply is refused: why, behind a beginning that says which; or,
/// where that was the fault, want of memory.
pub fn reply_refusal<'a>(alloc: Global, beginning: &'a str, fault: &'a CheckFault) -> Stop
    ensures known { (expected : Expected)
        → ((output : Output) → fault_output beginning.now fault.now ≡ Some output
        → Allows expected output) → Answers expected (Err result) }
    ensures inside { result ≢ Outside }
{
    match fault_words(alloc, fault) {
        Ok(Some(words)) => refusal_line(alloc, beginning, &words),
        _ => Stop::Memory,
    }
}

/// The refusal with these words behind its beginning, if there is memory for it.
fn refusal_line<'a>(alloc: Global, beginning: &'a str, words: &[Word<'a>]) -> Stop
    ensures known { (expected : Expected)
        → Allows expected (line_output beginning.now 1 (map word_text words.now))
        → Answers expected (Err result) }
    ensures inside { result ≢ Outside }
{
    match line_report(alloc, Status::RefusedReply, beginning, words) {
        Ok(report) => Stop::Refused(report),
        Err(_) => Stop::Memory,
    }
}

/// Why a reply is refused, in words; none of want of memory, which is no refusal.
fn fault_words<'a>(
    alloc: Global,
    fault: &'a CheckFault,
) -> Result<Option<Vec<Word<'a>>>, AllocError>
    ensures { IfOk result (λ words. option_map (λ (w : Vec Word Global).
        map word_text w.items) words
        ≡ fault_words fault.now) }
{
    let words = match fault {
        CheckFault::TooLong { length } => number_words(alloc, "too long", *length),
        CheckFault::BadForm => phrase_words(alloc, "bad form"),
        CheckFault::WrongKey { want, got } => bytes_words(alloc, "wrong key", want, got),
        CheckFault::WrongLeaf { version, q } => {
            numbers_words(alloc, "wrong leaf", *version, *q as u64)
        }
        CheckFault::BadSignature => phrase_words(alloc, "bad signature"),
        CheckFault::Stale { least, got } => numbers_words(alloc, "stale", *least, *got),
        CheckFault::WrongCatalog { want, got } => {
            bytes_words(alloc, "wrong catalog", want.as_bytes(), got.as_bytes())
        }
        CheckFault::WrongTrees { want, got } => numbers_words(alloc, "wrong trees", *want, *got),
        CheckFault::WrongShape => phrase_words(alloc, "wrong shape"),
        CheckFault::WrongRoot { table, want, got } => {
            root_words(alloc, table.as_bytes(), want.as_bytes(), got.as_bytes())
        }
        CheckFault::Missing => phrase_words(alloc, "missing"),
        CheckFault::Surplus => phrase_words(alloc, "surplus"),
        CheckFault::Memory => return Ok(None),
    }?;
    Ok(Some(words))
}

fn phrase_words<'a>(alloc: Global, what: &'a str) -> Result<Vec<Word<'a>>, AllocError>
    ensures { IfOk result (λ words. map word_text words.items ≡ what.now ∷ []) }
{
    Vec::from_slice(alloc, &[Word::Phrase(what)])
}

fn number_words<'a>(alloc: Global, what: &'a str, number: u64) -> Result<Vec<Word<'a>>, AllocError>
    ensures { IfOk result (λ words. map word_text words.items
        ≡ what.now ∷ decimal number ∷ []) }
{
    Vec::from_slice(alloc, &[Word::Phrase(what), Word::Number(number)])
}

fn numbers_words<'a>(
    alloc: Global,
    what: &'a str,
    first: u64,
    second: u64,
) -> Result<Vec<Word<'a>>, AllocError>
    ensures { IfOk result (λ words. map word_text words.items
        ≡ what.now ∷ decimal first ∷ decimal second ∷ []) }
{
    let words = [
        Word::Phrase(what),
        Word::Number(first),
        Word::Number(second),
    ];
    Vec::from_slice(alloc, &words)
}

/// What was wanted and what was there instead, both as hexadecimal digits.
fn bytes_words<'a>(
    alloc: Global,
    what: &'a str,
    want: &'a [u8],
    got: &'a [u8],
) -> Result<Vec<Word<'a>>, AllocError>
    ensures { IfOk result (λ words. map word_text words.items
        ≡ what.now ∷ encode_lower want.now ∷ encode_lower got.now ∷ []) }
{
    let words = [
        Word::Phrase(what),
        Word::Hexadecimal(want),
        Word::Hexadecimal(got),
    ];
    Vec::from_slice(alloc, &words)
}

fn root_words<'a>(
    alloc: Global,
    table: &'a [u8],
    want: &'a [u8],
    got: &'a [u8],
) -> Result<Vec<Word<'a>>, AllocError>
    ensures { IfOk result (λ words. map word_text words.items
        ≡ codes "wrong root" ∷ table.now ∷ encode_lower want.now ∷ encode_lower got.now ∷ []) }
{
    let words = [
        Word::Phrase("wrong root"),
        Word::Name(table),
        Word::Hexadecimal(want),
        Word::Hexadecimal(got),
    ];
    Vec::from_slice(alloc, &words)
}
