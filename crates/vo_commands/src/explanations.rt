//! What the key's owner is told of a signature that it never made.
ghost use Rattle.std.specs.Prelude.{◌≡◌, ◌++◌, [], ◌∷◌, codes, map, IfOk, OnOk};
ghost use Rattle.hex.specs.Hex.{encode_lower};
ghost use Rattle.vo_commands.specs.Lines.{explanation_lines, string_lines, unsigned_lines, unsigned_output, words_line};
ghost use Rattle.vo_commands.specs.Reports.{output_of};
ghost use Rattle.vo_commands.specs.Words.{word_text};

use crate::lines::push_words;
use crate::piece::Word;
use crate::report::{Report, Status};
use crate::verdicts::{push_strings, push_unsigned};
use lms_forge::Explanation;
use std::alloc::{AllocError, Global};
use vo_spec::{Collision, Digest, Record};

/// A validly signed record that the journal lacks, whose last version is this one.
#[derive(Clone, Copy)]
pub struct UnsignedRecord<'a> {
    pub rec: &'a Record,
    pub signature: &'a [u8],
    pub last: u64,
}

/// A record that the journal lacks, and what explains that its signature is valid.
pub fn forged_report(
    alloc: Global,
    unsigned: &UnsignedRecord<'_>,
    found: &Explanation,
) -> Result<Report, AllocError>
    ensures { IfOk result (λ report. output_of report ≡ unsigned_output
        (unsigned_lines unsigned.now.rec.now unsigned.now.signature.now unsigned.now.last
        ++ explanation_lines found.now)) }
{
    let mut bytes = Vec::new(alloc);
    let (rec, signature) = (unsigned.rec, unsigned.signature);
    push_unsigned(alloc, &mut bytes, rec, signature, unsigned.last)?;
    push_explanation(alloc, &mut bytes, found)?;
    Ok(Report {
        status: Status::Unsigned,
        bytes,
    })
}

fn push_explanation(alloc: Global, out: &mut Vec<u8>, found: &Explanation) -> Result<(), AllocError>
    ensures { OnOk result (out.new.items ≡ out.old.items ++ explanation_lines found.now) }
{
    match found {
        Explanation::Collides(found) => push_collision(alloc, out, found),
        Explanation::Chain {
            level,
            leaf,
            chain,
            step,
            bytes,
        } => {
            let place = [
                Word::Phrase("forged chain"),
                Word::Number((*level).into()),
                Word::Number((*leaf).into()),
                Word::Number((*chain).into()),
                Word::Number((*step).into()),
            ];
            push_chain(alloc, out, &place, bytes)
        }
    }
}

fn push_collision(alloc: Global, out: &mut Vec<u8>, found: &Collision) -> Result<(), AllocError>
    ensures { OnOk result (out.new.items ≡ out.old.items
        ++ (words_line (codes "forged by collision" ∷ []) ++ string_lines found.now)) }
{
    push_words(alloc, out, &[Word::Phrase("forged by collision")])?;
    push_strings(alloc, out, found)
}

/// The place of a chain's value, and the value.
fn push_chain(
    alloc: Global,
    out: &mut Vec<u8>,
    place: &[Word<'_>],
    bytes: &Digest,
) -> Result<(), AllocError>
    ensures { OnOk result (out.new.items ≡ out.old.items
        ++ (words_line (map word_text place.now) ++ words_line (encode_lower bytes.now ∷ []))) }
{
    push_words(alloc, out, place)?;
    push_words(alloc, out, &[Word::Hexadecimal(bytes.as_bytes())])
}
