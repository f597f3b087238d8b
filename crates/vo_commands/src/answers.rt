//! What `check` prints of a reply that it accepts: the answer.
ghost use Rattle.std.specs.Prelude.{◌≡◌, [], ◌∷◌, ◌++◌, map, flat_map, codes, IfOk, OnOk};
ghost use Rattle.vo_commands.specs.Lines.{answer_output, outcome_lines, words_line, columns_line, literal};
ghost use Rattle.vo_commands.specs.Reports.{output_of};
ghost use Rattle.vo_spec.specs.Results.{ref_title};

use crate::lines::{push_columns, push_words};
use crate::piece::Word;
use crate::report::{Report, Status};
use std::alloc::{AllocError, Global};
use vo_spec::{Answer, List, Outcome, QueryFault, Ref, Value};

/// The answer: its version, and then the header and a line for each row, or what is wrong with the
/// query.
pub fn answer_report(alloc: Global, answer: &Answer) -> Result<Report, AllocError>
    ensures { IfOk result (λ report. output_of report ≡ answer_output answer.now) }
{
    let mut bytes = Vec::new(alloc);
    push_words(
        alloc,
        &mut bytes,
        &[Word::Phrase("version"), Word::Number(answer.version)],
    )?;
    push_outcome(alloc, &mut bytes, &answer.outcome)?;
    Ok(Report {
        status: Status::Done,
        bytes,
    })
}

fn push_outcome(alloc: Global, out: &mut Vec<u8>, outcome: &Outcome) -> Result<(), AllocError>
    ensures { OnOk result (out.new.items ≡ out.old.items ++ outcome_lines outcome.now) }
{
    match outcome {
        Outcome::Rows { header, rows } => {
            push_columns(alloc, out, header.as_slice())?;
            push_rows(alloc, out, rows.as_slice())
        }
        Outcome::Wrong(fault) => push_wrong(alloc, out, fault),
    }
}

fn push_rows(alloc: Global, out: &mut Vec<u8>, rows: &[List<Value>]) -> Result<(), AllocError>
    ensures { OnOk result (out.new.items ≡ out.old.items
        ++ flat_map (λ row. columns_line (map literal row)) rows.now) }
{
    for row in rows {
        push_columns(alloc, out, row.as_slice())?;
    }
    Ok(())
}

fn push_wrong(alloc: Global, out: &mut Vec<u8>, fault: &QueryFault) -> Result<(), AllocError>
    ensures { OnOk result (out.new.items ≡ out.old.items
        ++ outcome_lines (Outcome.Wrong fault.now)) }
{
    match fault {
        QueryFault::NoTable(name) => push_wrong_name(alloc, out, "no table", name.as_bytes()),
        QueryFault::NoColumn(reference) => {
            push_wrong_name(alloc, out, "no column", &title_of(alloc, reference)?)
        }
        QueryFault::Ambiguous(reference) => {
            push_wrong_name(alloc, out, "ambiguous", &title_of(alloc, reference)?)
        }
        QueryFault::TypeMismatch => push_words(
            alloc,
            out,
            &[Word::Phrase("wrong:"), Word::Phrase("kinds differ")],
        ),
        QueryFault::NotKeyJoin => push_words(
            alloc,
            out,
            &[Word::Phrase("wrong:"), Word::Phrase("not a key join")],
        ),
    }
}

fn push_wrong_name<'a>(
    alloc: Global,
    out: &mut Vec<u8>,
    what: &'a str,
    name: &'a [u8],
) -> Result<(), AllocError>
    ensures { OnOk result (out.new.items ≡ out.old.items
        ++ words_line (codes "wrong:" ∷ what.now ∷ name.now ∷ [])) }
{
    push_words(
        alloc,
        out,
        &[Word::Phrase("wrong:"), Word::Phrase(what), Word::Name(name)],
    )
}

/// A reference as it is written.
fn title_of(alloc: Global, reference: &Ref) -> Result<Vec<u8>, AllocError>
    ensures { IfOk result (λ title. title.items ≡ ref_title reference.now) }
{
    let mut title = Vec::new(alloc);
    if let Some(qualifier) = &reference.qualifier {
        title.extend_from_slice(qualifier.as_bytes())?;
        title.push(b'.')?;
    }
    title.extend_from_slice(reference.column.as_bytes())?;
    Ok(title)
}
