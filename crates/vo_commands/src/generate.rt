//! `gen`: what a generated workload comes to that an owner, a store, a client and an auditor go
//! through.
ghost use Rattle.std.specs.Prelude.{◌≡◌, ◌≤◌, ◌++◌, IfOk, OnOk};
ghost use Rattle.cli_args.specs.PlainRequest.{max_steps};
ghost use Rattle.vo_commands.specs.Expected.{Exactly};
ghost use Rattle.vo_commands.specs.Lines.{gen_output, number_line, workload_lines};
ghost use Rattle.vo_commands.specs.Reports.{Answers, StaysInside};

use crate::lines::push_words;
use crate::piece::Word;
use crate::report::{Report, Status, Stop};
use std::alloc::{AllocError, Global};
use version_record::record_bytes;
use workload_run::{Summary, run_workload};

/// The numbers of the workload of so many steps that a number gives.
pub fn generate(alloc: Global, steps: u32, number: u64) -> Result<Report, Stop>
    requires some { 1 ≤ steps }
    requires few { steps ≤ max_steps }
    ensures known { Answers (Exactly (gen_output steps number)) result }
    ensures inside { StaysInside result }
{
    let summary = run_workload(alloc, steps, number)?;
    let mut bytes = Vec::new(alloc);
    push_summary(alloc, &mut bytes, &summary)?;
    Ok(Report {
        status: Status::Done,
        bytes,
    })
}

fn push_summary(alloc: Global, out: &mut Vec<u8>, summary: &Summary) -> Result<(), AllocError>
    ensures { OnOk result (out.new.items ≡ out.old.items ++ workload_lines summary.now) }
{
    push_number(alloc, out, "commands", summary.commands)?;
    push_number(alloc, out, "version", summary.version)?;
    push_number(alloc, out, "rows", summary.rows)?;
    push_number(alloc, out, "answers", summary.answers)?;
    push_number(alloc, out, "answer rows", summary.answer_rows)?;
    push_number(alloc, out, "exact", summary.exact)?;
    let record = record_bytes(&summary.last);
    push_words(
        alloc,
        out,
        &[Word::Phrase("last"), Word::Hexadecimal(&record)],
    )
}

/// A line of a name and a number.
fn push_number(alloc: Global, out: &mut Vec<u8>, name: &str, number: u64) -> Result<(), AllocError>
    ensures { OnOk result (out.new.items ≡ out.old.items ++ number_line name.now number) }
{
    push_words(alloc, out, &[Word::Phrase(name), Word::Number(number)])
}
