//! Refusals of an owner: a command of the batch, the proofs, or the key.
ghost use Rattle.std.specs.Prelude.{◌≡◌, map, IfOk, Some};
ghost use Rattle.outside.specs.Outputs.{Output};
ghost use Rattle.owner_roots.specs.declared.owner_fault.OwnerFault.{OwnerFault};
ghost use Rattle.vo_commands.specs.Committing.{RefusesBy, refusal_of};
ghost use Rattle.vo_commands.specs.Lines.{proof_refusal};
ghost use Rattle.vo_commands.specs.Reports.{output_of};
ghost use Rattle.vo_commands.specs.Words.{word_text};

use crate::piece::Word;
use crate::refusals::{command_refusal, refusal_report, spent_key};
use crate::report::{Report, Status};
use owner_roots::OwnerFault;
use owner_session::{NoStep, Refusal, RefusalCause};
use std::alloc::{AllocError, Global};

/// What an owner refuses a batch and its proofs for.
pub fn owner_refusal(alloc: Global, fault: OwnerFault) -> NoStep
    ensures { RefusesBy fault result }
{
    match fault {
        OwnerFault::Command { index, fault } => {
            refused_step(RefusalCause::Command, command_refusal(alloc, index, fault))
        }
        OwnerFault::ProofForm { index } => {
            refused_step(
                RefusalCause::Proofs,
                proof_refusal(alloc, "form", index, &[]),
            )
        }
        OwnerFault::ProofRoot { index, want, got } => {
            let digests = [
                Word::Hexadecimal(want.as_bytes()),
                Word::Hexadecimal(got.as_bytes()),
            ];
            refused_step(
                RefusalCause::Proofs,
                proof_refusal(alloc, "root", index, &digests),
            )
        }
        OwnerFault::ProofMissing { index } => {
            refused_step(
                RefusalCause::Proofs,
                proof_refusal(alloc, "missing", index, &[]),
            )
        }
        OwnerFault::ProofSurplus { index } => {
            refused_step(
                RefusalCause::Proofs,
                proof_refusal(alloc, "surplus", index, &[]),
            )
        }
        OwnerFault::KeySpent => refused_step(RefusalCause::Command, spent_key(alloc)),
        OwnerFault::Memory => NoStep::Memory,
    }
}

/// A refusal with its lines, if there was memory for these.
fn refused_step(cause: RefusalCause, report: Result<Report, AllocError>) -> NoStep
    ensures { (fault : OwnerFault) (output : Output) → refusal_of fault ≡ Some (cause, output)
        → IfOk report (λ report. output_of report ≡ output) → RefusesBy fault result }
{
    match report {
        Ok(report) => NoStep::Refused(Refusal {
            cause,
            lines: report.bytes,
        }),
        Err(_) => NoStep::Memory,
    }
}

/// The proof of the command of this number is refused.
fn proof_refusal<'a>(
    alloc: Global,
    why: &'a str,
    index: u64,
    digests: &[Word<'a>],
) -> Result<Report, AllocError>
    ensures { IfOk result (λ report. output_of report
        ≡ proof_refusal why.now index (map word_text digests.now)) }
{
    let named = [
        Word::Phrase("proof"),
        Word::Phrase(why),
        Word::Number(index),
    ];
    let mut words = Vec::from_slice(alloc, &named)?;
    words.extend_from_slice(digests)?;
    refusal_report(alloc, Status::RefusedReply, &words)
}
