//! The text that bytes are, and the query or the script that a text is.
ghost use Rattle.std.specs.Prelude.{IfOk, Vec};
ghost use Rattle.std.specs.Global.{Global};
ghost use Rattle.vo_spec.specs.Conditions.{query_of};
ghost use Rattle.vo_spec.specs.declared.tables.Batch.{Batch};
ghost use Rattle.owner_state.specs.Sealing.{FitEach};
ghost use Rattle.sql_text.specs.Scripts.{IsScript};
ghost use Rattle.vo_commands.specs.Expected.{with_text};
ghost use Rattle.vo_commands.specs.Reports.{GoesOn, ReadsText, StaysInside};
ghost use Rattle.vo_commands.specs.Texts.{IsQueryText, IsRefusedQuery, IsRefusedScript};

use crate::piece::Word;
use crate::refusals::refusal_report;
use crate::report::{Status, Stop};
use crate::text_refusals::stop_after;
use sql_text::{parse_query, parse_script};
use std::alloc::Global;
use vo_spec::{Batch, QueryText};

/// The text that the bytes are.
pub fn text_in(alloc: Global, bytes: &[u8]) -> Result<&str, Stop>
    ensures known { GoesOn (λ text. text.now) (λ rest. with_text rest bytes.now) result }
    ensures inside { StaysInside result }
{
    match std::str::from_utf8(bytes) {
        Ok(text) => Ok(text),
        Err(_) => {
            let words = [Word::Phrase("not text")];
            Err(Stop::Refused(refusal_report(alloc, Status::RefusedInput, &words)?))
        }
    }
}

/// The query that the text is.
pub fn query_in(alloc: Global, text: &str) -> Result<QueryText, Stop>
    ensures { ReadsText query_of (IsQueryText text.now) (IsRefusedQuery text.now) result }
{
    match parse_query(alloc, text) {
        Ok(query) => Ok(query),
        Err(fault) => Err(stop_after(alloc, fault)?),
    }
}

/// The batches of the script that the text is.
#[tactic(auto, using(crate::proofs::TextSteps::each_fits))]
pub fn batches_in(alloc: Global, text: &str) -> Result<Vec<Batch>, Stop>
    ensures known { ReadsText (λ (v : Vec Batch Global). v.items) (IsScript text.now)
        (IsRefusedScript text.now) result }
    ensures fit { IfOk result (λ (v : Vec Batch Global). FitEach v.items) }
{
    match parse_script(alloc, text) {
        Ok(batches) => Ok(batches),
        Err(fault) => Err(stop_after(alloc, fault)?),
    }
}
