//! Whole scripts.
ghost use Rattle.std.specs.Prelude.{◌≡◌, ◌<◌, ◌≤◌, ◌^◌, length, Bool, List, map, Vec, false, IfOk};
ghost use Rattle.std.specs.Global.{Global};
ghost use Rattle.std.specs.List.{AllByRecursion};
ghost use Rattle.sql_tokens.specs.Lex.{placed_of};
ghost use Rattle.vo_spec.specs.declared.tables.Batch.{Batch};
ghost use Rattle.sql_text.specs.Texts.{Accepts};
ghost use Rattle.sql_text.specs.Scripts.{IsScript, AnswersScript, short_len, ended_script};
ghost use Rattle.sql_text.specs.Fits.{AllFit};

use crate::faults::{SqlFault, of_tokens};
use crate::limits::{MAX_SCRIPT_BYTES, MAX_SQL_BYTES};
use crate::parse_error::ParseError;
use crate::parser::Parser;
use crate::texts::expect_end;
use sql_tokens::{Lexeme, TokenKind, tokens};
use std::alloc::Global;
use vo_spec::Batch;

/// How many tokens stand before the first semicolon that closes a batch of too many bytes.
fn short_len(list: &[Lexeme<'_>]) -> usize
    requires places { AllByRecursion (λ p. p.at < 2 ^ 63) (map placed_of list.now) }
    ensures within { result ≤ length list.now }
    ensures value { result ≡ short_len 0 false (map placed_of list.now) }
{
    let mut start = 0;
    let mut is_committed = false;
    let mut place = 0;
    'tokens: while place < list.len() {
        let next = list[place];
        if is_committed && next.kind.is(TokenKind::Semicolon) {
            if next.at.saturating_sub(start) > MAX_SQL_BYTES {
                return place;
            }
            start = next.at + 1;
            is_committed = false;
        } else {
            is_committed = next.kind.is(TokenKind::Commit);
        }
        place += 1;
    }
    place
}

/// The answer for a script by what was found in the tokens before a batch of too many bytes closes,
/// if one does.
fn ended_script<T: Drop>(
    is_whole: bool,
    found: Result<T, ParseError>,
    left: &[Lexeme<'_>],
    end: usize,
) -> Result<T, SqlFault>
    ensures { result ≡ ended_script is_whole found (map placed_of left.now) end }
{
    match found {
        Err(ParseError::Memory) => Err(SqlFault::Memory),
        _ if !is_whole && left.is_empty() => Err(SqlFault::TooLong),
        found => expect_end(found, left, end),
    }
}

/// The batches that a script is, or its first fault.
pub fn parse_script(alloc: Global, text: &str) -> Result<Vec<Batch>, SqlFault>
    ensures found { AnswersScript (λ (v : Vec Batch Global). v.items) text.now result }
    ensures only { (batches : List Batch) → IsScript text.now batches
        → Accepts (λ (v : Vec Batch Global). v.items) result batches }
    ensures fits { IfOk result (λ (v : Vec Batch Global). AllFit v.items) }
{
    let bytes = text.as_bytes();
    if bytes.len() > MAX_SCRIPT_BYTES {
        return Err(SqlFault::TooLong);
    }
    let list = match tokens(alloc, bytes) {
        Ok(list) => list,
        Err(fault) => return Err(of_tokens(fault)),
    };
    let all = list.as_slice();
    let (short, long) = all.split_at(short_len(all));
    let mut parser = Parser::new(short);
    let found = parser.script(alloc);
    ended_script(long.is_empty(), found, parser.left(), bytes.len())
}
