//! Whole texts.
ghost use Rattle.std.specs.Prelude.{◌≡◌, drop, map, IfOk};
ghost use Rattle.sql_tokens.specs.Lex.{placed_of};
ghost use Rattle.vo_spec.specs.Conditions.{Query, query_of, FitsQuery};
ghost use Rattle.vo_spec.specs.declared.tables.Batch.{Batch};
ghost use Rattle.sql_text.specs.Queries.{query};
ghost use Rattle.sql_text.specs.Commands.{batch};
ghost use Rattle.sql_text.specs.Limits.{max_nesting, max_sql_bytes};
ghost use Rattle.sql_text.specs.Texts.{expect_end, IsTextOf, AnswersText, Accepts};
ghost use Rattle.sql_text.specs.Fits.{FitCommands};
ghost use Rattle.sql_text.specs.Printable.{PrintableQuery};

use crate::faults::{SqlFault, of_tokens};
use crate::limits::{MAX_NESTING, MAX_SQL_BYTES};
use crate::parse_error::ParseError;
use crate::parser::Parser;
use grammar::ParseFault;
use sql_tokens::{Lexeme, tokens};
use std::alloc::Global;
use vo_spec::{Batch, QueryText};

impl<'a> Parser<'a> {
    /// A parser at the first of these tokens.
    pub fn new(list: &'a [Lexeme<'a>]) -> Parser<'a>
        ensures list { result.list.now ≡ list.now }
        ensures place { result.place ≡ 0 }
        ensures levels { result.levels ≡ max_nesting }
    {
        Parser {
            list,
            place: 0,
            levels: MAX_NESTING,
        }
    }

    /// The tokens that are left.
    #[tactic(auto, using(crate::proofs::AnswerLaws::drop_all))]
    pub fn left(&self) -> &'a [Lexeme<'a>]
        ensures { result.now ≡ drop self.now.place self.now.list.now }
    {
        let (_, left) = self.list.split_at(self.place.min(self.list.len()));
        left
    }
}

/// The answer by what the parser found: a text has no tokens behind its value.
pub fn expect_end<T: Drop>(
    found: Result<T, ParseError>,
    left: &[Lexeme<'_>],
    end: usize,
) -> Result<T, SqlFault>
    ensures { result ≡ expect_end found (map placed_of left.now) end }
{
    let place = match left.first() {
        Some(next) => next.at,
        None => end,
    };
    match found {
        Ok(value) if left.is_empty() => Ok(value),
        Ok(_) => Err(SqlFault::Syntax { at: place }),
        Err(ParseError::Memory) => Err(SqlFault::Memory),
        Err(ParseError::Fault(ParseFault::Syntax)) => Err(SqlFault::Syntax { at: place }),
        Err(ParseError::Fault(ParseFault::Nesting)) => Err(SqlFault::Nesting),
        Err(ParseError::Fault(ParseFault::TooMany)) => Err(SqlFault::TooMany),
    }
}

/// The query that a text is, or the text's first fault.
pub fn parse_query(alloc: Global, text: &str) -> Result<QueryText, SqlFault>
    ensures found { AnswersText query_of max_sql_bytes query text.now result }
    ensures only { (q : Query) → IsTextOf max_sql_bytes query text.now q
        → Accepts query_of result q }
    ensures fits { IfOk result (λ q. FitsQuery (query_of q)) }
    ensures printable { IfOk result (λ q. PrintableQuery (query_of q)) }
{
    let bytes = text.as_bytes();
    if bytes.len() > MAX_SQL_BYTES {
        return Err(SqlFault::TooLong);
    }
    let list = match tokens(alloc, bytes) {
        Ok(list) => list,
        Err(fault) => return Err(of_tokens(fault)),
    };
    let mut parser = Parser::new(list.as_slice());
    let found = parser.query(alloc);
    expect_end(found, parser.left(), bytes.len())
}

/// The batch that a text is, or the text's first fault.
pub fn parse_batch(alloc: Global, text: &str) -> Result<Batch, SqlFault>
    ensures found { AnswersText (λ x. x) max_sql_bytes batch text.now result }
    ensures only { (b : Batch) → IsTextOf max_sql_bytes batch text.now b
        → Accepts (λ x. x) result b }
    ensures fits { IfOk result (λ b. FitCommands b.commands) }
{
    let bytes = text.as_bytes();
    if bytes.len() > MAX_SQL_BYTES {
        return Err(SqlFault::TooLong);
    }
    let list = match tokens(alloc, bytes) {
        Ok(list) => list,
        Err(fault) => return Err(of_tokens(fault)),
    };
    let mut parser = Parser::new(list.as_slice());
    let found = parser.batch(alloc);
    expect_end(found, parser.left(), bytes.len())
}
