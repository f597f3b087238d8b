//! What stands behind a query's first source: a join, a condition and a limit.
ghost use Rattle.std.specs.Prelude.{◌≡◌, OnOk, option_map};
ghost use Rattle.sql_tokens.specs.declared.kinds.TokenKind.TheVariants as k;
ghost use Rattle.vo_spec.specs.Conditions.{condition_of};
ghost use Rattle.sql_text.specs.Parsing.{Reads, KeepsLevels, KeepsTokens};
ghost use Rattle.sql_text.specs.Rules.{before, optional};
ghost use Rattle.sql_text.specs.Queries.{reference, on_clause, join, disj, rows_of, limit_clause, joined_clauses, single_clauses, clauses, clauses_to_end};

use crate::parse_error::ParseError;
use crate::parser::Parser;
use sql_tokens::TokenKind;
use std::alloc::Global;
use vo_spec::{Cond, Join, Ref};

/// How many rows the integer behind LIMIT is.
fn rows_of(number: i64) -> u32
    ensures { result ≡ rows_of number }
{
    number.unsigned_abs().min(u64::from(u32::MAX)) as u32
}

impl<'a> Parser<'a> {
    /// = reference
    #[tactic(auto, unfolding(crate::specs::Rules::before))]
    fn equal_reference(&mut self, alloc: Global) -> Result<Ref, ParseError>
        ensures value { Reads (λ x. x) (before k.Equal reference) self.old result self.new }
        ensures levels { KeepsLevels self.old self.new }
        ensures list { KeepsTokens self.old self.new }
    {
        self.expect(TokenKind::Equal)?;
        self.reference(alloc)
    }

    /// ON reference = reference
    #[tactic(auto, unfolding(crate::specs::Queries::on_clause, crate::specs::Rules::before))]
    fn on_clause(&mut self, alloc: Global) -> Result<(Ref, Ref), ParseError>
        ensures value { Reads (λ x. x) on_clause self.old result self.new }
        ensures levels { KeepsLevels self.old self.new }
        ensures list { KeepsTokens self.old self.new }
    {
        self.expect(TokenKind::On)?;
        let left = self.reference(alloc)?;
        let right = self.equal_reference(alloc)?;
        Ok((left, right))
    }

    #[tactic(auto, unfolding(crate::specs::Queries::join, crate::specs::Rules::before))]
    fn join(&mut self, alloc: Global) -> Result<Join, ParseError>
        ensures value { Reads (λ x. x) join self.old result self.new }
        ensures levels { KeepsLevels self.old self.new }
        ensures list { KeepsTokens self.old self.new }
    {
        self.skip(TokenKind::Inner);
        self.expect(TokenKind::Join)?;
        let right = self.source(alloc)?;
        let (left_ref, right_ref) = self.on_clause(alloc)?;
        Ok(Join {
            right,
            left_ref,
            right_ref,
        })
    }

    #[tactic(auto, unfolding(crate::specs::Rules::optional, crate::specs::Rules::before))]
    fn condition_if_any(&mut self, alloc: Global) -> Result<Option<Cond>, ParseError>
        ensures value { Reads (option_map condition_of)
            (optional (before k.Where disj)) self.old result self.new }
        ensures levels { OnOk result (KeepsLevels self.old self.new) }
        ensures list { KeepsTokens self.old self.new }
    {
        if self.sees(TokenKind::Where) {
            self.take(TokenKind::Where);
            Ok(Some(self.disj(alloc)?))
        } else {
            Ok(None)
        }
    }

    /// LIMIT rows
    #[tactic(auto, unfolding(crate::specs::Queries::limit_clause, crate::specs::Rules::before))]
    fn limit_clause(&mut self) -> Result<u32, ParseError>
        ensures value { Reads (λ x. x) limit_clause self.old result self.new }
        ensures levels { KeepsLevels self.old self.new }
        ensures list { KeepsTokens self.old self.new }
    {
        self.expect(TokenKind::Limit)?;
        Ok(rows_of(self.expect(TokenKind::RowCount)?.number))
    }

    #[tactic(auto, unfolding(crate::specs::Rules::optional), using(crate::proofs::Firsts::first_limit))]
    fn limit_if_any(&mut self) -> Result<Option<u32>, ParseError>
        ensures value { Reads (λ x. x) (optional limit_clause) self.old result self.new }
        ensures levels { KeepsLevels self.old self.new }
        ensures list { KeepsTokens self.old self.new }
    {
        if self.sees(TokenKind::Limit) {
            Ok(Some(self.limit_clause()?))
        } else {
            Ok(None)
        }
    }

    /// join [ WHERE cond ]
    #[tactic(auto, unfolding(crate::specs::Queries::joined_clauses))]
    fn joined_clauses(
        &mut self,
        alloc: Global,
    ) -> Result<(Option<Join>, Option<Cond>, Option<u32>), ParseError>
        ensures value { Reads (λ x. (x.0, option_map condition_of x.1, x.2))
            joined_clauses self.old result self.new }
        ensures levels { OnOk result (KeepsLevels self.old self.new) }
        ensures list { KeepsTokens self.old self.new }
    {
        let join = self.join(alloc)?;
        let cond = self.condition_if_any(alloc)?;
        Ok((Some(join), cond, None))
    }

    /// [ WHERE cond ] [ LIMIT rows ]
    #[tactic(auto, unfolding(crate::specs::Queries::single_clauses))]
    fn single_clauses(
        &mut self,
        alloc: Global,
    ) -> Result<(Option<Join>, Option<Cond>, Option<u32>), ParseError>
        ensures value { Reads (λ x. (x.0, option_map condition_of x.1, x.2))
            single_clauses self.old result self.new }
        ensures levels { OnOk result (KeepsLevels self.old self.new) }
        ensures list { KeepsTokens self.old self.new }
    {
        let cond = self.condition_if_any(alloc)?;
        let limit = self.limit_if_any()?;
        Ok((None, cond, limit))
    }

    #[tactic(auto, unfolding(crate::specs::Queries::clauses), using(crate::proofs::Firsts::first_joined))]
    fn clauses(
        &mut self,
        alloc: Global,
    ) -> Result<(Option<Join>, Option<Cond>, Option<u32>), ParseError>
        ensures value { Reads (λ x. (x.0, option_map condition_of x.1, x.2))
            clauses self.old result self.new }
        ensures levels { OnOk result (KeepsLevels self.old self.new) }
        ensures list { KeepsTokens self.old self.new }
    {
        if self.sees(TokenKind::Inner) || self.sees(TokenKind::Join) {
            self.joined_clauses(alloc)
        } else {
            self.single_clauses(alloc)
        }
    }

    /// clauses [;]
    #[tactic(auto, unfolding(crate::specs::Queries::clauses_to_end))]
    pub fn clauses_to_end(
        &mut self,
        alloc: Global,
    ) -> Result<(Option<Join>, Option<Cond>, Option<u32>), ParseError>
        ensures value { Reads (λ x. (x.0, option_map condition_of x.1, x.2))
            clauses_to_end self.old result self.new }
        ensures list { KeepsTokens self.old self.new }
    {
        let clauses = self.clauses(alloc)?;
        self.skip(TokenKind::Semicolon);
        Ok(clauses)
    }
}
