//! Conditions, by recursive descent. A level is one NOT or one opening parenthesis.
ghost use Rattle.std.specs.Prelude.{◌≡◌, ◌+◌, ◌<◌, [], ◌∷◌, true, false, map, OnOk, OnErr, IfOk, Ok, Err, length};
ghost use Rattle.vo_spec.specs.Conditions.{condition_of};
ghost use Rattle.grammar.specs.Reading.{begins, take_token};
ghost use Rattle.sql_tokens.specs.declared.kinds.TokenKind.TheVariants as k;
ghost use Rattle.sql_tokens.specs.Lex.{token_of};
ghost use Rattle.sql_text.specs.Tokens.{sql};
ghost use Rattle.sql_text.specs.Parsing.{left_of, Reads, KeepsLevels, KeepsTokens};
ghost use Rattle.sql_text.specs.Queries.{null_clause, name_test, prim, conj, disj, all_of, any_of};

use crate::parse_error::ParseError;
use crate::parser::{Parser, push_parsed};
use grammar::ParseFault;
use sql_tokens::{Lexeme, TokenKind};
use std::alloc::Global;
use vo_spec::{Cond, List};

/// One part is itself.
fn all_of(mut parts: Vec<Cond>) -> Cond
    requires { 0 < length parts.items }
    ensures { condition_of result ≡ all_of (map condition_of parts.items) }
{
    if parts.len() == 1
        && let Some(part) = parts.pop()
    {
        return part;
    }
    Cond::All(List::from_vec(parts))
}

/// One part is itself.
fn any_of(mut parts: Vec<Cond>) -> Cond
    requires { 0 < length parts.items }
    ensures { condition_of result ≡ any_of (map condition_of parts.items) }
{
    if parts.len() == 1
        && let Some(part) = parts.pop()
    {
        return part;
    }
    Cond::Any(List::from_vec(parts))
}

impl<'a> Parser<'a> {
    /// IS [NOT] NULL: whether NOT is there.
    #[tactic(auto, unfolding(crate::specs::Queries::null_clause, crate::specs::Rules::before, crate::specs::Rules::followed_by))]
    fn null_clause(&mut self) -> Result<bool, ParseError>
        ensures value { Reads (λ x. x) null_clause self.old result self.new }
        ensures levels { KeepsLevels self.old self.new }
        ensures list { KeepsTokens self.old self.new }
    {
        self.expect(TokenKind::Is)?;
        let negated = self.takes(TokenKind::Not);
        self.then_expect(negated, TokenKind::Null)
    }

    #[tactic(auto, unfolding(crate::specs::Queries::name_test, crate::specs::Queries::test_end), using(crate::proofs::Firsts::first_null_clause))]
    fn test(&mut self, alloc: Global) -> Result<Cond, ParseError>
        ensures value { Reads condition_of name_test self.old result self.new }
        ensures levels { KeepsLevels self.old self.new }
        ensures list { KeepsTokens self.old self.new }
    {
        let left = self.reference(alloc)?;
        if self.sees(TokenKind::Is) {
            let negated = self.null_clause()?;
            return Ok(Cond::IsNull { left, negated });
        }
        let op = self.operator()?;
        let right = self.operand(alloc)?;
        Ok(Cond::Test { left, op, right })
    }

    /// The token that opens a level, which is next.
    fn open(&mut self, kind: TokenKind) -> Result<Lexeme<'a>, ParseError>
        requires { begins sql (kind ∷ []) (left_of self.old) ≡ true }
        ensures opened { IfOk result
            (λ x. take_token sql kind (left_of self.old) ≡ (Ok (token_of x), left_of self.new)) }
        ensures levels { OnOk result (self.new.levels + 1 ≡ self.old.levels) }
        ensures deep { OnErr result
            ((result ≡ Err (ParseError.Fault ParseFault.Nesting)) × (self.old.levels ≡ 0)
            × (left_of self.new ≡ left_of self.old)) }
        ensures list { KeepsTokens self.old self.new }
    {
        if self.levels == 0 {
            return Err(ParseError::Fault(ParseFault::Nesting));
        }
        self.levels -= 1;
        Ok(self.take(kind))
    }

    /// NOT, which is next, and its part.
    #[cycle(cond)]
    #[tactic(auto, using(crate::proofs::Conds::prims))]
    fn negation(&mut self, alloc: Global) -> Result<Cond, ParseError>
        requires { begins sql (k.Not ∷ []) (left_of self.old) ≡ true }
        ensures value { Reads condition_of prim self.old result self.new }
        ensures levels { OnOk result (KeepsLevels self.old self.new) }
        ensures list { KeepsTokens self.old self.new }
    {
        let levels = self.levels;
        self.open(TokenKind::Not)?;
        let part = self.prim(alloc)?;
        self.levels = levels;
        Ok(Cond::Not(Box::new(alloc, part)?))
    }

    /// A condition in parentheses, the first of which is next.
    #[cycle(cond)]
    #[tactic(auto, using(crate::proofs::Conds::prims))]
    fn condition_in_parens(&mut self, alloc: Global) -> Result<Cond, ParseError>
        requires other { begins sql (k.Not ∷ []) (left_of self.old) ≡ false }
        requires next { begins sql (k.LeftParen ∷ []) (left_of self.old) ≡ true }
        ensures value { Reads condition_of prim self.old result self.new }
        ensures levels { OnOk result (KeepsLevels self.old self.new) }
        ensures list { KeepsTokens self.old self.new }
    {
        let levels = self.levels;
        self.open(TokenKind::LeftParen)?;
        let whole = self.disj(alloc)?;
        self.levels = levels;
        self.then_expect(whole, TokenKind::RightParen)
    }

    #[cycle(cond)]
    #[tactic(auto, using(crate::proofs::Conds::prims))]
    fn prim(&mut self, alloc: Global) -> Result<Cond, ParseError>
        ensures value { Reads condition_of prim self.old result self.new }
        ensures levels { OnOk result (KeepsLevels self.old self.new) }
        ensures list { KeepsTokens self.old self.new }
    {
        if self.sees(TokenKind::Not) {
            self.negation(alloc)
        } else if self.sees(TokenKind::LeftParen) {
            self.condition_in_parens(alloc)
        } else {
            self.test(alloc)
        }
    }

    #[cycle(cond)]
    fn conj(&mut self, alloc: Global) -> Result<Cond, ParseError>
        ensures value { Reads condition_of conj self.old result self.new }
        ensures levels { OnOk result (KeepsLevels self.old self.new) }
        ensures list { KeepsTokens self.old self.new }
    {
        let mut parts = push_parsed(Vec::new(alloc), self.prim(alloc))?;
        while self.sees(TokenKind::And) {
            self.take(TokenKind::And);
            parts = push_parsed(parts, self.prim(alloc))?;
        }
        Ok(all_of(parts))
    }

    #[cycle(cond)]
    pub fn disj(&mut self, alloc: Global) -> Result<Cond, ParseError>
        ensures value { Reads condition_of disj self.old result self.new }
        ensures levels { OnOk result (KeepsLevels self.old self.new) }
        ensures list { KeepsTokens self.old self.new }
    {
        let mut parts = push_parsed(Vec::new(alloc), self.conj(alloc))?;
        while self.sees(TokenKind::Or) {
            self.take(TokenKind::Or);
            parts = push_parsed(parts, self.conj(alloc))?;
        }
        Ok(any_of(parts))
    }
}
