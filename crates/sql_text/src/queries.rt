//! Queries.
ghost use Rattle.std.specs.Prelude.{◌≡◌, Ok, OnOk, option_map};
ghost use Rattle.grammar.specs.Rule.{token, both};
ghost use Rattle.grammar.specs.Reading.{read, reader};
ghost use Rattle.sql_tokens.specs.Lex.{token_of};
ghost use Rattle.sql_tokens.specs.declared.kinds.TokenKind.TheVariants as k;
ghost use Rattle.vo_spec.specs.Conditions.{condition_of, query_of};
ghost use Rattle.sql_text.specs.Tokens.{sql};
ghost use Rattle.sql_text.specs.Parsing.{left_of, Reads, KeepsLevels, KeepsTokens};
ghost use Rattle.sql_text.specs.Rules.{before, optional, flag};
ghost use Rattle.sql_text.specs.Queries.{source, items, clauses_to_end, query, conditions_of};

use crate::parse_error::ParseError;
use crate::parser::Parser;
use sql_tokens::{Lexeme, TokenKind};
use std::alloc::Global;
use vo_spec::{Cond, Items, Join, List, QueryText, Source};

impl<'a> Parser<'a> {
    /// A token of this kind, if it is next.
    #[tactic(auto, unfolding(crate::specs::Rules::optional))]
    pub fn skip(&mut self, kind: TokenKind) -> Option<Lexeme<'a>>
        ensures value { read (reader conditions_of self.old.levels) (optional (token kind))
            (left_of self.old) ≡ (Ok (option_map token_of result), left_of self.new) }
        ensures levels { KeepsLevels self.old self.new }
        ensures list { KeepsTokens self.old self.new }
    {
        if self.sees(kind) {
            Some(self.take(kind))
        } else {
            None
        }
    }

    /// Whether a token of this kind is next, which is then taken.
    #[tactic(auto, unfolding(crate::specs::Rules::flag))]
    pub fn takes(&mut self, kind: TokenKind) -> bool
        ensures value { read (reader conditions_of self.old.levels) (flag kind)
            (left_of self.old) ≡ (Ok result, left_of self.new) }
        ensures levels { KeepsLevels self.old self.new }
        ensures list { KeepsTokens self.old self.new }
    {
        let is_next = self.sees(kind);
        if is_next {
            self.take(kind);
        }
        is_next
    }

    #[tactic(auto, unfolding(crate::specs::Queries::items))]
    fn items(&mut self, alloc: Global) -> Result<Items, ParseError>
        ensures value { Reads (λ x. x) items self.old result self.new }
        ensures levels { KeepsLevels self.old self.new }
        ensures list { KeepsTokens self.old self.new }
    {
        if self.sees(TokenKind::Star) {
            self.take(TokenKind::Star);
            Ok(Items::All)
        } else {
            Ok(Items::Refs(List::from_vec(self.references(alloc)?)))
        }
    }

    /// SELECT items
    #[tactic(auto, unfolding(crate::specs::Rules::before))]
    fn select_clause(&mut self, alloc: Global) -> Result<Items, ParseError>
        ensures value { Reads (λ x. x) (before k.Select items) self.old result self.new }
        ensures levels { KeepsLevels self.old self.new }
        ensures list { KeepsTokens self.old self.new }
    {
        self.expect(TokenKind::Select)?;
        self.items(alloc)
    }

    /// FROM source
    #[tactic(auto, unfolding(crate::specs::Rules::before))]
    fn from_clause(&mut self, alloc: Global) -> Result<Source, ParseError>
        ensures value { Reads (λ x. x) (before k.From source) self.old result self.new }
        ensures levels { KeepsLevels self.old self.new }
        ensures list { KeepsTokens self.old self.new }
    {
        self.expect(TokenKind::From)?;
        self.source(alloc)
    }

    /// FROM source clauses [;]
    fn from_to_end(
        &mut self,
        alloc: Global,
    ) -> Result<(Source, Option<Join>, Option<Cond>, Option<u32>), ParseError>
        ensures value { Reads (λ x. (x.0, (x.1, option_map condition_of x.2, x.3)))
            (both (before k.From source) clauses_to_end) self.old result self.new }
        ensures list { KeepsTokens self.old self.new }
    {
        let left = self.from_clause(alloc)?;
        let (join, cond, limit) = self.clauses_to_end(alloc)?;
        Ok((left, join, cond, limit))
    }

    #[tactic(auto, unfolding(crate::specs::Queries::query))]
    pub fn query(&mut self, alloc: Global) -> Result<QueryText, ParseError>
        ensures value { Reads query_of query self.old result self.new }
        ensures list { KeepsTokens self.old self.new }
    {
        let items = self.select_clause(alloc)?;
        let (left, join, cond, limit) = self.from_to_end(alloc)?;
        Ok(QueryText {
            items,
            left,
            join,
            cond,
            limit,
        })
    }
}
