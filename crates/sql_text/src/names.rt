//! Names, literals, references and sources.
ghost use Rattle.std.specs.Prelude.{◌≡◌, OnOk, IfOk, false, List, Some, Vec};
ghost use Rattle.std.specs.Str.{str_to_ascii_lowercase};
ghost use Rattle.sql_tokens.specs.Lex.{quoted_value, single_quotes};
ghost use Rattle.sql_text.specs.Parsing.{Reads, KeepsLevels, KeepsTokens};
ghost use Rattle.std.specs.Global.{Global};
ghost use Rattle.grammar.specs.Rule.{either};
ghost use Rattle.sql_tokens.specs.declared.kinds.TokenKind.TheVariants as k;
ghost use Rattle.vo_spec.specs.declared.queries.Ref.{Ref};
ghost use Rattle.sql_text.specs.Rules.{before, optional, list_of};
ghost use Rattle.sql_text.specs.Queries.{name, literal, reference, source, operator, operand, ref_of, references, source_of};

use crate::limits::MAX_ITEMS;
use crate::parse_error::ParseError;
use crate::parser::{Parser, push_parsed};
use grammar::ParseFault;
use sql_tokens::TokenKind;
use std::alloc::{AllocError, Global};
use vo_spec::{Cmp, Name, Operand, Ref, Source, Text, Value};

/// A word in small letters.
fn lower_case_of(alloc: Global, word: &[u8]) -> Result<Vec<u8>, AllocError>
    ensures { IfOk result (λ v. v.items ≡ str_to_ascii_lowercase word.now) }
{
    word.iter()
        .map(|byte| byte.to_ascii_lowercase())
        .collect(alloc)
}

/// What stands between quotes, one quote for two.
fn single_quotes(alloc: Global, text: &[u8]) -> Result<Vec<u8>, AllocError>
    ensures { IfOk result (λ v. v.items ≡ single_quotes false text.now) }
{
    let mut bytes = Vec::with_capacity(alloc, text.len())?;
    let mut is_second = false;
    for byte in text {
        if is_second && *byte == b'\'' {
            is_second = false;
        } else {
            bytes.push(*byte)?;
            is_second = *byte == b'\'';
        }
    }
    Ok(bytes)
}

/// What a text in its quotes stands for.
fn unquote(alloc: Global, text: &[u8]) -> Result<Text, AllocError>
    ensures { IfOk result (λ t. t ≡ quoted_value text.now) }
{
    if text.len() < 2 {
        return Ok(Text::from_vec(Vec::new(alloc)));
    }
    Ok(Text::from_vec(single_quotes(alloc, &text[1..text.len() - 1])?))
}

impl<'a> Parser<'a> {
    #[tactic(auto, unfolding(crate::specs::Queries::name))]
    pub fn name(&mut self, alloc: Global) -> Result<Name, ParseError>
        ensures value { Reads (λ x. x) name self.old result self.new }
        ensures levels { KeepsLevels self.old self.new }
        ensures list { KeepsTokens self.old self.new }
    {
        let token = self.expect(TokenKind::Name)?;
        Ok(Name::from_vec(lower_case_of(alloc, token.text)?))
    }

    #[tactic(auto, unfolding(crate::specs::Queries::literal))]
    pub fn literal(&mut self, alloc: Global) -> Result<Value, ParseError>
        ensures value { Reads (λ x. x) literal self.old result self.new }
        ensures levels { KeepsLevels self.old self.new }
        ensures list { KeepsTokens self.old self.new }
    {
        if self.sees(TokenKind::Integer) {
            Ok(Value::Int(self.take(TokenKind::Integer).number))
        } else if self.sees(TokenKind::RowCount) {
            Ok(Value::Int(self.take(TokenKind::RowCount).number))
        } else if self.sees(TokenKind::Quoted) {
            let token = self.take(TokenKind::Quoted);
            Ok(Value::Text(unquote(alloc, token.text)?))
        } else if self.sees(TokenKind::True) {
            self.take(TokenKind::True);
            Ok(Value::Bool(true))
        } else if self.sees(TokenKind::False) {
            self.take(TokenKind::False);
            Ok(Value::Bool(false))
        } else {
            self.expect(TokenKind::Null)?;
            Ok(Value::Null)
        }
    }

    #[tactic(auto, unfolding(crate::specs::Queries::reference, crate::specs::Rules::optional, crate::specs::Rules::before))]
    pub fn reference(&mut self, alloc: Global) -> Result<Ref, ParseError>
        ensures value { Reads (λ x. x) reference self.old result self.new }
        ensures levels { KeepsLevels self.old self.new }
        ensures list { KeepsTokens self.old self.new }
    {
        let name = self.name(alloc)?;
        if !self.sees(TokenKind::Dot) {
            return Ok(Ref {
                qualifier: None,
                column: name,
            });
        }
        self.take(TokenKind::Dot);
        let column = self.name(alloc)?;
        Ok(Ref {
            qualifier: Some(name),
            column,
        })
    }

    #[tactic(auto, unfolding(crate::specs::Queries::operator))]
    pub fn operator(&mut self) -> Result<Cmp, ParseError>
        ensures value { Reads (λ x. x) operator self.old result self.new }
        ensures levels { KeepsLevels self.old self.new }
        ensures list { KeepsTokens self.old self.new }
    {
        if self.sees(TokenKind::Equal) {
            self.take(TokenKind::Equal);
            Ok(Cmp::Eq)
        } else if self.sees(TokenKind::NotEqual) {
            self.take(TokenKind::NotEqual);
            Ok(Cmp::Ne)
        } else if self.sees(TokenKind::Less) {
            self.take(TokenKind::Less);
            Ok(Cmp::Lt)
        } else if self.sees(TokenKind::LessEqual) {
            self.take(TokenKind::LessEqual);
            Ok(Cmp::Le)
        } else if self.sees(TokenKind::Greater) {
            self.take(TokenKind::Greater);
            Ok(Cmp::Gt)
        } else {
            self.expect(TokenKind::GreaterEqual)?;
            Ok(Cmp::Ge)
        }
    }

    #[tactic(auto, unfolding(crate::specs::Queries::operand), using(crate::proofs::Firsts::first_reference))]
    pub fn operand(&mut self, alloc: Global) -> Result<Operand, ParseError>
        ensures value { Reads (λ x. x) operand self.old result self.new }
        ensures levels { KeepsLevels self.old self.new }
        ensures list { KeepsTokens self.old self.new }
    {
        if self.sees(TokenKind::Name) {
            Ok(Operand::Ref(self.reference(alloc)?))
        } else {
            Ok(Operand::Literal(self.literal(alloc)?))
        }
    }

    /// The alias behind a table's name, if it is there.
    #[tactic(auto, unfolding(crate::specs::Rules::optional, crate::specs::Rules::before), using(crate::proofs::Firsts::first_name, crate::proofs::Firsts::first_alias))]
    fn alias_if_any(&mut self, alloc: Global) -> Result<Option<Name>, ParseError>
        ensures value { Reads (λ x. x)
            (optional (either (before k.As name) name)) self.old result self.new }
        ensures levels { KeepsLevels self.old self.new }
        ensures list { KeepsTokens self.old self.new }
    {
        if self.sees(TokenKind::As) {
            self.take(TokenKind::As);
            Ok(Some(self.name(alloc)?))
        } else if self.sees(TokenKind::Name) {
            Ok(Some(self.name(alloc)?))
        } else {
            Ok(None)
        }
    }

    #[tactic(auto, unfolding(crate::specs::Queries::source))]
    pub fn source(&mut self, alloc: Global) -> Result<Source, ParseError>
        ensures value { Reads (λ x. x) source self.old result self.new }
        ensures levels { KeepsLevels self.old self.new }
        ensures list { KeepsTokens self.old self.new }
    {
        let table = self.name(alloc)?;
        let alias = match self.alias_if_any(alloc)? {
            Some(alias) => alias,
            None => Name::from_vec(Vec::from_slice(alloc, table.as_bytes())?),
        };
        Ok(Source { table, alias })
    }

    /// A comma, and a reference.
    #[tactic(auto, unfolding(crate::specs::Rules::before))]
    fn next_reference(&mut self, alloc: Global) -> Result<Ref, ParseError>
        ensures value { Reads (λ x. x) (before k.Comma reference) self.old result self.new }
        ensures levels { KeepsLevels self.old self.new }
        ensures list { KeepsTokens self.old self.new }
    {
        self.expect(TokenKind::Comma)?;
        self.reference(alloc)
    }

    /// References, at most 64.
    pub fn references(&mut self, alloc: Global) -> Result<Vec<Ref>, ParseError>
        ensures value { Reads (λ (v : Vec Ref Global). v.items)
            references self.old result self.new }
        ensures levels { KeepsLevels self.old self.new }
        ensures list { KeepsTokens self.old self.new }
    {
        let mut list = push_parsed(Vec::new(alloc), self.reference(alloc))?;
        'parts: while self.sees(TokenKind::Comma) {
            if list.len() == MAX_ITEMS {
                return Err(ParseError::Fault(ParseFault::TooMany));
            }
            list = push_parsed(list, self.next_reference(alloc))?;
        }
        Ok(list)
    }
}
