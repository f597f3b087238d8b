//! A parser over a list of tokens, one token ahead.
ghost use Rattle.std.specs.Prelude.{◌≡◌, ◌+◌, ◌<◌, [], ◌∷◌, true, Ok, Err, IfOk, OnOk};
ghost use Rattle.sql_text.specs.Parsing.{Appends};

use crate::parse_error::ParseError;
use grammar::ParseFault;
use sql_tokens::{Lexeme, TokenKind};

/// The tokens, the place of the next one, and how many levels of conditions may still be opened.
#[derive(Drop)]
pub struct Parser<'a> {
    pub list: &'a [Lexeme<'a>],
    pub place: usize,
    pub levels: usize,
}

/// The list with the part that was read at its end.
pub fn push_parsed<T: Drop>(
    mut list: Vec<T>,
    part: Result<T, ParseError>,
) -> Result<Vec<T>, ParseError>
    ensures { Appends list.items part result }
{
    list.push(part?)?;
    Ok(list)
}

impl<'a> Parser<'a> {
    ghost use Rattle.grammar.specs.Rule.{token};
    ghost use Rattle.grammar.specs.Reading.{begins, take_token};
    ghost use Rattle.sql_tokens.specs.Lex.{token_of};
    ghost use Rattle.sql_text.specs.Tokens.{sql};
    ghost use Rattle.sql_text.specs.Parsing.{left_of, first_of, Reads, KeepsLevels, KeepsTokens};

    /// Whether the next token is of this kind.
    pub fn sees(&self, kind: TokenKind) -> bool
        ensures { result ≡ begins sql (kind ∷ []) (left_of self.now) }
    {
        match self.list.get(self.place) {
            Some(next) => next.kind.is(kind),
            None => false,
        }
    }

    /// The next token, which is of this kind.
    pub fn take(&mut self, kind: TokenKind) -> Lexeme<'a>
        requires { begins sql (kind ∷ []) (left_of self.old) ≡ true }
        ensures value { take_token sql kind (left_of self.old)
            ≡ (Ok (token_of result), left_of self.new) }
        ensures levels { KeepsLevels self.old self.new }
        ensures list { KeepsTokens self.old self.new }
    {
        let next = self.list[self.place];
        self.place += 1;
        next
    }

    /// The next token, if it is of this kind.
    pub fn expect(&mut self, kind: TokenKind) -> Result<Lexeme<'a>, ParseError>
        ensures value { Reads token_of (token kind) self.old result self.new }
        ensures levels { KeepsLevels self.old self.new }
        ensures list { KeepsTokens self.old self.new }
    {
        if self.sees(kind) {
            Ok(self.take(kind))
        } else {
            Err(ParseError::Fault(ParseFault::Syntax))
        }
    }

    /// The value that was read, with a token of this kind behind it.
    pub fn then_expect<T: Drop>(&mut self, found: T, kind: TokenKind) -> Result<T, ParseError>
        ensures value { Reads {B = T} (λ x. first_of (left_of self.old))
            (token kind) self.old result self.new }
        ensures same { IfOk result (λ x. x ≡ found) }
        ensures levels { KeepsLevels self.old self.new }
        ensures list { KeepsTokens self.old self.new }
    {
        self.expect(kind)?;
        Ok(found)
    }
}
