//! Commands and batches.
ghost use Rattle.std.specs.Prelude.{◌≡◌, OnOk, option_map, Some, Vec};
ghost use Rattle.std.specs.Global.{Global};
ghost use Rattle.grammar.specs.Rule.{token, both};
ghost use Rattle.grammar.specs.Checks.{first};
ghost use Rattle.grammar.specs.Reading.{begins};
ghost use Rattle.sql_tokens.specs.Lex.{token_of};
ghost use Rattle.sql_tokens.specs.declared.kinds.TokenKind.TheVariants as k;
ghost use Rattle.vo_spec.specs.declared.values.Value.{Value};
ghost use Rattle.vo_spec.specs.declared.tables.Column.{Column};
ghost use Rattle.vo_spec.specs.declared.tables.SetPart.{SetPart};
ghost use Rattle.vo_spec.specs.declared.tables.Command.{Command};
ghost use Rattle.vo_spec.specs.declared.tables.Batch.{Batch};
ghost use Rattle.sql_text.specs.Tokens.{sql};
ghost use Rattle.sql_text.specs.Parsing.{left_of, Reads, KeepsLevels, KeepsTokens};
ghost use Rattle.sql_text.specs.Rules.{before, followed_by, in_parens, list_of, list_to_end};
ghost use Rattle.sql_text.specs.Queries.{name, literal};
ghost use Rattle.sql_text.specs.Commands.{column_kind, null_mark, column, columns, key_clause, create, drop_table, literals, insert, set_part, set_parts, update, delete, command, commands, batch, script};

use crate::parse_error::ParseError;
use crate::parser::{Parser, push_parsed};
use grammar::ParseFault;
use sql_tokens::{Lexeme, TokenKind};
use std::alloc::Global;
use vo_spec::{
    Batch, Column, Command, Kind, List, MAX_COLUMNS, MAX_COMMANDS, Name, SetPart, Value,
};

impl<'a> Parser<'a> {
    #[tactic(auto, unfolding(crate::specs::Commands::column_kind))]
    fn column_kind(&mut self) -> Result<Kind, ParseError>
        ensures value { Reads (λ x. x) column_kind self.old result self.new }
        ensures levels { KeepsLevels self.old self.new }
        ensures list { KeepsTokens self.old self.new }
    {
        if self.sees(TokenKind::Bigint) {
            self.take(TokenKind::Bigint);
            Ok(Kind::Int)
        } else if self.sees(TokenKind::Text) {
            self.take(TokenKind::Text);
            Ok(Kind::Text)
        } else {
            self.expect(TokenKind::Boolean)?;
            Ok(Kind::Bool)
        }
    }

    /// NOT NULL, NULL or no mark: whether the column is nullable.
    #[tactic(auto, unfolding(crate::specs::Commands::null_mark, crate::specs::Rules::before))]
    fn null_mark(&mut self) -> Result<bool, ParseError>
        ensures value { Reads (λ x. x) null_mark self.old result self.new }
        ensures levels { KeepsLevels self.old self.new }
        ensures list { KeepsTokens self.old self.new }
    {
        if self.sees(TokenKind::Not) {
            self.take(TokenKind::Not);
            self.expect(TokenKind::Null)?;
            Ok(false)
        } else {
            Ok(self.takes(TokenKind::Null))
        }
    }

    /// A column's kind, and whether it is nullable.
    fn marked_kind(&mut self) -> Result<(Kind, bool), ParseError>
        ensures value { Reads (λ x. x) (both column_kind null_mark) self.old result self.new }
        ensures levels { KeepsLevels self.old self.new }
        ensures list { KeepsTokens self.old self.new }
    {
        let kind = self.column_kind()?;
        let nullable = self.null_mark()?;
        Ok((kind, nullable))
    }

    /// A column and the comma behind it.
    #[tactic(auto, unfolding(crate::specs::Commands::column, crate::specs::Rules::followed_by))]
    fn column(&mut self, alloc: Global) -> Result<Column, ParseError>
        ensures value { Reads (λ x. x) (followed_by column k.Comma) self.old result self.new }
        ensures levels { KeepsLevels self.old self.new }
        ensures list { KeepsTokens self.old self.new }
    {
        let name = self.name(alloc)?;
        let (kind, nullable) = self.marked_kind()?;
        let column = Column {
            name,
            kind,
            nullable,
        };
        self.then_expect(column, TokenKind::Comma)
    }

    /// Columns with a comma behind each, at most 32.
    fn columns(&mut self, alloc: Global) -> Result<Vec<Column>, ParseError>
        ensures value { Reads (λ (v : Vec Column Global). v.items)
            columns self.old result self.new }
        ensures levels { KeepsLevels self.old self.new }
        ensures list { KeepsTokens self.old self.new }
    {
        let mut list = push_parsed(Vec::new(alloc), self.column(alloc))?;
        'parts: while self.sees(TokenKind::Name) {
            if list.len() == MAX_COLUMNS {
                return Err(ParseError::Fault(ParseFault::TooMany));
            }
            list = push_parsed(list, self.column(alloc))?;
        }
        Ok(list)
    }

    /// ( name )
    #[tactic(auto, unfolding(crate::specs::Rules::before, crate::specs::Rules::in_parens, crate::specs::Rules::followed_by))]
    fn name_in_parens(&mut self, alloc: Global) -> Result<Name, ParseError>
        ensures value { Reads (λ x. x) (in_parens name) self.old result self.new }
        ensures levels { KeepsLevels self.old self.new }
        ensures list { KeepsTokens self.old self.new }
    {
        self.expect(TokenKind::LeftParen)?;
        let name = self.name(alloc)?;
        self.then_expect(name, TokenKind::RightParen)
    }

    /// PRIMARY KEY ( name )
    #[tactic(auto, unfolding(crate::specs::Commands::key_clause, crate::specs::Rules::before))]
    fn key_clause(&mut self, alloc: Global) -> Result<Name, ParseError>
        ensures value { Reads (λ x. x) key_clause self.old result self.new }
        ensures levels { KeepsLevels self.old self.new }
        ensures list { KeepsTokens self.old self.new }
    {
        self.expect(TokenKind::Primary)?;
        self.expect(TokenKind::Key)?;
        self.name_in_parens(alloc)
    }

    /// ( columns and the key )
    #[tactic(auto, unfolding(crate::specs::Rules::before, crate::specs::Rules::in_parens, crate::specs::Rules::followed_by))]
    fn table_body(&mut self, alloc: Global) -> Result<(List<Column>, Name), ParseError>
        ensures value { Reads (λ x. x)
            (in_parens (both columns key_clause)) self.old result
            self.new }
        ensures levels { KeepsLevels self.old self.new }
        ensures list { KeepsTokens self.old self.new }
    {
        self.expect(TokenKind::LeftParen)?;
        let columns = List::from_vec(self.columns(alloc)?);
        let key = self.key_clause(alloc)?;
        self.then_expect((columns, key), TokenKind::RightParen)
    }

    #[tactic(auto, unfolding(crate::specs::Commands::create, crate::specs::Rules::before))]
    fn create(&mut self, alloc: Global) -> Result<Command, ParseError>
        ensures value { Reads (λ x. x) create self.old result self.new }
        ensures levels { KeepsLevels self.old self.new }
        ensures list { KeepsTokens self.old self.new }
    {
        self.expect(TokenKind::Create)?;
        self.expect(TokenKind::Table)?;
        let name = self.name(alloc)?;
        let (columns, key) = self.table_body(alloc)?;
        Ok(Command::Create { name, columns, key })
    }

    #[tactic(auto, unfolding(crate::specs::Commands::drop_table, crate::specs::Rules::before))]
    fn drop_table(&mut self, alloc: Global) -> Result<Command, ParseError>
        ensures value { Reads (λ x. x) drop_table self.old result self.new }
        ensures levels { KeepsLevels self.old self.new }
        ensures list { KeepsTokens self.old self.new }
    {
        self.expect(TokenKind::Drop)?;
        self.expect(TokenKind::Table)?;
        let name = self.name(alloc)?;
        Ok(Command::Drop { name })
    }

    /// A comma, and a literal.
    #[tactic(auto, unfolding(crate::specs::Rules::before))]
    fn next_literal(&mut self, alloc: Global) -> Result<Value, ParseError>
        ensures value { Reads (λ x. x) (before k.Comma literal) self.old result self.new }
        ensures levels { KeepsLevels self.old self.new }
        ensures list { KeepsTokens self.old self.new }
    {
        self.expect(TokenKind::Comma)?;
        self.literal(alloc)
    }

    /// Literals, at most 32.
    fn literals(&mut self, alloc: Global) -> Result<Vec<Value>, ParseError>
        ensures value { Reads (λ (v : Vec Value Global). v.items)
            literals self.old result self.new }
        ensures levels { KeepsLevels self.old self.new }
        ensures list { KeepsTokens self.old self.new }
    {
        let mut list = push_parsed(Vec::new(alloc), self.literal(alloc))?;
        'parts: while self.sees(TokenKind::Comma) {
            if list.len() == MAX_COLUMNS {
                return Err(ParseError::Fault(ParseFault::TooMany));
            }
            list = push_parsed(list, self.next_literal(alloc))?;
        }
        Ok(list)
    }

    /// ( literals )
    #[tactic(auto, unfolding(crate::specs::Rules::before, crate::specs::Rules::in_parens, crate::specs::Rules::followed_by))]
    fn row(&mut self, alloc: Global) -> Result<List<Value>, ParseError>
        ensures value { Reads (λ x. x)
            (in_parens literals) self.old result self.new }
        ensures levels { KeepsLevels self.old self.new }
        ensures list { KeepsTokens self.old self.new }
    {
        self.expect(TokenKind::LeftParen)?;
        let values = List::from_vec(self.literals(alloc)?);
        self.then_expect(values, TokenKind::RightParen)
    }

    #[tactic(auto, unfolding(crate::specs::Commands::insert, crate::specs::Rules::before))]
    fn insert(&mut self, alloc: Global) -> Result<Command, ParseError>
        ensures value { Reads (λ x. x) insert self.old result self.new }
        ensures levels { KeepsLevels self.old self.new }
        ensures list { KeepsTokens self.old self.new }
    {
        self.expect(TokenKind::Insert)?;
        self.expect(TokenKind::Into)?;
        let name = self.name(alloc)?;
        self.expect(TokenKind::Values)?;
        let values = self.row(alloc)?;
        Ok(Command::Insert { name, values })
    }

    /// = literal
    #[tactic(auto, unfolding(crate::specs::Rules::before))]
    fn equal_literal(&mut self, alloc: Global) -> Result<Value, ParseError>
        ensures value { Reads (λ x. x) (before k.Equal literal) self.old result self.new }
        ensures levels { KeepsLevels self.old self.new }
        ensures list { KeepsTokens self.old self.new }
    {
        self.expect(TokenKind::Equal)?;
        self.literal(alloc)
    }

    /// name = literal
    #[tactic(auto, unfolding(crate::specs::Commands::set_part))]
    fn set_part(&mut self, alloc: Global) -> Result<SetPart, ParseError>
        ensures value { Reads (λ x. x) set_part self.old result self.new }
        ensures levels { KeepsLevels self.old self.new }
        ensures list { KeepsTokens self.old self.new }
    {
        let column = self.name(alloc)?;
        let value = self.equal_literal(alloc)?;
        Ok(SetPart { column, value })
    }

    /// A comma, and a part of a SET.
    #[tactic(auto, unfolding(crate::specs::Rules::before))]
    fn next_set_part(&mut self, alloc: Global) -> Result<SetPart, ParseError>
        ensures value { Reads (λ x. x) (before k.Comma set_part) self.old result self.new }
        ensures levels { KeepsLevels self.old self.new }
        ensures list { KeepsTokens self.old self.new }
    {
        self.expect(TokenKind::Comma)?;
        self.set_part(alloc)
    }

    /// The parts of a SET, at most 32.
    fn set_parts(&mut self, alloc: Global) -> Result<Vec<SetPart>, ParseError>
        ensures value { Reads (λ (v : Vec SetPart Global). v.items)
            set_parts self.old result self.new }
        ensures levels { KeepsLevels self.old self.new }
        ensures list { KeepsTokens self.old self.new }
    {
        let mut list = push_parsed(Vec::new(alloc), self.set_part(alloc))?;
        'parts: while self.sees(TokenKind::Comma) {
            if list.len() == MAX_COLUMNS {
                return Err(ParseError::Fault(ParseFault::TooMany));
            }
            list = push_parsed(list, self.next_set_part(alloc))?;
        }
        Ok(list)
    }

    /// SET and its parts.
    #[tactic(auto, unfolding(crate::specs::Rules::before))]
    fn set_clause(&mut self, alloc: Global) -> Result<List<SetPart>, ParseError>
        ensures value { Reads (λ x. x)
            (before k.Set set_parts) self.old result self.new }
        ensures levels { KeepsLevels self.old self.new }
        ensures list { KeepsTokens self.old self.new }
    {
        self.expect(TokenKind::Set)?;
        Ok(List::from_vec(self.set_parts(alloc)?))
    }

    /// WHERE name = literal
    #[tactic(auto, unfolding(crate::specs::Rules::before))]
    fn row_clause(&mut self, alloc: Global) -> Result<SetPart, ParseError>
        ensures value { Reads (λ x. x) (before k.Where set_part) self.old result self.new }
        ensures levels { KeepsLevels self.old self.new }
        ensures list { KeepsTokens self.old self.new }
    {
        self.expect(TokenKind::Where)?;
        self.set_part(alloc)
    }

    #[tactic(auto, unfolding(crate::specs::Commands::update, crate::specs::Rules::before))]
    fn update(&mut self, alloc: Global) -> Result<Command, ParseError>
        ensures value { Reads (λ x. x) update self.old result self.new }
        ensures levels { KeepsLevels self.old self.new }
        ensures list { KeepsTokens self.old self.new }
    {
        self.expect(TokenKind::Update)?;
        let name = self.name(alloc)?;
        let sets = self.set_clause(alloc)?;
        let SetPart { column, value } = self.row_clause(alloc)?;
        Ok(Command::Update {
            name,
            sets,
            column,
            value,
        })
    }

    #[tactic(auto, unfolding(crate::specs::Commands::delete, crate::specs::Rules::before))]
    fn delete(&mut self, alloc: Global) -> Result<Command, ParseError>
        ensures value { Reads (λ x. x) delete self.old result self.new }
        ensures levels { KeepsLevels self.old self.new }
        ensures list { KeepsTokens self.old self.new }
    {
        self.expect(TokenKind::Delete)?;
        self.expect(TokenKind::From)?;
        let name = self.name(alloc)?;
        self.expect(TokenKind::Where)?;
        let SetPart { column, value } = self.set_part(alloc)?;
        Ok(Command::Delete {
            name,
            column,
            value,
        })
    }

    #[tactic(auto, unfolding(crate::specs::Commands::command), using(crate::proofs::Firsts::first_commands))]
    fn command(&mut self, alloc: Global) -> Result<Command, ParseError>
        ensures value { Reads (λ x. x) command self.old result self.new }
        ensures levels { KeepsLevels self.old self.new }
        ensures list { KeepsTokens self.old self.new }
    {
        if self.sees(TokenKind::Create) {
            self.create(alloc)
        } else if self.sees(TokenKind::Drop) {
            self.drop_table(alloc)
        } else if self.sees(TokenKind::Insert) {
            self.insert(alloc)
        } else if self.sees(TokenKind::Update) {
            self.update(alloc)
        } else {
            self.delete(alloc)
        }
    }

    /// A command and the semicolon behind it.
    #[tactic(auto, unfolding(crate::specs::Rules::followed_by))]
    fn closed_command(&mut self, alloc: Global) -> Result<Command, ParseError>
        ensures value { Reads (λ x. x) (followed_by command k.Semicolon) self.old result self.new }
        ensures levels { KeepsLevels self.old self.new }
        ensures list { KeepsTokens self.old self.new }
    {
        let command = self.command(alloc)?;
        self.then_expect(command, TokenKind::Semicolon)
    }

    /// Whether a command begins here.
    #[tactic(auto, using(crate::proofs::Firsts::first_command))]
    pub fn sees_command(&self) -> bool
        ensures { result ≡ begins sql (first command) (left_of self.now) }
    {
        self.sees(TokenKind::Create)
            || self.sees(TokenKind::Drop)
            || self.sees(TokenKind::Insert)
            || self.sees(TokenKind::Update)
            || self.sees(TokenKind::Delete)
    }

    /// Commands with a semicolon behind each, at most 1,000.
    fn commands(&mut self, alloc: Global) -> Result<Vec<Command>, ParseError>
        ensures value { Reads (λ (v : Vec Command Global). v.items)
            commands self.old result self.new }
        ensures levels { KeepsLevels self.old self.new }
        ensures list { KeepsTokens self.old self.new }
    {
        let mut list = push_parsed(Vec::new(alloc), self.closed_command(alloc))?;
        'parts: while self.sees_command() {
            if list.len() == MAX_COMMANDS {
                return Err(ParseError::Fault(ParseFault::TooMany));
            }
            list = push_parsed(list, self.closed_command(alloc))?;
        }
        Ok(list)
    }

    #[tactic(auto, unfolding(crate::specs::Commands::batch))]
    pub fn batch(&mut self, alloc: Global) -> Result<Batch, ParseError>
        ensures value { Reads (λ x. x) batch self.old result self.new }
        ensures levels { KeepsLevels self.old self.new }
        ensures list { KeepsTokens self.old self.new }
    {
        let commands = List::from_vec(self.commands(alloc)?);
        Ok(Batch { commands })
    }

    /// A batch and its COMMIT.
    #[tactic(auto, unfolding(crate::specs::Rules::followed_by))]
    fn ended_batch(&mut self, alloc: Global) -> Result<Batch, ParseError>
        ensures value { Reads (λ x. x) (followed_by batch k.Commit) self.old result self.new }
        ensures levels { KeepsLevels self.old self.new }
        ensures list { KeepsTokens self.old self.new }
    {
        let batch = self.batch(alloc)?;
        self.then_expect(batch, TokenKind::Commit)
    }

    /// A batch, its COMMIT and the semicolon behind that.
    #[tactic(auto, unfolding(crate::specs::Rules::followed_by))]
    fn committed_batch(&mut self, alloc: Global) -> Result<Batch, ParseError>
        ensures value { Reads (λ x. x)
            (followed_by (followed_by batch k.Commit) k.Semicolon) self.old result self.new }
        ensures levels { KeepsLevels self.old self.new }
        ensures list { KeepsTokens self.old self.new }
    {
        let batch = self.ended_batch(alloc)?;
        self.then_expect(batch, TokenKind::Semicolon)
    }

    /// Any number of batches.
    pub fn script(&mut self, alloc: Global) -> Result<Vec<Batch>, ParseError>
        ensures value { Reads (λ (v : Vec Batch Global). v.items) script self.old result self.new }
        ensures levels { KeepsLevels self.old self.new }
        ensures list { KeepsTokens self.old self.new }
    {
        let mut list = Vec::new(alloc);
        'parts: while self.sees_command() {
            list.push(self.committed_batch(alloc)?)?;
        }
        Ok(list)
    }
}
