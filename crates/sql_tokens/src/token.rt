//! The token at the head of a text.
ghost use Rattle.std.specs.Prelude.{◌≡◌, ◌<◌, ◌≤◌, ◌+◌, suc, length, take, drop, slice_index, IfOk, IfSome, true, false};
ghost use Rattle.std.specs.Str.{all_ascii_digits};
ghost use Rattle.std.specs.List.{prefix_len};
ghost use Rattle.std.specs.Char.{is_ascii_digit};
ghost use Rattle.sql_tokens.specs.Kinds.{keyword, spelling};
ghost use Rattle.sql_tokens.specs.Lex.{is_letter, is_word_byte, closing_len, symbol, digits, integer_value, keyword_or_name, integer, string_token, symbolic, ReadsToken, token_at};

use crate::kinds::TokenKind;
use crate::lexemes::{Lexeme, TokenFault};
use crate::words;
use vo_spec::MAX_NAME;

/// A keyword or a name.
fn word<'a>(text: &'a [u8], at: usize) -> Result<Lexeme<'a>, TokenFault>
    requires some { 0 < length text.now }
    requires begins { is_letter (slice_index text.now 0) ≡ true }
    ensures value { let word = take (prefix_len is_word_byte text.now) text.now in
        ReadsToken result (keyword_or_name (keyword word) word) }
    ensures place { IfOk result (λ x. x.at ≡ at) }
    ensures within { IfOk result (λ x. (1 ≤ length x.text.now)
        × (length x.text.now ≤ length text.now)) }
{
    let (word, _) = text.split_at(words::word_len(text));
    let kind = match words::keyword(word) {
        Some(kind) => kind,
        None if word.len() <= MAX_NAME => TokenKind::Name,
        None => return Err(TokenFault::Name),
    };
    Ok(Lexeme {
        kind,
        text: word,
        number: 0,
        at,
    })
}

/// An integer whose sign and digits are the first `len` bytes.
fn number<'a>(text: &'a [u8], len: usize, at: usize) -> Result<Lexeme<'a>, TokenFault>
    requires within { len ≤ length text.now }
    requires digits { all_ascii_digits (digits (take len text.now)) ≡ true }
    requires some { 0 < length (digits (take len text.now)) }
    ensures value { let number = take len text.now in
        ReadsToken result (integer (integer_value number) number) }
    ensures place { IfOk result (λ x. x.at ≡ at) }
    ensures within { IfOk result (λ x. length x.text.now ≡ len) }
{
    let (text, _) = text.split_at(len);
    let number = words::integer_value(text).ok_or(TokenFault::Literal)?;
    Ok(Lexeme {
        kind: words::integer_kind(number),
        text,
        number,
        at,
    })
}

/// A text in quotes, of which the first stands first.
fn string_token<'a>(text: &'a [u8], at: usize) -> Result<Lexeme<'a>, TokenFault>
    requires { 0 < length text.now }
    ensures value { ReadsToken result
        (string_token (closing_len false (drop 1 text.now)) text.now) }
    ensures place { IfOk result (λ x. x.at ≡ at) }
    ensures within { IfOk result (λ x. (1 ≤ length x.text.now)
        × (length x.text.now ≤ length text.now)) }
{
    let (_, behind) = text.split_at(1);
    let len = words::closing_len(behind).ok_or(TokenFault::Token)?;
    let (text, _) = text.split_at(len + 1);
    if !words::fits_text(text) {
        return Err(TokenFault::Literal);
    }
    Ok(Lexeme {
        kind: TokenKind::Quoted,
        text,
        number: 0,
        at,
    })
}

/// The byte behind the first, or 0.
fn second_byte(text: &[u8]) -> u8
    ensures value { result ≡ slice_index text.now 1 }
    ensures one { length text.now ≤ 1 → result ≡ 0 }
{
    text.get(1).copied().unwrap_or(0)
}

fn symbolic<'a>(text: &'a [u8], at: usize) -> Result<Lexeme<'a>, TokenFault>
    requires { 0 < length text.now }
    ensures value { ReadsToken result
        (symbolic (symbol (slice_index text.now 0) (slice_index text.now 1)) text.now) }
    ensures place { IfOk result (λ x. x.at ≡ at) }
    ensures within { IfOk result (λ x. (1 ≤ length x.text.now)
        × (length x.text.now ≤ length text.now)) }
{
    let kind = words::symbol(text[0], second_byte(text)).ok_or(TokenFault::Token)?;
    let (text, _) = text.split_at(kind.spelling().len());
    Ok(Lexeme {
        kind,
        text,
        number: 0,
        at,
    })
}

/// The token that a text begins with, where it begins with no blank.
#[tactic(auto, unfolding(crate::specs::Lex::token_at), using(crate::proofs::Integers::run_digits, crate::proofs::Integers::minus_digits))]
pub fn token<'a>(text: &'a [u8], at: usize) -> Result<Lexeme<'a>, TokenFault>
    requires { 0 < length text.now }
    ensures value { ReadsToken result (token_at text.now) }
    ensures place { IfOk result (λ x. x.at ≡ at) }
    ensures within { IfOk result (λ x. (1 ≤ length x.text.now)
        × (length x.text.now ≤ length text.now)) }
{
    let first = text[0];
    if words::is_letter(first) {
        return word(text, at);
    }
    if first.is_ascii_digit() {
        return number(text, words::digits_len(text), at);
    }
    if first == b'-' && second_byte(text).is_ascii_digit() {
        let (_, digits) = text.split_at(1);
        return number(text, 1 + words::digits_len(digits), at);
    }
    if first == b'\'' {
        return string_token(text, at);
    }
    symbolic(text, at)
}
