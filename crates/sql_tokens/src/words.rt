//! Runs of bytes at the head of a text, and what they stand for.
ghost use Rattle.std.specs.Prelude.{◌≡◌, ◌<◌, ◌≤◌, ◌+◌, length, take, drop, slice_index, option_copied, IfSome, IfOk, false, true, nat_le, ◌==◌, if◌then◌else◌};
ghost use Rattle.std.specs.Str.{all_ascii_digits};
ghost use Rattle.std.specs.Str.{str_eq_ignore_ascii_case};
ghost use Rattle.std.specs.List.{prefix_len, list_all};
ghost use Rattle.std.specs.Char.{is_ascii_digit};
ghost use Rattle.sql_tokens.specs.Kinds.{keyword, spelling};
ghost use Rattle.sql_tokens.specs.Lex.{is_blank, is_letter, is_word_byte, closing_len, single_quotes, symbol, digits, integer_value, integer_kind, fits_text};

use crate::kinds::{KEYWORDS, TokenKind};
use vo_spec::MAX_TEXT;

/// How many rows LIMIT takes at most.
const MAX_ROW_COUNT: i64 = 4_294_967_295;

pub fn is_blank(byte: u8) -> bool
    ensures { result ≡ is_blank byte }
{
    byte == b' ' || byte == b'\t' || byte == b'\r' || byte == b'\n'
}

pub fn is_letter(byte: u8) -> bool
    ensures { result ≡ is_letter byte }
{
    byte.is_ascii_alphabetic() || byte == b'_'
}

fn is_word_byte(byte: u8) -> bool
    ensures { result ≡ is_word_byte byte }
{
    is_letter(byte) || byte.is_ascii_digit()
}

/// How many bytes of a word stand first.
#[tactic(auto, using(crate::proofs::Runs::runs))]
pub fn word_len(text: &[u8]) -> usize
    ensures value { result ≡ prefix_len is_word_byte text.now }
    ensures within { result ≤ length text.now }
    ensures some { is_letter (slice_index text.now 0) ≡ true → 0 < length text.now → 0 < result }
{
    let mut len = 0;
    while len < text.len() && is_word_byte(text[len]) {
        len += 1;
    }
    len
}

/// How many digits stand first.
#[tactic(auto, using(crate::proofs::Runs::runs))]
pub fn digits_len(text: &[u8]) -> usize
    ensures value { result ≡ prefix_len is_ascii_digit text.now }
    ensures within { result ≤ length text.now }
    ensures some { is_ascii_digit (slice_index text.now 0) ≡ true → 0 < length text.now
        → 0 < result }
{
    let mut len = 0;
    while len < text.len() && text[len].is_ascii_digit() {
        len += 1;
    }
    len
}

fn is_spelled(kind: TokenKind, word: &[u8]) -> bool
    ensures { result ≡ str_eq_ignore_ascii_case (spelling kind) word.now }
{
    kind.spelling().eq_ignore_ascii_case(word)
}

/// The reserved word that a word is.
pub fn keyword(word: &[u8]) -> Option<TokenKind>
    ensures { result ≡ keyword word.now }
{
    KEYWORDS
        .iter()
        .copied()
        .find(|kind| is_spelled(*kind, word))
}

/// Where a quoted text ends, counted from behind its first quote.
pub fn closing_len(text: &[u8]) -> Option<usize>
    ensures value { result ≡ closing_len false text.now }
    ensures within { IfSome result (λ len. (1 ≤ len) × (len ≤ length text.now)) }
{
    let mut is_second = false;
    for (len, byte) in text.iter().enumerate() {
        if is_second && *byte != b'\'' {
            return Some(len);
        }
        is_second = !is_second && *byte == b'\'';
    }
    if is_second { Some(text.len()) } else { None }
}

/// The symbol that two bytes begin with.
pub fn symbol(first: u8, second: u8) -> Option<TokenKind>
    ensures value { result ≡ symbol first second }
    ensures len { IfSome result (λ kind. (1 ≤ length (spelling kind))
        × (length (spelling kind) ≤ (if second == 0 then 1 else 2))) }
{
    match first {
        b'(' => Some(TokenKind::LeftParen),
        b')' => Some(TokenKind::RightParen),
        b',' => Some(TokenKind::Comma),
        b';' => Some(TokenKind::Semicolon),
        b'.' => Some(TokenKind::Dot),
        b'*' => Some(TokenKind::Star),
        b'=' => Some(TokenKind::Equal),
        b'<' => Some(match second {
            b'>' => TokenKind::NotEqual,
            b'=' => TokenKind::LessEqual,
            _ => TokenKind::Less,
        }),
        b'>' => Some(match second {
            b'=' => TokenKind::GreaterEqual,
            _ => TokenKind::Greater,
        }),
        b'!' if second == b'=' => Some(TokenKind::NotEqual),
        _ => None,
    }
}

/// The number that an integer's token writes, if it has 64 bits with a sign.
pub fn integer_value(text: &[u8]) -> Option<i64>
    requires digits { all_ascii_digits (digits text.now) ≡ true }
    requires some { 0 < length (digits text.now) }
    ensures { result ≡ integer_value text.now }
{
    let Ok(number) = str::from_utf8(text) else {
        return None;
    };
    number.parse::<i64>().ok()
}

/// The kind of an integer's token.
pub fn integer_kind(number: i64) -> TokenKind
    ensures { result ≡ integer_kind number }
{
    if 1 <= number && number <= MAX_ROW_COUNT {
        TokenKind::RowCount
    } else {
        TokenKind::Integer
    }
}

/// How many bytes the text between two quotes stands for.
fn value_len(text: &[u8]) -> usize
    ensures { result ≡ length (single_quotes false text.now) }
{
    let mut len = 0;
    let mut is_second = false;
    for byte in text {
        if is_second && *byte == b'\'' {
            is_second = false;
        } else {
            len += 1;
            is_second = *byte == b'\'';
        }
    }
    len
}

fn has_no_control(text: &[u8]) -> bool
    ensures { result ≡ list_all (λ b. nat_le 32 b) text.now }
{
    text.iter().all(|byte| 32 <= *byte)
}

/// Whether a text in its quotes, of two bytes or more, is a literal's: not too long, and with no
/// control character.
pub fn fits_text(text: &[u8]) -> bool
    requires { 2 ≤ length text.now }
    ensures { result ≡ fits_text text.now }
{
    value_len(&text[1..text.len() - 1]) <= MAX_TEXT && has_no_control(text)
}
