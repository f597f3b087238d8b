//! Tokens as they stand in a text.
use crate::kinds::TokenKind;
use std::alloc::AllocError;
use thiserror::Error;

/// Why a text has no token at a place.
#[derive(Clone, Copy, Debug, PartialEq, Eq, Error)]
pub enum TokenFault {
    #[error("no token begins here, or a quoted text has no end")]
    Token,
    #[error("an integer of more than 64 bits, or a text too long or with a control character")]
    Literal,
    #[error("a name of more than 63 bytes")]
    Name,
}

/// A token of a text.
#[derive(Clone, Copy, Debug)]
pub struct Lexeme<'a> {
    pub kind: TokenKind,
    /// Its bytes in the text.
    pub text: &'a [u8],
    /// The number, where it is an integer, and else 0.
    pub number: i64,
    /// The place of its first byte in the text, from 0.
    pub at: usize,
}

/// Why a text has no list of tokens.
#[derive(Clone, Copy, Debug, PartialEq, Eq, Error)]
pub enum LexFault {
    #[error("out of memory")]
    Memory,
    #[error("{lapse}, at byte {at}")]
    At { lapse: TokenFault, at: usize },
}

impl From<AllocError> for LexFault {
    ghost use Rattle.std.specs.Prelude.{◌≡◌};
    ghost use Rattle.sql_tokens.specs.declared.lexemes.LexFault.TheVariants.{Memory};

    ghost from_gives = { λ _ fault. fault ≡ Memory };

    fn from(_: AllocError) -> LexFault {
        LexFault::Memory
    }
}
