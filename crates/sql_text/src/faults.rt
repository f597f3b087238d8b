//! What is wrong with a text.
ghost use Rattle.std.specs.Prelude.{◌≡◌};
ghost use Rattle.sql_text.specs.Faults.{of_tokens};

use sql_tokens::{LexFault, TokenFault};
use thiserror::Error;

/// Why a text has no value. Places are in bytes, from 0.
#[derive(Clone, Copy, Debug, PartialEq, Eq, Error)]
pub enum SqlFault {
    #[error("the text is too long")]
    TooLong,
    #[error("no token at byte {at}")]
    Token { at: usize },
    #[error("a token that does not belong at byte {at}")]
    Syntax { at: usize },
    #[error("a literal out of bounds at byte {at}")]
    Literal { at: usize },
    #[error("conditions nested too deep")]
    Nesting,
    #[error("a name too long")]
    Name,
    #[error("too many parts")]
    TooMany,
    #[error("out of memory")]
    Memory,
}

/// The same of the tokens.
pub fn of_tokens(fault: LexFault) -> SqlFault
    ensures { result ≡ of_tokens fault }
{
    match fault {
        LexFault::Memory => SqlFault::Memory,
        LexFault::At { lapse, at } => match lapse {
            TokenFault::Token => SqlFault::Token { at },
            TokenFault::Literal => SqlFault::Literal { at },
            TokenFault::Name => SqlFault::Name,
        },
    }
}
