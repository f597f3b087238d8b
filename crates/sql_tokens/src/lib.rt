//! SQL texts as tokens.
#![tactic(auto)]

mod kinds;
mod lexemes;
mod scan;
mod token;
mod words;

pub use kinds::TokenKind;
pub use lexemes::{LexFault, Lexeme, TokenFault};
pub use scan::tokens;
