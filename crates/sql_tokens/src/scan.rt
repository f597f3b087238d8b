//! A text as the list of its tokens.
ghost use Rattle.std.specs.Prelude.{◌<◌, ◌^◌, length};
ghost use Rattle.sql_tokens.specs.Lex.{tokens_of, Scans};

use crate::lexemes::{LexFault, Lexeme};
use crate::token::token;
use crate::words::is_blank;
use std::alloc::{AllocError, Global};

/// The tokens of a text in their order, or its first lapse.
#[tactic(auto, using(crate::proofs::Scanning::scanning))]
pub fn tokens<'a>(alloc: Global, text: &'a [u8]) -> Result<Vec<Lexeme<'a>>, LexFault>
    ensures { Scans (tokens_of text.now) result }
{
    let mut list = Vec::new(alloc);
    let mut at = 0;
    while at < text.len() {
        if is_blank(text[at]) {
            at += 1;
        } else {
            let (_, rest) = text.split_at(at);
            match token(rest, at) {
                Ok(found) => {
                    at += found.text.len();
                    list.push(found).map_err(AllocError::from)?;
                }
                Err(lapse) => return Err(LexFault::At { lapse, at }),
            }
        }
    }
    Ok(list)
}
