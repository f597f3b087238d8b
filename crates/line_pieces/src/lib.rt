//! What the programs of lines share.
//!
//! Calls by their words, byte strings as lines spell them, why a line has no answer, and the form
//! in which answers are written.
#![tactic(auto)]

mod answers;
mod calls;
mod checks;
mod conditions;
mod faults;
mod form;
mod needs;
mod no_answer;
mod pieces;
mod queries;
mod tables;
mod texts;
mod values;

pub use answers::{describe, form_of, word};
pub use calls::call_named;
pub use form::WriteForm;
pub use no_answer::NoAnswer;
pub use pieces::put_piece;
pub use texts::query_in;
