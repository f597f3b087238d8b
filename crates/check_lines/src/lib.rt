//! Checks a reply whole and in pieces for each line, for comparisons.
//!
//! A line is a word and what it is asked of. `key BYTES` has the public key that clients trust from
//! then on, and says its identifier; `query BYTES` has the text of the query, and says what it is.
//! `reply BYTES` has the reply, and `splice AT CUT BYTES` has one in its place that is the reply of
//! the last `reply` with these bytes in the place of CUT others from AT on; they say how long it
//! is.
//!
//! `check LEAST SIZES` checks the reply by a client who takes no version below LEAST: by part trees
//! that are held, and in pieces of these sizes, taken in turn up to the reply's end. It says the
//! answer, and the least version that the client takes then; where the two ways differ, `whole`
//! stands before the first one's and `pieces` before the other's. `fronts LEAST SIZES` does so with
//! each shorter front of the reply, the shortest first, and says how many of them have the answer
//! of the first one, and what the next one has, if there is one. `held SIZES` says how many
//! bytes are held before the first piece, and behind each. `file LEAST SIZE PATH` checks the
//! bytes of a file in pieces alone, of at most SIZE bytes, each read once the one before is fed.
//!
//! Bytes are in hexadecimal, in pieces with a blank between; digits of a piece that stands several
//! times are written as `DIGITS*COUNT`. Sizes have `+` between each two.
#![tactic(auto)]

mod answers;
mod file_checks;
mod held_counts;
mod line;
mod reply_checks;
mod state;

pub use answers::answer;
pub use state::State;
