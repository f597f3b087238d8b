//! Answers a call of the SQL crates for each line, for comparisons.
//!
//! A line is a word and a text in hexadecimal: `query`, `batch` and `script` read the text,
//! `print_query` and `print_batch` print what they read, and `bytes` has the bytes of a batch;
//! `read` reads such bytes. `apply` applies the batches of a script to the tables, `step` the
//! commands of one batch each by itself, and `result` asks them a query; `count` counts the batches
//! of a script, and `length` the bytes of a text.
//!
//! Of bytes, `value` takes the value in front, writes it again, and shows what is left; `values`
//! takes all; `key` has the key of a value, `key_value` the value of a key behind the byte of its
//! kind; `columns` takes a table's columns.
//!
//! `catalog` reads a catalog, to which queries are bound from then on. Of a query, `trees` says
//! whether a table is joined with itself, whether one tree is read, and which; `left_need` and, for
//! a left row of the values behind a `/`, `right_need` say what it needs; `right_needs` and `run`
//! say what the part trees behind a `/` show for it.
//!
//! `clear` has no tables again, and no catalog. Digits of bytes that stand several times are
//! written as `DIGITS*COUNT`, with a blank to each side.
#![tactic(auto)]

mod byte_strings;
mod calls;
mod line;
mod plans;
mod runs;
mod text_faults;
mod texts;

pub use calls::State;
