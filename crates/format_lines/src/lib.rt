//! Answers a call of the crates of digests, signatures and formats for each line, for comparisons.
//!
//! A line is a word and byte strings with a blank between each two; numbers are byte strings too,
//! the highest byte first. A byte string is pieces joined by `+`: hexadecimal digits,
//! `DIGITS*COUNT` for bytes that stand so often, or `FROM..TO` for those of the bytes that `keep`,
//! `ots_sign`, `sign` or `seal` had last.
//!
//! - Digests: `digest` of bytes, `hash` of pieces that are added one by one, and `collision` of two
//!   strings.
//! - One-time signatures, of a type: `digit` of bytes, `checksum` of a digest, `ots_public` and
//!   `ots_sign` of an identifier, a leaf and a seed, and `candidate` of an identifier, a leaf, a
//!   message and a signature.
//! - Keys: `make` of a height, a type, an identifier and a seed has the key of one level that
//!   `copy`, `node`, `sign`, `seal`, `start`, `step` and `replay` take, and `make_hss` that of two;
//!   `key` reads a public key, `leaf` names the leaf of a signature, and `verify` judges it.
//! - Rows: `value`, `attribute`, `cell`, `row`, `closed` and `whole` are digests; `hide` and
//!   `hide_cells` hide the values but those of some columns.
//! - Formats: `catalog`, `record`, `reply` and `proofs` read and write again, `begin` begins the
//!   proofs of so many.
//! - Journals: `slots`, `entries` and `journal` read and write again, `seal` seals batches, `owned`
//!   and `taken` read a journal under a public key, and `answer` is a store's reply to a query.
//!   `images` puts a journal on a disk of which a call fails, and has what crashes leave there: of
//!   the call's number, how many bytes it still writes, lost bytes, what is on the disk before, and
//!   the journal.
//! - An owner that holds roots alone: `start` has its first entry, `next` the roots after a
//!   version, a catalog, a batch and its proofs, `step` the entry behind a journal of a batch and
//!   its proofs, `replay` the roots behind a journal, and `owned_entries` counts a journal's first
//!   entries that are an owner's.
#![tactic(auto)]

mod answers;
mod arguments;
mod call;
mod disk_images;
mod hashing;
mod journals;
mod keys;
mod line;
mod one_time;
mod owners;
mod reading;
mod records;
mod replies;
mod rows;
mod state;

pub use answers::answer;
pub use arguments::number_of;
pub use journals::batch_in;
pub use line::strings_of;
pub use owners::owner_fault_text;
pub use state::State;
