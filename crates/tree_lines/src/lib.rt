//! Answers a call of the crates of trees for each line, for comparisons.
//!
//! A line is a word and byte strings in hexadecimal. Of tables, which `clear` empties: `apply`
//! applies a batch, and gives the digest of the table `t`; `step` applies each of its commands by
//! itself, `refusal` says why each is refused without a look at the rows, and `proof` gives its one
//! command's proof; `catalog` has the name, the number of rows and the root of each table, and
//! `rows` the rows of `t`.
//!
//! Of the tree of `t`: `root` has its number of rows, its digest and what its root hashes; `change`
//! does a change on it that leaves it, `prove` gives a change's proof and `prune` that of some
//! needs; `agree` says whether a part tree prunes it.
//!
//! Of a part tree, which stands last: `digest`, `preimage`, and `read` for its bytes again; `work`
//! does a change, and `after` gives the digest after several; `judge` says whether the part is the
//! change's proof; `scan` looks for a need's rows, and `canonical` says whether the part is the
//! proof of some needs.
//!
//! Of two part trees: `same` says whether they are the same, `walks` whether two of one digest give
//! one walk for all rows, and `twins`, which has them one behind the other, whether two of one
//! digest are one proof of some needs.
//!
//! Of a tree of numbers that counts its entries: `counted` does changes in turn.
#![tactic(auto)]

mod answers;
mod calls;
mod change_reading;
mod counted_calls;
mod line;
mod need_calls;
mod need_reading;
mod part_calls;
mod part_reading;
mod table_calls;
mod tree_calls;
mod twin_calls;

pub use calls::answer;
