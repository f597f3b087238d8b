//! Trees of numbers that hold beside each child how many entries are below it. The product has no
//! use for them: they show what a further kind of tree adds to the work that all kinds share.
#![tactic(auto)]

mod counted_node;
mod entry;
mod subtree;

pub use entry::{Entry, NumberKey};
pub use subtree::{Node, Subtree};
