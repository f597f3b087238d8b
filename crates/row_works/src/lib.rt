//! The work that a command on rows does on the tree of its table: made once of the command, and done
//! on whole trees and on parts of them.
#![tactic(auto)]

mod applying;
mod laws;
mod operations;

pub use applying::{apply_to_part, apply_to_tree, count_after};
pub use laws::operations_do_what_commands_do;
pub use mb_update::{Op, SetCell, UpdateFault};
pub use operations::{changes_rows, operation};
