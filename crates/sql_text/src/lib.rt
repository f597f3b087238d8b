//! SQL texts: read by their grammar, and printed.
#![tactic(auto)]

mod clauses;
mod commands;
mod conditions;
mod faults;
mod limits;
mod names;
mod parse_error;
mod parser;
mod printing;
mod printing_commands;
mod printing_queries;
mod queries;
mod scripts;
mod texts;

pub use faults::SqlFault;
pub use limits::MAX_SCRIPT_BYTES;
pub use printing_commands::print_batch;
pub use printing_queries::print_query;
pub use scripts::parse_script;
pub use texts::{parse_batch, parse_query};
