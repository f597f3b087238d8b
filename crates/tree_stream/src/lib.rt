//! One part tree of a reply, read in whatever pieces it comes, without holding it: its digest, and
//! what is found in it for a need.
#![tactic(auto)]

mod accumulate;
mod ancestors;
mod cells;
mod context;
mod findings;
mod held;
mod inner;
mod kinds;
mod laws;
mod leaves;
mod machine;
mod nodes;
mod parse;
mod pieces;
mod state;
mod stream;
mod take;
mod target;
mod tokens;

pub use findings::{Findings, Summary};
pub use laws::{findings_judge_proofs, trees_have_their_summary};
pub use stream::TreeStream;
pub use target::{CellKind, Target};
