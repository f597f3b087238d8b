//! A generated workload, run through an owner, a store, a client and an auditor.
#![tactic(auto)]

mod asking;
mod committing;
mod laws;
mod parties;
mod readers;
mod requests;
mod running;

pub use laws::workload_replies_fit;
pub use running::{Summary, run_workload};

#[cfg(test)]
mod tests;
