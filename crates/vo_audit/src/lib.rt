//! The auditor, who has the owner's journal: what it says of replies.
#![tactic(auto)]

mod auditing;
mod auditor;
mod departures;
mod evidence;
mod holding;
mod outcome_test;
mod tree_evidence;
mod verdicts;

pub use auditing::audit;
pub use auditor::Auditor;
pub use owner_state::JournalReadFault;
pub use vo_spec::{AuditFault, QueryText, Verdict};
