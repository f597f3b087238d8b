//! The owner's journal on a disk, which keeps its entries whatever a crash leaves.
//!
//! An entry is written behind a closed gate and put down there before the gate is opened. So at
//! each moment the disk holds all entries, the new one whole or not at all.
#![tactic(auto)]

mod appending;
mod fault;
mod journal;
mod opening;
mod reading;
mod slot_writing;
mod taking;

pub use fault::JournalFault;
pub use journal::Journal;
