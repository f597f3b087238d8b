//! The outside as it is: a folder's files, standard output, TCP and one file that is kept.
//!
//! Nothing is known of what they hold, so each says only that a call fails where its count of
//! faults rose; the system's reason goes to standard error then. That a file keeps what a sync put
//! down is the system's word.
#![tactic(auto)]

mod connection;
mod count;
mod files;
mod journal_file;
#[cfg(test)]
mod memory_forms;
mod output;
mod own_file;
mod reasons;
mod tcp;
#[cfg(test)]
mod temp_names;
mod turn;

pub use files::FolderFiles;
pub use journal_file::JournalFile;
pub use output::StandardOutput;
pub use tcp::Tcp;
