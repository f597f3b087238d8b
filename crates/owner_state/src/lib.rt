//! What an owner keeps and writes: its roots, the entries that lead them on, journals as bytes, and
//! the sealing of batches.
#![tactic(auto)]

mod batch_working;
mod copies;
mod departures;
mod entry_checks;
mod entry_reading;
mod entry_signing;
mod entry_writing;
mod journal_reading;
mod journal_writing;
mod journals;
mod leading;
mod lent_entry;
mod next_version;
mod owned_entries;
mod owner;
mod owner_faults;
mod recording;
mod replaying;
mod sealing;
mod slot_reading;
mod steps;
mod version_zero;
mod walks;

pub use batch_working::apply_with_proofs;
pub use copies::copy_entry;
pub use departures::Departure;
pub use entry_writing::entry_bytes;
pub use journal_reading::{EntriesFault, read_entries};
pub use journal_writing::{journal_bytes, put_entry_block, put_slot};
pub use journals::{JournalReadFault, LoadableJournal, OwnedJournal, read_loadable, read_owned};
pub use lent_entry::{LentEntry, into_entries};
pub use owned_entries::owned;
pub use owner::Owner;
pub use owner_roots::{OwnerFault, Roots};
pub use recording::{is_signed, record_of};
pub use replaying::{ReplayFault, replay};
pub use sealing::{SealFault, seal};
pub use slot_reading::{Ending, Slots, read_slots};
pub use steps::Step;
pub use vo_spec::Entry;
pub use walks::check_next_of_store;
