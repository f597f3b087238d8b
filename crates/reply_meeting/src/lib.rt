//! Two replies to one query against each other, by the owner's public key alone.
#![tactic(auto)]

mod accepting;
mod catalogs;
mod common_needs;
mod comparing;
mod laws;
mod meeting;
mod readers;
mod trees;

pub use laws::accepted_records_are_signed;
pub use meeting::{MeetFault, Meeting, MetReplies};
pub use readers::{meet, meet_replies};
