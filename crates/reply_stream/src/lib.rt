//! A reply read in whatever pieces it comes, without holding its trees: its head first, up to the
//! catalog's last byte, and then the trees behind it, for what is made of the head.
#![tactic(auto)]

mod head;
mod head_fields;
mod head_state;
mod head_stream;
mod laws;
mod reply_length;
mod trees_state;
mod trees_stream;
mod trees_summary;

pub use head::Head;
pub use head_stream::HeadStream;
pub use laws::{lengths_add_up, replies_are_read_in_parts, replies_have_their_parts};
pub use reply_length::ReplyLength;
pub use tree_stream::{Findings, Summary, Target};
pub use trees_stream::TreesStream;
pub use trees_summary::TreesSummary;
