//! The client's check of a reply.
#![tactic(auto)]

mod checking;
mod client;
mod ending;
mod feeding;
mod holding;
mod progress;
mod streamed;
mod streaming;
mod summed_tree;
mod targets;

pub use checking::Checking;
pub use client::Client;
pub use held_replies::{judge, read_within};
pub use vo_spec::{Answer, CheckFault};
