//! A store that serves connections, and what is asked of one.
//!
//! Each request of a connection is answered by one call of the store; the store is changed by whole
//! requests alone.
#![tactic(auto)]

mod answers;
mod asking;
mod feeder;
mod link_serving;
mod loan;
mod net_serving;
mod queries;
mod responder;
mod statuses;
mod versions;

pub use asking::{ask_at_into, ask_into, fetch_at_into, fetch_into};
pub use connections::ServeFault;
pub use link_frames::End;
pub use link_serving::serve_link;
pub use loan::Loan;
pub use net_serving::serve_all;
pub use store_requests::{WireFault, ask_link, install_link, propose_link, status_link};

#[cfg(test)]
mod tests;
