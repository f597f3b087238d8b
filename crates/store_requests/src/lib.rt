//! What clients and owners ask a store over a link, and how it is spelled.
//!
//! Each call puts one frame and takes its answer. What the bodies of requests are is read here too,
//! for the store: a query, maybe of a version, a batch, a signed record to install.
#![tactic(auto)]

mod batches;
mod bodies;
pub mod laws;
mod queries;
mod requests;

pub use batches::read_proposal;
pub use bodies::{
    QueryAtBody, SignedBody, install_body, query_at_body, read_install, read_query_at,
    read_standing, standing_body,
};
pub use connections::WireFault;
pub use queries::read_query;
pub use requests::{ask_link, install_link, propose_link, status_link};
