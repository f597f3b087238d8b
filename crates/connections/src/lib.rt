//! Requests to a store, and a store that serves connections, over a network.
//!
//! A client or an owner makes one connection, puts a request and takes its answer; a store takes
//! connection after connection and writes a line as each ends.
#![tactic(auto)]

mod answers;
mod end_line;
mod fetch;
mod serve_fault;
mod server;
mod wire_fault;

pub use answers::{answer_body, answer_into};
pub use fetch::fetch_into;
pub use serve_fault::ServeFault;
pub use server::serve_all;
pub use wire_fault::WireFault;

#[cfg(test)]
mod tests;
