//! An owner's session with a store: over one connection, the store is given what it lacks of the
//! owner's journal, and then each batch of a script is committed.
//!
//! A batch is proposed, the owner steps on the proofs that come back, the entry is appended to the
//! journal, and only then it is installed. What is to happen is a function of the bytes that come
//! and of what the owner makes of them; owner and journal are a trait (`SessionOwner`).
#![tactic(auto)]

mod announce;
mod catch_up;
mod commit;
mod exchange;
mod install;
mod laws;
mod lines;
mod place;
mod propose;
mod refusals;
mod session;
mod session_owner;
mod stop;
#[cfg(test)]
mod tests;

pub use laws::sessions_in_order;
pub use place::Place;
pub use refusals::{NoAppend, NoStep, Refusal, RefusalCause};
pub use session::run_session;
pub use session_owner::SessionOwner;
