//! Every schedule: an owner with its journal on a disk and any number of clients, to whom any
//! events come in any order, with any bytes from a store.
//!
//! Each event is one step of one party: the owner commits a batch, the machine stops and the owner
//! comes back to its journal, a client gets bytes as a reply.
#![tactic(auto)]

mod committing;
mod events;
mod laws;
mod opening;
mod receiving;
mod releasing;
mod reopening;
mod schedules;
mod stepping;
#[cfg(test)]
mod tests;
mod world;

pub use events::{AcceptedReply, Event, Said};
pub use laws::schedules_are_sound;
pub use schedules::run_schedule;
pub use world::World;
