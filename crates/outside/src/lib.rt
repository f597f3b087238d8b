//! What lies outside the program, as traits: files, output, connections and a disk, with forms of
//! each in memory; and what a program writes as it ends.
//!
//! Each object counts its faults, and a call fails only where that count rose in it. What an object
//! holds is known of the forms in memory; of a real one nothing is known.
#![tactic(auto)]

mod disk;
mod exit_output;
mod failures;
mod faults;
mod link;
mod mem_disk;
mod mem_net;
mod mem_shelf;
mod mem_sink;
mod net;
mod room;
mod shelf;
mod sink;

pub use disk::Disk;
pub use exit_output::write_output;
pub use failures::{FailAt, Failure, Failures, Never};
pub use faults::{Failed, PutFault, TakeFault};
pub use link::Link;
pub use mem_disk::MemDisk;
pub use mem_net::MemNet;
pub use mem_shelf::{MemShelf, NamedFile};
pub use mem_sink::MemSink;
pub use net::Net;
pub use room::Room;
pub use shelf::Shelf;
pub use sink::Sink;
