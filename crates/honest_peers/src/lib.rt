//! Laws of all parties together, each the contract of a function that does nothing: what a client
//! accepts is judged by an audit, what an owner writes is owned, what it released no crash takes
//! away, bytes have one reading, and what a client and an owner come to with an honest store.
#![tactic(auto)]

mod asking;
mod crashing;
mod judging;
mod one_reading;
mod owning;
mod serving;
mod writing;

pub use asking::{checks_have_one_answer, loaded_stores_are_honest, questions_are_answered};
pub use crashing::crashes_lose_nothing_released;
pub use judging::{audits_have_one_verdict, audits_judge_what_clients_accept};
pub use one_reading::{bytes_have_one_reading, honest_replies_have_one_answer};
pub use owning::{
    owners_begin_plainly, owners_end_plainly, owners_reopen_plainly, sessions_end_plainly,
};
pub use serving::{connections_are_served, sessions_are_served};
pub use writing::owners_write_what_they_own;
