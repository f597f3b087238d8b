//! A store of whole trees: it takes the versions that an owner signs, and answers queries by the
//! last of them, or by one of those before that it keeps.
#![tactic(auto)]

mod answering;
mod fault;
mod installing;
mod kept_version;
pub mod laws;
mod loading;
mod proposing;
mod proving;
mod replying;
mod signed_record;
mod store;

pub use fault::{LoadFault, ReplyFault, StoreFault};
pub use kept_version::{KEPT_VERSIONS, KeptVersion};
pub use lms_sign::PublicKey;
pub use replying::{reply_at, reply_by};
pub use signed_record::SignedRecord;
pub use store::Store;
pub use vo_spec::QueryText;
