//! Part trees, replies of a store, and the proofs of a batch as bytes.
#![tactic(auto)]

mod batch_proofs;
mod entry_reading;
mod entry_writing;
mod reply;
mod reply_reading;
mod reply_writing;
mod tree_reading;
mod tree_writing;

pub use batch_proofs::{begin_proofs, read_proofs, write_proofs};
pub use mb_tree::PartTree;
pub use reply::Reply;
pub use reply_reading::read_reply;
pub use reply_writing::write_reply;
pub use row_bytes::{Cursor, ReadFault};
pub use tree_reading::take_tree;
pub use tree_writing::put_tree;
pub use vo_spec::{Catalog, Record};
