//! What a store answers a query with.
use mb_tree::PartTree;
use vo_spec::{Catalog, Record};

/// A version's record and signature, its catalog, and a part of each table that the query names.
/// Signature, keys and texts are lent by the bytes of the reply.
#[derive(Drop)]
pub struct Reply<'b> {
    pub rec: Record,
    pub signature: &'b [u8],
    pub catalog: Catalog,
    pub trees: Vec<PartTree<'b>>,
}
