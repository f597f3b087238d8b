//! Plans of queries.
use crate::bound_cond::Conjunct;
use crate::bound_query::Query;
use vo_spec::{Need, SharedList};

/// A query with what it asks of the left tree, and which cells of the right one.
#[derive(Drop)]
pub struct Plan<'p, 'q> {
    pub query: &'p Query<'q>,
    /// What the query asks of the left tree, whatever rows that has.
    pub uncut_need: Need,
    /// The cells that each need of the right tree names.
    pub right_cells: SharedList<u8>,
    /// The left condition: the conjuncts on left columns alone.
    pub left: Vec<Conjunct<'p, 'q>>,
    /// The late condition: the other conjuncts.
    pub late: Vec<Conjunct<'p, 'q>>,
}
