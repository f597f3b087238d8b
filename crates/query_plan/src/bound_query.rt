//! Queries whose references are columns by their numbers.
ghost use Rattle.std.specs.Prelude.{◌≡◌, is_some};

use crate::bound_cond::BoundCond;
use query_binding::{BoundSources, ColumnPlace};
use vo_spec::Items;

/// The two columns of ON in the order of the text.
#[derive(Clone, Copy)]
pub struct BoundJoin {
    pub first: ColumnPlace,
    pub second: ColumnPlace,
}

/// A query that is bound to the tables that it is asked of.
#[derive(Drop)]
pub struct Query<'q> {
    /// The sources with their tables' names and schemas.
    pub bound_sources: BoundSources<'q>,
    /// The items as the text has them, for the titles.
    pub items: &'q Items,
    /// The columns that are shown.
    pub output: Vec<ColumnPlace>,
    pub join: Option<BoundJoin>,
    pub condition: Option<BoundCond<'q>>,
    /// How many rows are wanted at most, the first ones; all of them where it is absent.
    pub limit: Option<u32>,
    // There is a right source where there is a join.
    ghost joined: { is_some join ≡ is_some bound_sources.right },
}
