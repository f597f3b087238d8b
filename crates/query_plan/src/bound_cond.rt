//! Conditions whose references are columns by their numbers.
use query_binding::ColumnPlace;
use vo_spec::{Cmp, List, ValueRef};

/// The right side of a comparison.
#[derive(Clone, Copy)]
pub enum BoundOperand<'q> {
    Column(ColumnPlace),
    Literal(ValueRef<'q>),
}

/// A test of rows at the places of their columns.
#[derive(Clone, Copy)]
pub enum BoundTest<'q> {
    Comparison {
        left: ColumnPlace,
        op: Cmp,
        right: BoundOperand<'q>,
    },
    /// IS NULL, or IS NOT NULL where it is negated.
    IsNull {
        left: ColumnPlace,
        negated: bool,
    },
}

/// A condition that is bound to the sources of its query.
#[derive(Drop)]
pub enum BoundCond<'q> {
    All(List<BoundCond<'q>>),
    Any(List<BoundCond<'q>>),
    Not(Box<BoundCond<'q>>),
    Test(BoundTest<'q>),
}

/// A conjunct of a condition.
#[derive(Clone, Copy)]
pub struct Conjunct<'c, 'q> {
    pub cond: &'c BoundCond<'q>,
}
