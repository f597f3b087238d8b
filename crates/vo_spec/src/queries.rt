//! Queries, and what they give.
use crate::lists::List;
use crate::texts::{Name, Text};
use crate::values::Value;
use thiserror::Error;

/// A reference to a column, as `c` or `a.c`.
#[derive(Debug, Drop)]
pub struct Ref {
    pub qualifier: Option<Name>,
    pub column: Name,
}

/// A table with the name that the query calls it by.
#[derive(Debug, Drop)]
pub struct Source {
    pub table: Name,
    pub alias: Name,
}

/// The second source, and the two references of ON in the order of the text.
#[derive(Debug, Drop)]
pub struct Join {
    pub right: Source,
    pub left_ref: Ref,
    pub right_ref: Ref,
}

/// The columns that a query shows.
#[derive(Debug, Drop)]
pub enum Items {
    All,
    Refs(List<Ref>),
}

#[derive(Clone, Copy, PartialEq, Eq, Debug)]
pub enum Cmp {
    Eq,
    Ne,
    Lt,
    Le,
    Gt,
    Ge,
}

/// The right side of a comparison.
#[derive(Debug, Drop)]
pub enum Operand {
    Ref(Ref),
    Literal(Value),
}

/// A condition. `All` and `Any` have two parts or more where a text gives them.
#[derive(Debug, Drop)]
pub enum Cond {
    All(List<Cond>),
    Any(List<Cond>),
    Not(Box<Cond>),
    Test { left: Ref, op: Cmp, right: Operand },
    /// IS NULL, or IS NOT NULL where it is negated.
    IsNull { left: Ref, negated: bool },
}

/// A query. A text gives a limit of at least one row, and none beside a join.
#[derive(Debug, Drop)]
pub struct QueryText {
    pub items: Items,
    pub left: Source,
    pub join: Option<Join>,
    pub cond: Option<Cond>,
    /// How many rows are wanted at most, the first ones; all of them where it is absent.
    pub limit: Option<u32>,
}

/// Why a query has no rows: a name or a kind that the tables don't bear out.
#[derive(Debug, Drop, Error)]
pub enum QueryFault {
    #[error("no such table")]
    NoTable(Name),
    #[error("no such column")]
    NoColumn(Ref),
    #[error("an ambiguous name")]
    Ambiguous(Ref),
    #[error("kinds that differ")]
    TypeMismatch,
    #[error("not a join on a key")]
    NotKeyJoin,
}

/// What a query gives on some tables.
#[derive(Debug, Drop)]
pub enum Outcome {
    Rows {
        header: List<Text>,
        rows: List<List<Value>>,
    },
    Wrong(QueryFault),
}
