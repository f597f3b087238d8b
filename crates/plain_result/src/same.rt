//! Whether two outcomes are the same.
ghost use Rattle.std.specs.Prelude.{◌≡◌, ◌↔◌, IsTrue};

use vo_spec::{List, Name, Outcome, QueryFault, Ref, Text, Value};

/// What can be told from another, though it has no `==`.
trait Same {
    fn same(&self, other: &Self) -> bool
        ensures { IsTrue result ↔ (self.now ≡ other.now) };
}

impl Same for Text {
    fn same(&self, other: &Text) -> bool {
        self.as_bytes() == other.as_bytes()
    }
}

impl Same for Name {
    fn same(&self, other: &Name) -> bool {
        self.as_bytes() == other.as_bytes()
    }
}

impl Same for Value {
    fn same(&self, other: &Value) -> bool {
        match (self, other) {
            (Value::Null, Value::Null) => true,
            (Value::Int(a), Value::Int(b)) => a == b,
            (Value::Text(a), Value::Text(b)) => a.same(b),
            (Value::Bool(a), Value::Bool(b)) => a == b,
            _ => false,
        }
    }
}

impl<T: Same> Same for List<T> {
    fn same(&self, other: &List<T>) -> bool {
        same_items(self.as_slice(), other.as_slice())
    }
}

fn same_items<T: Same>(a: &[T], b: &[T]) -> bool
    ensures { IsTrue result ↔ (a.now ≡ b.now) }
{
    if a.len() != b.len() {
        return false;
    }
    for (number, item) in a.iter().enumerate() {
        if !item.same(&b[number]) {
            return false;
        }
    }
    true
}

impl Same for Ref {
    fn same(&self, other: &Ref) -> bool {
        let same_qualifier = match (&self.qualifier, &other.qualifier) {
            (Some(a), Some(b)) => a.same(b),
            (None, None) => true,
            _ => false,
        };
        same_qualifier && self.column.same(&other.column)
    }
}

impl Same for QueryFault {
    fn same(&self, other: &QueryFault) -> bool {
        match (self, other) {
            (QueryFault::NoTable(a), QueryFault::NoTable(b)) => a.same(b),
            (QueryFault::NoColumn(a), QueryFault::NoColumn(b)) => a.same(b),
            (QueryFault::Ambiguous(a), QueryFault::Ambiguous(b)) => a.same(b),
            (QueryFault::TypeMismatch, QueryFault::TypeMismatch) => true,
            (QueryFault::NotKeyJoin, QueryFault::NotKeyJoin) => true,
            _ => false,
        }
    }
}

/// Whether the outcomes are the same: header and rows, or the fault.
pub fn same_outcome(a: &Outcome, b: &Outcome) -> bool
    ensures { IsTrue result ↔ (a.now ≡ b.now) }
{
    match (a, b) {
        (
            Outcome::Rows {
                header: titles,
                rows,
            },
            Outcome::Rows {
                header: other_titles,
                rows: other_rows,
            },
        ) => titles.same(other_titles) && rows.same(other_rows),
        (Outcome::Wrong(a), Outcome::Wrong(b)) => a.same(b),
        _ => false,
    }
}
