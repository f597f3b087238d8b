//! What the tests of a reply ask of its trees, however these came.
ghost use Rattle.std.specs.Prelude.{◌≡◌, List as PlainList};
ghost use Rattle.vo_spec.specs.declared.values.Value.{Value as PlainValue};
ghost use Rattle.held_replies.specs.Ordering.{ShowsRows, TreeFindings};
ghost use Rattle.held_replies.specs.Testing.{PassesTests};

use std::alloc::Global;
use vo_spec::{CheckFault, List, Value};

/// What trees show that miss nothing.
#[derive(Debug, Drop)]
pub struct ShownRows {
    pub rows: List<List<Value>>,
    /// A tree has more than is needed of it.
    pub has_surplus: bool,
}

/// What was found of the trees of a reply to a query that binds: of part trees that are held, or of
/// what was summed up as they came. Each call is made where the tests before it are passed.
pub trait FoundTrees {
    /// What the tests find, one by one.
    ghost findings: { Self → TreeFindings };

    /// It is of trees that could be read, and of one query.
    ghost Fits: { Self → Type 0 };

    /// These are the rows that the trees show.
    ghost Shows: { Self → PlainList (PlainList PlainValue) → Type 0 };

    /// How many trees are wanted.
    fn wanted(&self) -> usize
        ensures { result ≡ (findings self.now).wanted };

    /// How many trees there are.
    fn count(&self) -> usize
        ensures { result ≡ (findings self.now).count };

    /// Whether each tree is of its table's schema.
    fn have_shapes(&self) -> bool
        requires { (findings self.now).count ≡ (findings self.now).wanted }
        ensures { result ≡ (findings self.now).have_shapes };

    /// Refuses trees of which one has another root than its table's.
    fn test_roots(&self, alloc: Global) -> Result<(), CheckFault>
        requires fits { Fits self.now }
        requires counted { (findings self.now).count ≡ (findings self.now).wanted }
        ensures { PassesTests result (findings self.now).root_fault };

    /// What the trees show, unless one misses something of what is needed.
    fn show(&self, alloc: Global) -> Result<ShownRows, CheckFault>
        requires fits { Fits self.now }
        requires counted { (findings self.now).count ≡ (findings self.now).wanted }
        ensures { ShowsRows result (findings self.now) (Shows self.now) };
}
