//! Which calls of a form in memory are to fail.
ghost use Rattle.std.specs.Prelude.{◌≡◌, ℕ, ◌≤◌, Option, None, IsSome, IsNone};
ghost use Rattle.outside.specs.Failure.{failure_at as listed};
ghost use Rattle.outside.specs.FaultRose.{FaultRose};

use std::cmp;

/// A plan of failures: each call of the object asks it once.
pub trait Failures: Drop {
    /// How many calls have failed.
    ghost count: { Self → ℕ };

    /// What comes of the next call: it fails after so many bytes, or it doesn't fail.
    ghost due: { Self → Option ℕ };

    /// The plan once that call was counted.
    ghost after: { Self → Self };

    /// Counts a call, and tells after how many bytes it fails, if it does.
    fn next_call(&mut self) -> Option<usize>
        ensures due { result ≡ due self.old }
        ensures after { self.new ≡ after self.old }
        ensures counts { count self.old ≤ count self.new }
        ensures cause { IsSome result → FaultRose (count self.old) (count self.new) }
        ensures quiet { IsNone result → count self.new ≡ count self.old };
}

/// No call fails.
#[derive(Clone, Copy, Debug, PartialEq, Eq)]
pub struct Never;

impl Failures for Never {
    ghost count = { λ _. 0 };

    ghost due = { λ _. None };

    ghost after = { λ plan. plan };

    fn next_call(&mut self) -> Option<usize> {
        None
    }
}

/// A call that is to fail: its number, the first call having 0, and how many bytes it passes on
/// first.
#[derive(Clone, Copy, Debug, PartialEq, Eq)]
pub struct Failure {
    pub call: u64,
    pub after: usize,
}

/// The calls that are listed fail, and no other.
#[derive(Debug, Drop)]
pub struct FailAt {
    failures: Vec<Failure>,
    calls: u64,
    count: u64,
}

impl FailAt {
    ghost use Rattle.outside.specs.FailAt.{new_plan};

    /// Where two failures have one number, the first of the list counts.
    pub fn new(failures: Vec<Failure>) -> Self
        ensures { result ≡ new_plan failures }
    {
        FailAt {
            failures,
            calls: 0,
            count: 0,
        }
    }
}

impl Failures for FailAt {
    ghost use Rattle.outside.specs.FailAt.{due_of, next_plan};

    ghost count = { λ plan. plan.count };

    ghost due = { due_of };

    ghost after = { next_plan };

    fn next_call(&mut self) -> Option<usize> {
        let due = failure_at(self.calls, &self.failures);
        self.calls = self.calls.saturating_add(1);
        if due.is_some() {
            self.count = self.count.saturating_add(1);
        }
        due
    }
}

/// What comes of the call with this number.
fn failure_at(call: u64, failures: &[Failure]) -> Option<usize>
    ensures { result ≡ listed call failures.now }
{
    failures
        .iter()
        .find(|failure| failure.call == call)
        .map(|failure| failure.after)
}
