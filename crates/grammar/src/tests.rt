//! The theorem at a small grammar.

ghost use Rattle.std.specs.Prelude.{ℕ, refl};
ghost use Rattle.grammar.specs.Example.{openings, groups, group, are_openings};

use crate::{Predictive, reads_exactly};

struct Groups;

impl Predictive for Groups {
    ghost language = { openings };

    ghost grammar = { groups };

    ghost Value = { ℕ };

    ghost start = { group };

    ghost is_language = { are_openings };

    ghost good = { refl };
}

#[test]
fn reads_groups_exactly() {
    reads_exactly::<Groups>();
}
