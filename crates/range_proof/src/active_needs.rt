//! The needs as they come to a node of a tree.
ghost use Rattle.std.specs.Prelude.{◌≡◌, ◌≢◌, [], ◌∷◌, length, map, not, IfOk, IfSome, IsNone, OnOk};
ghost use Rattle.std.specs.Option.{option_copied};
ghost use Rattle.vo_spec.specs.Pruning.{at_root as first_going, descend as next_going, is_any, needed_columns as named_by};
ghost use Rattle.range_proof.specs.Lending.{lent_need};

use crate::naming::named_columns;
use crate::need_lists::{active_at_root, push_active};
use crate::separators::{is_between, max_lower, min_upper};
use std::alloc::{AllocError, Global};
use std::marker::Model;
use vo_spec::Need;

/// Those of some needs whose scans visit a node.
#[derive(Drop)]
pub struct ActiveNeeds<'n, 'k> {
    all: &'n [&'n Need],
    active: Vec<&'n Need>,
    // The node's place in the tree, where some visit it: no other need has a key from the one
    // separator on and before the other.
    lower: Option<&'k [u8]>,
    upper: Option<&'k [u8]>,
}

impl<'n, 'k> Model for ActiveNeeds<'n, 'k> {
    ghost use Rattle.std.specs.Prelude.{map};
    ghost use Rattle.std.specs.Option.{option_copied};
    ghost use Rattle.range_proof.specs.Lending.{lent_need};
    ghost use Rattle.range_proof.specs.ActiveNeeds.{NeedsAtNode, CoverKeys};

    ghost Value = { NeedsAtNode };

    ghost view = { λ v. record {
      all = map lent_need v.all.now;
      active = map lent_need v.active.items;
    } };

    ghost invariant = { λ v. CoverKeys (map lent_need v.all.now) (map lent_need v.active.items)
        (option_copied v.lower) (option_copied v.upper) };
}

impl<'n, 'k> ActiveNeeds<'n, 'k> {
    /// Those that visit the root.
    pub fn at_root(alloc: Global, all: &'n [&'n Need]) -> Result<ActiveNeeds<'n, 'k>, AllocError>
        ensures { IfOk result (λ v. v ≡ record {
          all = map lent_need all.now;
          active = first_going (map lent_need all.now);
        }) }
    {
        Ok(ActiveNeeds {
            all,
            active: active_at_root(alloc, all)?,
            lower: None,
            upper: None,
        })
    }

    /// Puts into the empty list those of them whose scans go on to the child between these
    /// separators.
    // Inlined as what it calls is.
    #[inline(always)]
    pub fn push_active(
        &self,
        active: &mut Vec<&'n Need>,
        lower: Option<&[u8]>,
        upper: Option<&[u8]>,
    ) -> Result<(), AllocError>
        requires { active.now.items ≡ [] }
        ensures { OnOk result (map lent_need active.new.items
            ≡ next_going self.now.active (option_copied lower.entry) (option_copied upper.entry)) }
    {
        push_active(active, &self.active, lower, upper)
    }

    /// These as they come to the child between these separators, to which they alone go on.
    pub fn at_child(
        &self,
        active: Vec<&'n Need>,
        lower: Option<&'k [u8]>,
        upper: Option<&'k [u8]>,
    ) -> ActiveNeeds<'n, 'k>
        requires { map lent_need active.items
            ≡ next_going self.now.active (option_copied lower) (option_copied upper) }
        ensures { result ≡ record {
          all = self.now.all;
          active = map lent_need active.entry.items;
        } }
    {
        if active.is_empty() {
            return ActiveNeeds {
                all: self.all,
                active,
                lower: None,
                upper: None,
            };
        }
        ActiveNeeds {
            all: self.all,
            active,
            lower: max_lower(self.lower, lower),
            upper: min_upper(self.upper, upper),
        }
    }

    /// Those of them that go on to the child between these separators.
    pub fn descend(
        &self,
        alloc: Global,
        lower: Option<&'k [u8]>,
        upper: Option<&'k [u8]>,
    ) -> Result<ActiveNeeds<'n, 'k>, AllocError>
        ensures { IfOk result (λ v. v ≡ record {
          all = self.now.all;
          active = next_going self.now.active (option_copied lower.entry)
              (option_copied upper.entry);
        }) }
    {
        let mut active = Vec::new(alloc);
        self.push_active(&mut active, lower, upper)?;
        Ok(self.at_child(active, lower, upper))
    }

    /// The same needs at a node that none of them visits.
    pub fn none_active(&self, alloc: Global) -> ActiveNeeds<'n, 'k>
        ensures { result ≡ record { all = self.now.all; active = [] } }
    {
        ActiveNeeds {
            all: self.all,
            active: Vec::new(alloc),
            lower: None,
            upper: None,
        }
    }

    /// The only one, where there is one alone.
    pub fn single_need(&self) -> Option<&'n Need>
        ensures some { IfSome result (λ need. need.now ∷ [] ≡ self.now.active) }
        ensures none { IsNone result → length self.now.active ≢ 1 }
    {
        if self.active.len() == 1 {
            Some(self.active[0])
        } else {
            None
        }
    }

    /// Whether there are none.
    pub fn is_empty(&self) -> bool
        ensures { result ≡ not (is_any self.now.active) }
    {
        self.active.is_empty()
    }

    /// The needs to ask of a key. At a key in the node's place of the tree these are the active
    /// ones alone, since no other need has it.
    // Inlined: asked of each entry.
    #[inline(always)]
    pub fn asked_of(&self, key: &[u8]) -> &[&'n Need]
        ensures { named_by (map lent_need result.now) key.now ≡ named_by self.now.all key.now }
    {
        let fewer = !self.active.is_empty() && self.active.len() < self.all.len();
        if fewer && is_between(self.lower, self.upper, key) {
            &self.active
        } else {
            self.all
        }
    }

    /// The columns that all needs name whose intervals have the key.
    pub fn named_columns(&self, alloc: Global, key: &[u8]) -> Result<Vec<u8>, AllocError>
        ensures { IfOk result (λ columns. columns.items ≡ named_by self.now.all key.now) }
    {
        named_columns(alloc, self.asked_of(key), key)
    }
}
