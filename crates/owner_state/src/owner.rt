//! An owner that holds its key and roots, and no tables.
use crate::entry_signing::sign_entry;
use crate::steps::Step;
use crate::version_zero::{first_roots, no_proofs};
use lms_sign::SecretKey;
use owner_roots::Roots;
use std::alloc::{AllocError, Global};
use std::marker::Model;
use vo_spec::{Batch, Entry, List};

/// An owner: the key that it signs with, and the roots behind the last entry that it took for its
/// own.
#[derive(Drop)]
pub struct Owner {
    pub(crate) key: SecretKey,
    pub(crate) roots: Roots,
}

impl Model for Owner {
    ghost use Rattle.vo_spec.specs.Records.{FitsCatalog};
    ghost use Rattle.owner_state.specs.Held.{Held};

    ghost Value = { Held };

    ghost view = { λ owner. record { key = owner.key; roots = owner.roots } };

    ghost invariant = { λ owner. FitsCatalog owner.roots.catalog };
}

impl Owner {
    ghost use Rattle.std.specs.Prelude.{◌≡◌, ◌↔◌, ◌+◌, ◌<◌, ◌≤◌, IfOk, IsTrue, false};
    ghost use Rattle.vo_spec.specs.Journals.{FitsEntry};
    ghost use Rattle.vo_spec.specs.Records.{FitsCatalog};
    ghost use Rattle.vo_spec.specs.Secret.{public_of_secret, secret_leaves};
    ghost use Rattle.vo_laws.specs.Sealing.{SignsValidly};
    ghost use Rattle.owner_roots.specs.Owners.{IsFirstEntry, IsNextEntry, first_roots};
    ghost use Rattle.owner_state.specs.Stepping.{first_entry};

    /// An owner of no tables, and the entry of version 0.
    pub fn start(alloc: Global, key: &SecretKey) -> Result<(Owner, Entry), AllocError>
        ensures key { IfOk result (λ started. started.0.key ≡ key.now) }
        ensures roots { IfOk result (λ started. started.0.roots ≡ first_roots) }
        ensures entry { IfOk result (λ started. started.1 ≡ first_entry key.now) }
        ensures first { IfOk result (λ started.
            IsFirstEntry (public_of_secret key.now) started.1) }
        ensures fits { IfOk result (λ started. FitsEntry started.1) }
        ensures signs { IfOk result (λ _. SignsValidly key.now) }
    {
        let proofs = no_proofs(alloc)?;
        let mut own = key.copy(alloc)?;
        own.keep_tree_of(alloc, 0)?;
        let roots = first_roots(alloc);
        let batch = Batch {
            commands: List::new(alloc),
        };
        let entry = sign_entry(alloc, &own, &roots, batch, proofs)?;
        Ok((Owner { key: own, roots }, entry))
    }

    /// The roots behind the last entry.
    pub fn roots(&self) -> &Roots
        ensures roots { result.now ≡ self.now.roots }
        ensures fits { FitsCatalog result.now.catalog }
    {
        &self.roots
    }

    /// Whether the key has no leaf left for another version.
    pub(crate) fn is_spent(&self) -> bool
        ensures spent { IsTrue result ↔ (secret_leaves self.now.key ≤ self.now.roots.version + 1) }
        ensures few { result ≡ false → self.now.roots.version + 1 < 1048576 }
    {
        self.roots.version >= self.key.leaf_count() - 1
    }

    /// Makes the tree of a key of two levels that the next version is signed in, and keeps it, so
    /// that each is made once by an owner that takes one step after the other.
    pub fn prepare(&mut self, alloc: Global) -> Result<(), AllocError>
        ensures { self.new ≡ self.old }
    {
        if self.is_spent() {
            return Ok(());
        }
        self.key.keep_tree_of(alloc, self.roots.version + 1)
    }

    /// Takes a step: the owner stands behind its entry from then on.
    pub fn advance(&mut self, step: Step)
        requires step { IsNextEntry (public_of_secret self.old.key)
            self.old.roots step.entry step.roots }
        requires catalog { FitsCatalog step.roots.catalog }
        ensures roots { self.new.roots ≡ step.roots }
        ensures key { self.new.key ≡ self.old.key }
    {
        self.roots = step.roots;
    }
}
