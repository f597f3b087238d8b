//! An owner, as a session sees it: where it stands, its journal, and what it makes of a batch.
ghost use Rattle.std.specs.Prelude.{◌≡◌, ℕ, ◌+◌, ◌<◌, ◌≤◌, ◌^◌, List, [], ◌∷◌, ◌++◌, length, slice_get, Some, IfOk, OnOk, OnErr, IsErrOf};
ghost use Rattle.outside.specs.FaultRose.{FaultRose};
ghost use Rattle.owner_session.specs.SessionWork.{Forms, Judgement, StepsTo};
ghost use Rattle.owner_session.specs.Runs.{KeepsBy};

use crate::place::Place;
use crate::refusals::{NoAppend, NoStep};
use std::alloc::{AllocError, Global};

/// An owner with its journal, which stands on a disk.
pub trait SessionOwner {
    type Batch;

    /// An entry, and where the owner stands behind it.
    type Step: Drop;

    ghost State: { Type 0 };

    ghost Entry: { Type 0 };

    /// Where the owner stands: what its next step goes by.
    ghost state: { Self → State };

    /// The journal's entries, oldest first.
    ghost entries: { Self → List Entry };

    /// How batches and entries stand in frames, and where a store stands.
    ghost forms: { Forms Self.Batch Entry };

    /// The batch has a body that proposes it.
    ghost CanPropose: { Self.Batch → Type 0 };

    /// What the owner, standing so, makes of a batch by the bytes of its proofs.
    ghost IsJudgement: { State → Self.Batch → List ℕ → Judgement State Entry → Type 0 };

    /// A step's entry.
    ghost entry_of: { Self.Step → Entry };

    /// Where an owner that stands so stands behind it.
    ghost next_of: { State → Self.Step → State };

    /// The step is one of an owner that stands so.
    ghost Follows: { State → Self.Step → Type 0 };

    /// It may go on: no append has failed, and what it holds can be put in frames.
    ghost Works: { Self → Type 0 };

    /// A stop of the machine leaves the entries.
    ghost Keeps: { Self → Type 0 };

    /// A stop leaves the entries, or these and this one.
    ghost KeepsWith: { Self → Entry → Type 0 };

    /// How many calls of the disk have failed.
    ghost faults: { Self → ℕ };

    /// How many entries the journal has.
    fn entry_count(&self) -> usize
        ensures { result ≡ length (entries self.now) };

    /// Where a store stands that answers with this standing.
    fn place(&self, standing: &[u8]) -> Place
        ensures { result ≡ forms.place (entries self.now) standing.now };

    /// The version of an entry.
    fn version(&self, index: usize) -> u64
        requires { index < length (entries self.now) }
        ensures { (entry : Entry) → slice_get (entries self.now) index ≡ Some entry
            → result ≡ forms.version entry };

    /// The body that installs an entry.
    fn install_body(&self, alloc: Global, index: usize) -> Result<Vec<u8>, AllocError>
        requires index { index < length (entries self.now) }
        requires works { Works self.now }
        ensures body { IfOk result (λ body. (entry : Entry)
            → slice_get (entries self.now) index ≡ Some entry
            → body.items ≡ forms.install entry) }
        ensures fits { IfOk result (λ body. length body.items + 1 < 2 ^ 32) };

    /// The body that proposes an entry's batch.
    fn entry_proposal(&self, alloc: Global, index: usize) -> Result<Vec<u8>, AllocError>
        requires index { index < length (entries self.now) }
        requires works { Works self.now }
        ensures body { IfOk result (λ body. (entry : Entry)
            → slice_get (entries self.now) index ≡ Some entry
            → body.items ≡ forms.proposal (forms.batch entry)) }
        ensures fits { IfOk result (λ body. length body.items + 1 < 2 ^ 32) };

    /// The body that proposes a batch.
    fn batch_proposal(&self, alloc: Global, batch: &Self::Batch) -> Result<Vec<u8>, AllocError>
        requires { CanPropose batch.now }
        ensures body { IfOk result (λ body. body.items ≡ forms.proposal batch.now) }
        ensures fits { IfOk result (λ body. length body.items + 1 < 2 ^ 32) };

    /// What the owner makes of a batch. It stays where it is.
    fn step(&self, alloc: Global, batch: &Self::Batch, proofs: &[u8]) -> Result<Self::Step, NoStep>
        requires { CanPropose batch.now }
        ensures answer { StepsTo (IsJudgement (state self.now) batch.now proofs.now) entry_of
            (next_of (state self.now)) result }
        ensures follows { IfOk result (Follows (state self.now)) };

    /// Puts a step's entry at the journal's end; the owner stands behind it then.
    fn append(&mut self, alloc: Global, step: Self::Step) -> Result<(), NoAppend>
        requires follows { Follows (state self.old) step }
        requires works { Works self.old }
        ensures state { OnOk result (state self.new ≡ next_of (state self.old) step) }
        ensures entries { OnOk result
            (entries self.new ≡ entries self.old ++ entry_of step ∷ []) }
        ensures works { OnOk result (Works self.new) }
        ensures err_state { OnErr result (state self.new ≡ state self.old) }
        ensures err_entries { OnErr result (entries self.new ≡ entries self.old) }
        ensures keeps { Keeps self.old
            → KeepsBy result (Keeps self.new) (KeepsWith self.new (entry_of step)) }

        ensures counts { faults self.old ≤ faults self.new }
        ensures cause { IsErrOf result NoAppend.Disk
            → FaultRose (faults self.old) (faults self.new) }
        ensures quiet { (IsErrOf result NoAppend.Disk → ⊥)
            → faults self.new ≡ faults self.old };
}
