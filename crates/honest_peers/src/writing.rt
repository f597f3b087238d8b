//! What an owner writes is owned, so an audit takes it for what it is.
ghost use Rattle.std.specs.Prelude.{◌≡◌, ℕ, List, Result};
ghost use Rattle.vo_spec.specs.declared.records.Entry.{Entry};
ghost use Rattle.vo_spec.specs.declared.tables.Command.{Command};
ghost use Rattle.vo_spec.specs.Journals.{IsJournal};
ghost use Rattle.vo_spec.specs.Secret.{Secret, public_of_secret};
ghost use Rattle.vo_laws.specs.Sealing.{SignsValidly};
ghost use Rattle.owner_roots.specs.declared.owner_fault.OwnerFault.{OwnerFault};
ghost use Rattle.owner_roots.specs.declared.roots.Roots.{Roots};
ghost use Rattle.owner_roots.specs.Owners.{AreOwnedTo, IsBadAt, IsOwned};
ghost use Rattle.owner_state.specs.declared.steps.Step.{Step};
ghost use Rattle.owner_state.specs.Stepping.{AreStepsTo, StepOf};

/// Entries that are an owner's steps, from version 0 on, are owned by its public key, with the same
/// roots behind them; so bytes that are the journal of these entries are that owner's, and no audit
/// tells an entry of them as bad. And a step has one answer.
pub fn owners_write_what_they_own()
    ensures entries { (secret : Secret) (es : List Entry) (behind : Roots) → SignsValidly secret
        → AreStepsTo secret es behind → AreOwnedTo (public_of_secret secret) es behind }
    ensures journal { (secret : Secret) (bytes : List ℕ) (es : List Entry) (behind : Roots)
        → SignsValidly secret → AreStepsTo secret es behind → IsJournal bytes es
        → IsOwned (public_of_secret secret) bytes es }
    ensures good { (secret : Secret) (bytes : List ℕ) (es : List Entry) (behind : Roots)
        (index : ℕ) → SignsValidly secret → AreStepsTo secret es behind → IsJournal bytes es
        → IsBadAt (public_of_secret secret) bytes index → ⊥ }
    ensures step { (secret : Secret) (roots : Roots) (batch : List Command) (proofs : List ℕ)
        (a b : Result Step OwnerFault) → StepOf secret roots batch proofs a
        → StepOf secret roots batch proofs b → a ≡ b }
{}
