//! Laws of stores, each the contract of a function that does nothing: what they keep call by call,
//! and that clients and owners take what they say.

ghost use Rattle.std.specs.Prelude.{◌≡◌, ℕ, ◌+◌, ◌≤◌, List, [], ◌∷◌, ◌++◌, Some, None, Ok, Err, IsOk, take};
ghost use Rattle.vo_spec.specs.declared.records.Record.{Record};
ghost use Rattle.vo_spec.specs.declared.records.Entry.{Entry};
ghost use Rattle.vo_spec.specs.declared.tables.Command.{Command};
ghost use Rattle.vo_spec.specs.declared.tables.CommandFault.{CommandFault};
ghost use Rattle.vo_spec.specs.Batches.{FitsBatch};
ghost use Rattle.vo_spec.specs.Checks.{CheckOf};
ghost use Rattle.vo_spec.specs.Conditions.{FitsQuery, Query};
ghost use Rattle.vo_spec.specs.Results.{result as result_of};
ghost use Rattle.vo_spec.specs.Tables.{apply_batch, tables_after};
ghost use Rattle.vo_spec.specs.Honest.{RepresentTables, after_work};
ghost use Rattle.owner_roots.specs.declared.owner_fault.OwnerFault.TheVariants.{Command as OwnerRefuses};
ghost use Rattle.owner_roots.specs.Next.{NextOf};
ghost use Rattle.owner_roots.specs.Owners.{IsSignedFor, honest_roots};
ghost use Rattle.vo_store.specs.declared.fault.StoreFault.TheVariants.{Command as Refused};
ghost use Rattle.vo_store.specs.declared.signed_record.SignedRecord.{SignedRecord};
ghost use Rattle.vo_store.specs.StoreState.{StoreState, new_store, oldest_of};
ghost use Rattle.vo_store.specs.HonestStores.{IsAnswerBy, IsHonestAfter};
ghost use Rattle.vo_store.specs.Calls.{answer_at_of, answer_of, install_of, proposal_of};

/// A store's trees stand for the plain tables after the batches of the versions that it has
/// installed: a proposal leaves them, and an install makes the proposed batch's work on them. A
/// batch is refused where the plain tables refuse it, for the same command and the same reason.
pub fn stores_stay_honest()
    ensures new { (key : List ℕ) → IsHonestAfter [] (new_store key) }
    ensures stand { (batches : List (List Command)) (s : StoreState) → IsHonestAfter batches s
        → RepresentTables s.tables (tables_after batches) }
    ensures proposed { (batches : List (List Command)) (batch : List Command) (s next : StoreState)
        (proofs : List ℕ) → IsHonestAfter batches s → FitsBatch batch
        → proposal_of s batch ≡ Ok (next, proofs)
        → IsHonestAfter batches next × IsOk (apply_batch batch (tables_after batches)) }
    ensures refused { (batches : List (List Command)) (batch : List Command) (s : StoreState)
        (index : ℕ) (why : CommandFault) (proofs : List ℕ) → IsHonestAfter batches s
        → FitsBatch batch → proposal_of s batch ≡ Err (Refused index why proofs)
        → apply_batch batch (tables_after batches) ≡ Err (index, why) }
    ensures first { (s next : StoreState) (rec : Record) (signature : List ℕ) → IsHonestAfter [] s
        → s.installed ≡ None → install_of s rec signature ≡ Ok next → IsHonestAfter [] next }
    ensures installed { (batches : List (List Command)) (batch : List Command)
        (s pending next : StoreState) (proofs : List ℕ) (rec : Record) (signature : List ℕ)
        → IsHonestAfter batches s → FitsBatch batch → proposal_of s batch ≡ Ok (pending, proofs)
        → install_of pending rec signature ≡ Ok next
        → IsHonestAfter (batches ++ batch ∷ []) next × (next.tables ≡ after_work s.tables batch) }
{}

/// What a store answers is taken by each client of its key that takes the version, and is the
/// query's result on the plain tables of that version: of the installed one, or of another that is
/// kept. There is an answer by each of these, unless it is too large.
pub fn answers_are_accepted()
    ensures newest { (batches : List (List Command)) (s : StoreState) (installed : SignedRecord)
        (least : ℕ) (q : Query) (bytes : List ℕ) → IsHonestAfter batches s
        → s.installed ≡ Some installed → FitsQuery q → least ≤ installed.rec.version
        → answer_of s q ≡ Ok bytes
        → CheckOf s.key least q bytes (Ok (record {
          version = installed.rec.version;
          outcome = result_of q (tables_after batches);
        })) }
    ensures kept { (batches : List (List Command)) (s : StoreState) (version least : ℕ) (q : Query)
        (bytes : List ℕ) → IsHonestAfter batches s → FitsQuery q → least ≤ version
        → answer_at_of s version q ≡ Ok bytes
        → CheckOf s.key least q bytes (Ok (record {
          version = version;
          outcome = result_of q (tables_after (take version batches));
        })) }
    ensures there { (batches : List (List Command)) (s : StoreState) (installed : SignedRecord)
        (version : ℕ) (q : Query) → IsHonestAfter batches s → s.installed ≡ Some installed
        → oldest_of installed.rec.version ≤ version → version ≤ installed.rec.version
        → IsAnswerBy s.key (take version batches) q (answer_at_of s version q) }
    ensures same { (batches : List (List Command)) (s : StoreState) (installed : SignedRecord)
        (q : Query) → IsHonestAfter batches s → s.installed ≡ Some installed
        → answer_at_of s installed.rec.version q ≡ answer_of s q }
{}

/// Where an owner stands at a store's tables, the store's proofs lead it on to the roots of the
/// tables behind the batch, and the store takes the entry that the owner signs for these; or both
/// refuse the batch for one reason.
pub fn owners_follow_stores()
    ensures accepted { (batches : List (List Command)) (batch : List Command) (version : ℕ)
        (s pending : StoreState) (proofs : List ℕ) → IsHonestAfter batches s → FitsBatch batch
        → proposal_of s batch ≡ Ok (pending, proofs)
        → NextOf (honest_roots version s.tables) batch proofs
        (Ok (honest_roots (version + 1) (after_work s.tables batch))) }
    ensures refused { (batches : List (List Command)) (batch : List Command) (version : ℕ)
        (s : StoreState) (index : ℕ) (why : CommandFault) (proofs : List ℕ)
        → IsHonestAfter batches s → FitsBatch batch
        → proposal_of s batch ≡ Err (Refused index why proofs)
        → NextOf (honest_roots version s.tables) batch proofs (Err (OwnerRefuses index why)) }
    ensures installed { (batch : List Command) (s pending : StoreState) (installed : SignedRecord)
        (proofs : List ℕ) (e : Entry) → s.installed ≡ Some installed
        → proposal_of s batch ≡ Ok (pending, proofs)
        → IsSignedFor s.key
        (honest_roots (installed.rec.version + 1) (after_work s.tables batch)) e
        → IsOk (install_of pending e.rec e.signature) }
{}
