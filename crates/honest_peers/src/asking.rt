//! What `ask` prints of an honest store's answer.

ghost use Rattle.std.specs.Prelude.{◌≡◌, ◌↔◌, ◌⊎◌, ℕ, ◌≤◌, List, ◌∷◌, drop, take, Option, Some, None, Result, Ok, Err};
ghost use Rattle.outside.specs.Shelf.{Files};
ghost use Rattle.outside.specs.Outputs.{Output};
ghost use Rattle.vo_spec.specs.declared.checks.Answer.{Answer};
ghost use Rattle.vo_spec.specs.declared.checks.CheckFault.{CheckFault};
ghost use Rattle.vo_spec.specs.declared.records.Entry.{Entry};
ghost use Rattle.vo_spec.specs.declared.tables.Command.{Command};
ghost use Rattle.vo_spec.specs.Checks.{CheckOf};
ghost use Rattle.vo_spec.specs.Conditions.{Query};
ghost use Rattle.vo_spec.specs.Journals.{IsJournal, batches_of};
ghost use Rattle.vo_spec.specs.Owners.{AreLoadable};
ghost use Rattle.round_trips.specs.Trips.{plain_answer};
ghost use Rattle.vo_store.specs.declared.fault.StoreFault.TheVariants.{NoVersion, TooLarge};
ghost use Rattle.vo_store.specs.HonestStores.{IsHonestAfter};
ghost use Rattle.vo_store.specs.Loading.{store_behind};
ghost use Rattle.vo_store.specs.declared.signed_record.SignedRecord.{SignedRecord};
ghost use Rattle.vo_store.specs.StoreState.{StoreState, oldest_of};
ghost use Rattle.vo_wire.specs.Answering.{answer_by};
ghost use Rattle.vo_commands.specs.Expected.{Allows, ask_expected};
ghost use Rattle.vo_commands.specs.Lines.{answer_output, store_refusal};
ghost use Rattle.honest_peers.specs.Asking.{IsAsked, batches_asked, version_asked};

use vo_store::laws::answers_are_accepted;

/// Whatever the bytes are, a client has one answer to them.
pub fn checks_have_one_answer()
    ensures { (key : List ℕ) (least : ℕ) (q : Query) (bytes : List ℕ)
        (a b : Result Answer CheckFault) → CheckOf key least q bytes a → CheckOf key least q bytes b
        → a ≡ b }
{}

/// A store that has loaded a journal is honest after the batches of its versions.
pub fn loaded_stores_are_honest()
    ensures { (key journal : List ℕ) (es : List Entry) → IsJournal journal es → AreLoadable key es
        → IsHonestAfter (batches_of (drop 1 es)) (store_behind key es) }
{}

/// Where an honest store answers, `ask` prints the query's result on the plain tables after the
/// store's batches, or after the batches of the version that it asks for, and nothing else; where
/// the store has no version, or doesn't keep that one, or its reply is too large, `ask` says so. Of
/// a version that it keeps there is the result, unless the reply is too large.
pub fn questions_are_answered()
    ensures result { (batches : List (List Command)) (s : StoreState) (key text : List ℕ)
        (at : Option ℕ) (least : ℕ) (files : Files) (q : Query) (coming bytes : List ℕ)
        (queue : List (List ℕ)) (output : Output) → IsHonestAfter batches s
        → IsAsked key text at files s q coming → least ≤ version_asked at batches
        → answer_by s at q ≡ Ok bytes
        → Allows (ask_expected key text at least files (Some (coming ∷ queue))) output
        ↔ (output ≡ answer_output (plain_answer (batches_asked at batches) q)) }
    ensures kept { (batches : List (List Command)) (s : StoreState) (installed : SignedRecord)
        (key text : List ℕ) (version least : ℕ) (files : Files) (q : Query) (coming : List ℕ)
        (queue : List (List ℕ)) (output : Output) → IsHonestAfter batches s
        → s.installed ≡ Some installed → IsAsked key text (Some version) files s q coming
        → oldest_of installed.rec.version ≤ version → version ≤ installed.rec.version
        → least ≤ version
        → Allows (ask_expected key text (Some version) least files (Some (coming ∷ queue))) output
        → (output ≡ answer_output (plain_answer (take version batches) q))
        ⊎ (output ≡ store_refusal 3) }
    ensures too_large { (s : StoreState) (key text : List ℕ) (at : Option ℕ) (least size : ℕ)
        (files : Files) (q : Query) (coming : List ℕ) (queue : List (List ℕ)) (output : Output)
        → IsAsked key text at files s q coming → answer_by s at q ≡ Err (TooLarge size)
        → Allows (ask_expected key text at least files (Some (coming ∷ queue))) output
        ↔ (output ≡ store_refusal 3) }
    ensures empty { (s : StoreState) (key text : List ℕ) (at : Option ℕ) (least : ℕ)
        (files : Files) (q : Query) (coming : List ℕ) (queue : List (List ℕ)) (output : Output)
        → IsAsked key text at files s q coming → s.installed ≡ None
        → Allows (ask_expected key text at least files (Some (coming ∷ queue))) output
        ↔ (output ≡ store_refusal 2) }
    ensures no_version { (s : StoreState) (key text : List ℕ) (at : Option ℕ)
        (least version oldest newest : ℕ) (files : Files) (q : Query) (coming : List ℕ)
        (queue : List (List ℕ)) (output : Output) → IsAsked key text at files s q coming
        → answer_by s at q ≡ Err (NoVersion version oldest newest)
        → Allows (ask_expected key text at least files (Some (coming ∷ queue))) output
        ↔ (output ≡ store_refusal 7) }
{
    answers_are_accepted();
}
