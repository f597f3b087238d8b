//! Laws of journals: what an owner seals, what a store takes, and what their entries hold.

ghost use Rattle.std.specs.Prelude.{◌≡◌, ◌↔◌, ℕ, ◌*◌, ◌^◌, ◌≤◌, ◌<◌, List, [], ◌∷◌, ◌++◌, take, drop, slice_get, Some, Err, IsOk, length};
ghost use Rattle.std.specs.List.{AllByRecursion};
ghost use Rattle.vo_spec.specs.declared.records.Record.{Record};
ghost use Rattle.vo_spec.specs.declared.records.Entry.{Entry};
ghost use Rattle.vo_spec.specs.declared.tables.Command.{Command};
ghost use Rattle.vo_spec.specs.declared.tables.CommandFault.{CommandFault};
ghost use Rattle.vo_spec.specs.Batches.{FitsBatch};
ghost use Rattle.vo_spec.specs.Fits.{FitsTree};
ghost use Rattle.vo_spec.specs.Owners.{IsSigned, IsLoadableEntry, AreLoadable};
ghost use Rattle.vo_spec.specs.Tables.{apply_batch, after_batch, tables_after};
ghost use Rattle.vo_spec.specs.Keys.{key_signature_len};
ghost use Rattle.vo_spec.specs.Secret.{Secret, public_of_secret, secret_leaves};
ghost use Rattle.vo_spec.specs.Trees.{RowTree};
ghost use Rattle.vo_spec.specs.Parts.{levels};
ghost use Rattle.vo_spec.specs.Inserts.{insert_proof};
ghost use Rattle.vo_spec.specs.Removes.{remove_proof, replace_proof};
ghost use Rattle.vo_spec.specs.TreeBytes.{tree_bytes};
ghost use Rattle.vo_spec.specs.Journals.{max_signature, FitsEntry, Holds, batches_of, tables_at};
ghost use Rattle.vo_spec.specs.Replies.{FitsProofs};
ghost use Rattle.vo_spec.specs.Honest.{RepresentTables, honest_proofs, honest_record, honest_trees, work_all, after_work, seal_batches, sealed_entry};
ghost use Rattle.vo_laws.specs.Sealing.{AreAcceptedAfter, SignsValidly};

/// The trees and the tables of one more batch are what it makes of those before it, and one of no
/// commands before others, as version 0 has, makes no difference; and a batch is accepted on the
/// trees where it is on the tables, or else refused on both for one reason.
pub fn trees_follow_batches()
    ensures trees { (batches : List (List Command)) (batch : List Command)
        → honest_trees (batches ++ batch ∷ []) ≡ after_work (honest_trees batches) batch }
    ensures tables { (batches : List (List Command)) (batch : List Command)
        → tables_after (batches ++ batch ∷ []) ≡ after_batch (tables_after batches) batch }
    ensures no_commands_fit { FitsBatch [] }
    ensures no_tables_before { (batches : List (List Command))
        → tables_after ([] ∷ batches) ≡ tables_after batches }
    ensures no_trees_before { (batches : List (List Command))
        → honest_trees ([] ∷ batches) ≡ honest_trees batches }
    ensures accepted { (batches : List (List Command)) (batch : List Command)
        → AllByRecursion FitsBatch batches → FitsBatch batch
        → IsOk (work_all batch (honest_trees batches))
        ↔ IsOk (apply_batch batch (tables_after batches)) }
    ensures refused { (batches : List (List Command)) (batch : List Command) (index : ℕ)
        (fault : CommandFault) → AllByRecursion FitsBatch batches → FitsBatch batch
        → apply_batch batch (tables_after batches) ≡ Err (index, fault)
        → work_all batch (honest_trees batches) ≡ Err fault }
{}

/// The proofs that an honest owner makes of a batch fit their bytes.
pub fn honest_proofs_fit()
    ensures size { (key : List ℕ) (t : RowTree) → FitsTree t
        → length (tree_bytes (insert_proof key t)) ≤ levels t * 5634 }
    ensures replace_size { (key : List ℕ) (t : RowTree) → FitsTree t
        → length (tree_bytes (replace_proof key t)) ≤ levels t * 5634 }
    ensures remove_size { (key : List ℕ) (t : RowTree) → FitsTree t
        → length (tree_bytes (remove_proof key t)) ≤ levels t * 11268 }
    ensures fit { (earlier : List (List Command)) (batch : List Command)
        → AllByRecursion FitsBatch earlier
        → FitsBatch batch → FitsProofs (honest_proofs batch (honest_trees earlier)) }
{}

/// What an owner seals fits its bytes, as long as the signature is no longer than a key's are; and
/// a store takes it, where its batches are accepted one after the other and its records are signed.
pub fn sealed_entries_are_loadable()
    ensures signatures_short { (key : List ℕ) → key_signature_len key ≤ max_signature }
    ensures entry_fits { (secret : Secret) (earlier : List (List Command)) (batch : List Command)
        → length secret.tree.id ≡ 16
        → AllByRecursion FitsBatch earlier → FitsBatch batch
        → length earlier < 2 ^ 64 → length (sealed_entry secret earlier batch).signature
        ≤ max_signature
        → FitsEntry (sealed_entry secret earlier batch) }
    ensures entries_fit { (secret : Secret) (batches : List (List Command)) → length secret.tree.id ≡ 16
        → AllByRecursion FitsBatch batches
        → length batches < 2 ^ 64 → AllByRecursion
        (λ (e : Entry). length e.signature ≤ max_signature) (seal_batches secret batches)
        → AllByRecursion FitsEntry (seal_batches secret batches) }
    ensures entry_is_loadable { (secret : Secret) (earlier : List (List Command))
        (batch : List Command)
        → IsOk (apply_batch batch (tables_after earlier))
        → IsSigned (public_of_secret secret) (sealed_entry secret earlier batch).rec
        (sealed_entry secret earlier batch).signature
        → IsLoadableEntry (public_of_secret secret) earlier (sealed_entry secret earlier batch) }
    ensures loadable { (secret : Secret) (batches : List (List Command))
        → AreAcceptedAfter [] batches
        → AllByRecursion (λ (e : Entry). IsSigned (public_of_secret secret) e.rec e.signature)
        (seal_batches secret batches)
        → AreLoadable (public_of_secret secret) (seal_batches secret batches) }
    ensures signed { (secret : Secret) (batches : List (List Command)) → SignsValidly secret
        → length batches < secret_leaves secret
        → AllByRecursion (λ (e : Entry). IsSigned (public_of_secret secret) e.rec e.signature)
        (seal_batches secret batches) }
    ensures grows { (secret : Secret) (batches : List (List Command)) (batch : List Command)
        → seal_batches secret (batches ++ batch ∷ []) ≡ seal_batches secret batches
        ++ sealed_entry secret ([] ∷ batches) batch ∷ [] }
    ensures batches { (secret : Secret) (batches : List (List Command))
        → batches_of (seal_batches secret batches) ≡ [] ∷ batches }
{}

/// Journals that a store takes grow entry by entry, and what stands before an entry is such a
/// journal too.
pub fn journals_grow_by_entries()
    ensures taken_first { (key : List ℕ) (e : Entry)
        → AreLoadable key (e ∷ []) ↔ ((e.rec ≡ honest_record key 0 (honest_trees []))
        × IsSigned key e.rec e.signature) }
    ensures taken_grows { (key : List ℕ) (es : List Entry) (e : Entry) → 0 < length es
        → AreLoadable key (es ++ e ∷ [])
        ↔ (AreLoadable key es × IsLoadableEntry key ([] ∷ batches_of (drop 1 es)) e) }
    ensures taken_front { (key : List ℕ) (n : ℕ) (es : List Entry) → AreLoadable key es
        → AreLoadable key (take n es) }
{}

/// Each entry that a store takes holds the record of the honest trees after the batches of its
/// version, signed; these batches fit, and the trees stand for that version's tables.
pub fn journals_hold_honest_records()
    ensures record_is { (key : List ℕ) (es : List Entry) (version : ℕ) (e : Entry)
        → AreLoadable key es
        → slice_get es version ≡ Some e
        → e.rec ≡ honest_record key version (honest_trees (batches_of (take version (drop 1 es)))) }
    ensures signed { (key : List ℕ) (es : List Entry) (version : ℕ) (e : Entry) → AreLoadable key es
        → slice_get es version ≡ Some e
        → IsSigned key e.rec e.signature }
    ensures held { (key : List ℕ) (es : List Entry) (rec : Record) → AreLoadable key es
        → Holds es rec
        → rec ≡ honest_record key rec.version
        (honest_trees (batches_of (take rec.version (drop 1 es)))) }
    ensures batches_fit { (es : List Entry) → AllByRecursion FitsEntry es
        → AllByRecursion FitsBatch (batches_of es) }
    ensures all_fit { (es : List Entry) → AllByRecursion FitsEntry es
        → AllByRecursion FitsBatch (batches_of (drop 1 es)) }
    ensures fit_at { (version : ℕ) (es : List Entry) → AllByRecursion FitsEntry es
        → AllByRecursion FitsBatch (batches_of (take version (drop 1 es))) }
    ensures stand_at { (key : List ℕ) (version : ℕ) (es : List Entry) → AreLoadable key es
        → AllByRecursion FitsEntry es
        → RepresentTables (honest_trees (batches_of (take version (drop 1 es))))
        (tables_at version es) }
{}
