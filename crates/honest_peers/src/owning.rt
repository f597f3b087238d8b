//! What an owner's session with an honest store comes to.

ghost use Rattle.std.specs.Prelude.{◌≡◌, ◌⊎◌, ℕ, List, [], ◌∷◌, length, Option, Some};
ghost use Rattle.outside.specs.ConnectionModel.{ConnectionModel, open_next};
ghost use Rattle.outside.specs.DiskModel.{DiskModel};
ghost use Rattle.outside.specs.FaultRose.{FaultRose};
ghost use Rattle.vo_spec.specs.declared.records.Entry.{Entry};
ghost use Rattle.vo_spec.specs.declared.tables.Batch.{Batch};
ghost use Rattle.vo_spec.specs.declared.tables.Command.{Command};
ghost use Rattle.vo_spec.specs.Honest.{RepresentTables, honest_trees, seal_batches};
ghost use Rattle.vo_spec.specs.Journals.{IsJournal};
ghost use Rattle.vo_spec.specs.Secret.{Secret};
ghost use Rattle.vo_spec.specs.Tables.{tables_after};
ghost use Rattle.vo_laws.specs.Sealing.{SignsValidly};
ghost use Rattle.owner_roots.specs.Owners.{first_roots, honest_roots};
ghost use Rattle.round_trips.specs.Trips.{AreSealable};
ghost use Rattle.link_frames.specs.Scripts.{others};
ghost use Rattle.owner_state.specs.Held.{Held};
ghost use Rattle.owner_state.specs.Sealing.{FitEach};
ghost use Rattle.owner_state.specs.Stepping.{first_entry};
ghost use Rattle.vo_store.specs.StoreState.{StoreState};
ghost use Rattle.owner_session.specs.Endings.{Ending};
ghost use Rattle.owner_session.specs.Runs.{AreJudgements, input_of, snapshot_of};
ghost use Rattle.owner_session.specs.SessionWork.{Input, session};
ghost use Rattle.sql_text.specs.Scripts.{IsScript};
ghost use Rattle.vo_commands.specs.Committing.{IsJudgement, entry_forms};
ghost use Rattle.vo_commands.specs.Owning.{Commits, OwnEnds};
ghost use Rattle.honest_peers.specs.Answering.{AreServed};
ghost use Rattle.honest_peers.specs.Owning.{EndsPlainly, IsOwnerAfter, IsStoreWithin, OwnsPlainly};
ghost use Rattle.honest_peers.specs.Reopening.{EndsOnDisk, ServesScript, owner_expected};

use vo_store::laws::{owners_follow_stores, stores_stay_honest};

/// An owner that starts has a plain journal, and so has one that stands behind what is sealed.
pub fn owners_begin_plainly()
    ensures start { (secret : Secret) → SignsValidly secret
        → IsOwnerAfter secret [] (record { key = secret; roots = first_roots })
        (first_entry secret ∷ []) }
    ensures sealed { (secret : Secret) (batches : List (List Command))
        → AreSealable secret batches
        → let roots = honest_roots (length batches) (honest_trees batches) in
        IsOwnerAfter secret batches (record { key = secret; roots = roots })
        (seal_batches secret batches) }
{}

/// Where an owner's journal is plain, and an honest store of its key has installed a front of the
/// versions, or none: a session over a connection that this store serves ends as the plain tables
/// say, and so with no refusal of the store or of its answers. Owner and store then stand behind
/// the same batches, the journal is plain, and the store's trees stand for the plain tables.
pub fn sessions_end_plainly()
    ensures { (secret : Secret) (batches : List (List Command)) (held : Held) (es : List Entry)
        (new : List Batch) (s later : StoreState) (input : Input Held Entry) (ending : Ending)
        → IsOwnerAfter secret batches held es → IsStoreWithin secret batches s → FitEach new
        → let work = session entry_forms held es new input in
        AreServed s work.events input.coming later
        → AreJudgements IsJudgement (others work.events) → work.value ≡ Some ending
        → (ends : EndsPlainly secret batches held es new (others work.events) ending later)
        × RepresentTables later.tables (tables_after ends.behind) }
{
    stores_stay_honest();
    owners_follow_stores();
}

/// So it is of each run of `own` over such a connection: it ends with status 0 or 8, or with 3
/// where the outside failed, or with 4.
pub fn owners_end_plainly()
    ensures { (secret : Secret) (batches : List (List Command)) (new : List Batch)
        (net later_net disk later_disk out later_out status : ℕ) (held : Held) (es : List Entry)
        (drive : Option DiskModel) (before after : ConnectionModel)
        (written later_written : Option (List ℕ)) (s later : StoreState)
        (run : Commits new (FaultRose net later_net) (FaultRose disk later_disk)
        (FaultRose out later_out) status held es drive before after written later_written)
        → IsOwnerAfter secret batches held es → IsStoreWithin secret batches s → FitEach new
        → let input = input_of (snapshot_of before written held es) run.runs.judgements in
        AreServed s (session entry_forms held es new input).events before.coming later
        → OwnsPlainly secret batches new (FaultRose net later_net ⊎ FaultRose disk later_disk
        ⊎ FaultRose out later_out) status run.later run.entries later }
{
    sessions_end_plainly();
}

/// And so it is of all of `own` where the plain journal of such an owner is on its disk, and its
/// script is one, by whatever ended the runs that made that journal: no bad journal is told, and
/// what is left on the disk then is the owner's journal, which is plain.
pub fn owners_reopen_plainly()
    ensures { (secret : Secret) (batches : List (List Command)) (text : List ℕ)
        (some : List Batch) (files later_files net later_net disk later_disk out later_out : ℕ)
        (status : ℕ) (held : Held) (es : List Entry) (drive : DiskModel)
        (later_drive : Option DiskModel) (before : ConnectionModel)
        (wire : Option ConnectionModel) (written later_written : Option (List ℕ))
        (s : StoreState) → IsOwnerAfter secret batches held es → IsJournal drive.seen es
        → IsStoreWithin secret batches s → IsScript text some
        → ServesScript s held es text (open_next before).coming
        → OwnEnds (owner_expected secret text) (FaultRose files later_files)
        (FaultRose net later_net) (FaultRose disk later_disk) (FaultRose out later_out) status
        (Some drive) later_drive (Some before) wire written later_written
        → (new : List Batch) × IsScript text new
        × EndsOnDisk secret batches new (FaultRose files later_files ⊎ FaultRose net later_net
        ⊎ FaultRose disk later_disk ⊎ FaultRose out later_out) status later_drive }
{
    sessions_end_plainly();
}
