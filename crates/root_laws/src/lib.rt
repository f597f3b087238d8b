//! Laws of owners that hold roots alone, each the contract of a function that does nothing: they
//! follow honest trees, and where they don't, a proof is no part of these.
#![tactic(auto)]

pub mod commands;
pub mod readings;

ghost use Rattle.std.specs.Prelude.{◌≡◌, ℕ, ◌+◌, List, Ok, Err};
ghost use Rattle.std.specs.List.{AllByRecursion};
ghost use Rattle.vo_spec.specs.declared.tables.Command.{Command};
ghost use Rattle.vo_spec.specs.declared.tables.CommandFault.{CommandFault};
ghost use Rattle.vo_spec.specs.Batches.{FitsBatch};
ghost use Rattle.vo_spec.specs.Trees.{RowTree};
ghost use Rattle.vo_spec.specs.Tables.{apply_batch, tables_after};
ghost use Rattle.vo_spec.specs.Replies.{AreProofs, proofs_bytes};
ghost use Rattle.vo_spec.specs.Honest.{Stored, honest_proofs, honest_trees, work_all};
ghost use Rattle.stored_tables.specs.Representation.{IsStanding};
ghost use Rattle.stored_tables.specs.Working.{work_from};
ghost use Rattle.owner_roots.specs.declared.owner_fault.OwnerFault.TheVariants.{Command as Refused};
ghost use Rattle.owner_roots.specs.Next.{NextOf, next_roots};
ghost use Rattle.owner_roots.specs.Owners.{honest_roots};
ghost use Rattle.root_laws.specs.Following.{IsOrRefusesProof, TakeParts};
ghost use Rattle.root_laws.specs.HonestRoots.{honest_next_roots};

/// An owner with the roots of honest trees has those of the next ones after an honest store's
/// proofs of a batch, or refuses it as the plain tables do.
pub fn honest_proofs_are_followed()
    ensures standing { (stored : List Stored) (version : ℕ) (batch : List Command)
        → IsStanding stored → FitsBatch batch
        → next_roots (honest_roots version stored) batch (honest_proofs batch stored)
        ≡ honest_next_roots version batch stored }
    ensures accepted { (earlier : List (List Command)) (version : ℕ) (batch : List Command)
        (after : List Stored) → AllByRecursion FitsBatch earlier → FitsBatch batch
        → work_all batch (honest_trees earlier) ≡ Ok after
        → next_roots (honest_roots version (honest_trees earlier)) batch
        (honest_proofs batch (honest_trees earlier)) ≡ Ok (honest_roots (version + 1) after) }
    ensures refused { (earlier : List (List Command)) (version : ℕ) (batch : List Command)
        (index : ℕ) (why : CommandFault) → AllByRecursion FitsBatch earlier → FitsBatch batch
        → apply_batch batch (tables_after earlier) ≡ Err (index, why)
        → next_roots (honest_roots version (honest_trees earlier)) batch
        (honest_proofs batch (honest_trees earlier)) ≡ Err (Refused index why) }
    ensures read { (earlier : List (List Command)) (version : ℕ) (batch : List Command)
        → AllByRecursion FitsBatch earlier → FitsBatch batch
        → NextOf (honest_roots version (honest_trees earlier)) batch
        (proofs_bytes (honest_proofs batch (honest_trees earlier)))
        (honest_next_roots version batch (honest_trees earlier)) }
{}

/// So it is with any trees that prune the honest ones, command by command; or one of them is
/// refused as a proof for what it has open.
pub fn parts_are_followed()
    ensures { (stored : List Stored) (version : ℕ) (batch : List Command) (trees : List RowTree)
        → IsStanding stored → FitsBatch batch → TakeParts batch trees stored
        → IsOrRefusesProof (next_roots (honest_roots version stored) batch trees)
        (honest_next_roots version batch stored) }
{}

/// The next roots by honest trees are the roots of what the batch makes of these, or its refusal on
/// the plain tables; and honest trees stand.
pub fn honest_roots_follow_the_trees()
    ensures accepted { (stored after : List Stored) (version : ℕ) (batch : List Command)
        → work_all batch stored ≡ Ok after
        → honest_next_roots version batch stored ≡ Ok (honest_roots (version + 1) after) }
    ensures refused { (earlier : List (List Command)) (version : ℕ) (batch : List Command)
        (index : ℕ) (why : CommandFault) → AllByRecursion FitsBatch earlier → FitsBatch batch
        → apply_batch batch (tables_after earlier) ≡ Err (index, why)
        → honest_next_roots version batch (honest_trees earlier) ≡ Err (Refused index why) }
    ensures stand { (earlier : List (List Command)) → AllByRecursion FitsBatch earlier
        → IsStanding (honest_trees earlier) }
{}
