//! Laws of one command, for a walk through the commands of a batch.

ghost use Rattle.std.specs.Prelude.{◌≡◌, ℕ, List, Ok, Some, find, bytes_eq, slice_get, take};
ghost use Rattle.vo_spec.specs.declared.tables.Command.{Command};
ghost use Rattle.vo_spec.specs.declared.records.CatalogTable.{CatalogTable};
ghost use Rattle.vo_spec.specs.Batches.{FitsCommand};
ghost use Rattle.vo_spec.specs.Trees.{RowTree, digest};
ghost use Rattle.vo_spec.specs.Honest.{Stored, catalog_of, table_of, work};
ghost use Rattle.stored_tables.specs.Representation.{IsStanding};
ghost use Rattle.owner_roots.specs.Next.{catalog_after, trees_taken};
ghost use Rattle.root_laws.specs.Following.{IsOrRefusesProof, TakesPart};
ghost use Rattle.root_laws.specs.HonestRoots.{honest_tables_after};

/// Where the tree that a command takes prunes its table's, the catalog after it is that of the
/// trees after it, or the command is refused as on these; or the tree is refused as a proof for
/// what it has open. A command that isn't refused takes a tree of its table's digest, if it takes
/// one.
pub fn commands_are_followed()
    ensures followed { (index : ℕ) (c : Command) (trees : List RowTree) (stored : List Stored)
        → IsStanding stored → TakesPart c trees stored
        → IsOrRefusesProof (catalog_after index c trees (catalog_of stored).tables)
        (honest_tables_after index c stored) }
    ensures accepted { (index : ℕ) (c : Command) (trees : List RowTree) (stored : List Stored)
        (tables : List CatalogTable) → IsStanding stored → TakesPart c trees stored
        → catalog_after index c trees (catalog_of stored).tables ≡ Ok tables
        → (after : List Stored) × (work c stored ≡ Ok after)
        × (tables ≡ (catalog_of after).tables) }
    ensures taken { (index : ℕ) (c : Command) (trees : List RowTree) (stored : List Stored)
        (tables : List CatalogTable)
        → catalog_after index c trees (catalog_of stored).tables ≡ Ok tables → trees_taken c ≡ 1
        → (p : RowTree) × (s : Stored) × (slice_get trees 0 ≡ Some p)
        × (find (λ (r : Stored). bytes_eq r.name (table_of c)) stored ≡ Some s)
        × (digest p ≡ digest s.tree) }
    ensures stands { (c : Command) (stored after : List Stored) → FitsCommand c
        → IsStanding stored → work c stored ≡ Ok after → IsStanding after }
{}
