//! Laws of the definitions, each the contract of a function that does nothing: what holds between
//! what a client sees and what the plain tables say.
#![tactic(auto)]

pub mod changes;
pub mod digests;
pub mod journals;
pub mod limits;
pub mod needs;
pub mod scans;

ghost use Rattle.std.specs.Prelude.{◌≡◌, ◌≢◌, ◌⊎◌, ℕ, ◌^◌, ◌≤◌, ◌<◌, List, [], ◌∷◌, None, Ok, length};
ghost use Rattle.std.specs.List.{AllByRecursion, AllZip};
ghost use Rattle.vo_spec.specs.declared.needs.Need.{Need};
ghost use Rattle.vo_spec.specs.declared.records.Catalog.{Catalog};
ghost use Rattle.vo_spec.specs.declared.records.Record.{Record};
ghost use Rattle.vo_spec.specs.declared.values.Row.{Row};
ghost use Rattle.vo_spec.specs.declared.tables.Command.{Command};
ghost use Rattle.vo_spec.specs.declared.tables.Table.{Table};
ghost use Rattle.vo_spec.specs.Batches.{FitsBatch};
ghost use Rattle.vo_spec.specs.Fits.{FitsTree};
ghost use Rattle.vo_spec.specs.Keys.{key_tree};
ghost use Rattle.vo_spec.specs.Owners.{IsSigned};
ghost use Rattle.vo_spec.specs.Records.{FitsCatalog, FitsRecord, magic_of, table_headers, catalog_bytes, catalog_digest};
ghost use Rattle.vo_spec.specs.Collides.{Collides};
ghost use Rattle.vo_spec.specs.Tables.{tables_after};
ghost use Rattle.vo_spec.specs.Conditions.{Query, FitsQuery};
ghost use Rattle.vo_spec.specs.Results.{BoundSource, bound_sources, result as result_of};
ghost use Rattle.vo_spec.specs.Needs.{left_need, needs, tree_at};
ghost use Rattle.vo_spec.specs.Scans.{seen};
ghost use Rattle.vo_spec.specs.Pruning.{prune_tree};
ghost use Rattle.vo_spec.specs.Representation.{Represents};
ghost use Rattle.vo_spec.specs.Trees.{RowTree, Prunes};
ghost use Rattle.vo_spec.specs.Journals.{max_signature};
ghost use Rattle.vo_spec.specs.Replies.{Reply, FitsReply};
ghost use Rattle.vo_spec.specs.Checks.{answer_to, seen_outcome, missing_fault};
ghost use Rattle.vo_spec.specs.Honest.{Stored, RepresentTables, catalog_of, honest_record, honest_reply, honest_trees, trees_for};
ghost use Rattle.vo_laws.specs.FittingTables.{FitTables};

/// Where each tree of a reply prunes the whole tree of its table, nothing is missing, and the whole
/// trees stand for plain tables, the outcome that the trees show is the query's result on these
/// tables. With a limit that takes tables within their limits, whose rows have all their columns.
pub fn complete_proofs_show_the_result()
    ensures { (q : Query) (r : Reply) (stored : List Stored) (tables : List Table)
        → RepresentTables stored tables → (q.limit ≡ None) ⊎ FitTables tables → FitsQuery q
        → r.catalog ≡ catalog_of stored → AllZip Prunes r.trees (trees_for q stored)
        → missing_fault q r ≡ None
        → seen_outcome q r.catalog r.trees ≡ result_of q tables }
{}

/// The trees that an honest owner keeps stand for the plain tables of the same batches, whatever
/// commands these have; and trees, catalogs and records fit their bytes.
pub fn honest_trees_represent_the_tables()
    ensures stand { (batches : List (List Command)) → AllByRecursion FitsBatch batches
        → RepresentTables (honest_trees batches) (tables_after batches) }
    ensures trees_fit { (batches : List (List Command)) → AllByRecursion FitsBatch batches
        → AllByRecursion (λ (s : Stored). FitsTree s.tree) (honest_trees batches) }
    ensures catalog_fits { (batches : List (List Command)) → AllByRecursion FitsBatch batches
        → FitsCatalog (catalog_of (honest_trees batches)) }
    ensures record_fits { (key : List ℕ) (version : ℕ) (stored : List Stored) → 24 ≤ length (key_tree key)
        → version < 2 ^ 64
        → FitsRecord (honest_record key version stored) }
    ensures reply_fits { (batches : List (List Command)) (q : Query) (rec : Record)
        (signature : List ℕ) → AllByRecursion FitsBatch batches
        → FitsRecord rec → rec.magic ≡ magic_of (catalog_of (honest_trees batches))
        → length signature ≤ max_signature
        → FitsReply (honest_reply q rec signature (honest_trees batches)) }
{}

/// A client takes the reply of an honest store, and its outcome is the query's result on the plain
/// tables.
pub fn honest_replies_are_accepted()
    ensures { (batches : List (List Command)) (key : List ℕ) (version : ℕ) (least : ℕ) (q : Query)
        (rec : Record) (signature : List ℕ)
        → AllByRecursion FitsBatch batches → rec ≡ honest_record key version (honest_trees batches)
        → IsSigned key rec signature → least ≤ rec.version → FitsQuery q
        → answer_to key least q (honest_reply q rec signature (honest_trees batches))
        ≡ Ok (record { version = rec.version; outcome = result_of q (tables_after batches) }) }
{}

/// A scan of a tree's proof for one need gives what a scan of the whole tree gives, where the rows
/// have the need's columns; so a query's needs are found from the proof for its left need as from
/// the whole tree.
pub fn proofs_show_what_their_need_sees()
    ensures seen { (cells : ℕ) (need : Need) (t : RowTree) (rows : List Row) → Represents t rows
        → AllByRecursion (λ column. column < cells) need.columns
        → AllByRecursion (λ (row : Row). length row.cells ≡ cells) rows
        → seen need (prune_tree (need ∷ []) t) ≡ seen need t }
    ensures by_seen { (ss : List BoundSource) (q : Query) (trees : List RowTree)
        (others : List RowTree)
        → let left : RowTree = tree_at trees 0 in let other : RowTree = tree_at others 0 in
        left_need ss q left ≡ left_need ss q other
        → seen (left_need ss q left) left ≡ seen (left_need ss q left) other
        → needs ss q trees ≡ needs ss q others }
    ensures needs { (batches : List (List Command)) (q : Query) (others : List RowTree)
        → AllByRecursion FitsBatch batches
        → let stored : List Stored = honest_trees batches in
        let ss : List BoundSource = bound_sources (table_headers (catalog_of stored)) q in
        let left : RowTree = tree_at (trees_for q stored) 0 in
        needs ss q (prune_tree (left_need ss q left ∷ []) left ∷ others)
        ≡ needs ss q (trees_for q stored) }
{}

/// Two catalogs that fit and have the same bytes are the same; so two different ones with one
/// digest give two different strings with one digest.
pub fn catalogs_are_told_from_their_bytes()
    ensures told { (a : Catalog) (b : Catalog) → FitsCatalog a → FitsCatalog b
        → catalog_bytes a ≡ catalog_bytes b → a ≡ b }
    ensures collide { (a : Catalog) (b : Catalog) → FitsCatalog a → FitsCatalog b → a ≢ b
        → catalog_digest a ≡ catalog_digest b
        → Collides (5 ∷ catalog_bytes a) (5 ∷ catalog_bytes b) }
{}
