//! Laws of needs that are cut where no more than the first rows are wanted.
ghost use Rattle.std.specs.Prelude.{◌≡◌, ℕ, ◌<◌, List, [], ◌∷◌, map, filter, take, Some, None, false};
ghost use Rattle.std.specs.List.{AllByRecursion};
ghost use Rattle.vo_spec.specs.declared.needs.Need.{Need};
ghost use Rattle.vo_spec.specs.declared.needs.SeenRow.{SeenRow};
ghost use Rattle.vo_spec.specs.declared.records.Record.{Record};
ghost use Rattle.vo_spec.specs.declared.tables.Command.{Command};
ghost use Rattle.vo_spec.specs.declared.values.Row.{Row};
ghost use Rattle.vo_spec.specs.Batches.{FitsBatch};
ghost use Rattle.vo_spec.specs.Conditions.{Query};
ghost use Rattle.vo_spec.specs.Results.{BoundSource, bound_sources, binding_fault};
ghost use Rattle.vo_spec.specs.Records.{table_headers};
ghost use Rattle.vo_spec.specs.Scans.{in_interval, seen};
ghost use Rattle.vo_spec.specs.Walks.{walk, AreOneWalk};
ghost use Rattle.vo_spec.specs.Cuts.{RowCondition, nth_met, cut_need};
ghost use Rattle.vo_spec.specs.Needs.{uncut_need, meets_row, tree_at};
ghost use Rattle.vo_spec.specs.Pruning.{is_missing, has_surplus, prune_tree};
ghost use Rattle.vo_spec.specs.Representation.{Represents};
ghost use Rattle.vo_spec.specs.Trees.{RowTree, Prunes};
ghost use Rattle.vo_spec.specs.Honest.{Stored, catalog_of, honest_reply, honest_trees, stored_tree};
ghost use Rattle.vo_laws.specs.Columns.{HaveColumns, seen_row};
ghost use Rattle.vo_laws.specs.Cutting.{IsCut, opens_above};

/// Where two parts give one walk for a need, and neither lacks anything of the need that is cut by
/// itself, their cut needs are the same.
pub fn one_walk_cuts_once()
    ensures { (need : Need) (meets : RowCondition) (n : ℕ) (p : RowTree) (q : RowTree)
        → AreOneWalk (walk need p) (walk need q)
        → is_missing (cut_need need meets n p ∷ []) p ≡ false
        → is_missing (cut_need need meets n q ∷ []) q ≡ false
        → cut_need need meets n p ≡ cut_need need meets n q }
{}

/// A part that lacks nothing of the need that is cut by itself, of a tree that stands for rows,
/// shows for it rows of which those that meet the condition are the first n of all, or all.
pub fn cut_proofs_show_the_first_rows()
    ensures { (need : Need) (meets : RowCondition) (n : ℕ) (p : RowTree) (t : RowTree)
        (rows : List Row)
        → 0 < n → Represents t rows → HaveColumns rows need → Prunes p t
        → let cut : Need = cut_need need meets n p in
        is_missing (cut ∷ []) p ≡ false
        → let inside : List Row = filter (λ row. in_interval need.interval row.key) rows in
        let within : List Row = filter (λ row. in_interval cut.interval row.key) rows in
        (seen cut p ≡ Some (map (seen_row need.columns) within))
        × (filter meets (map (seen_row need.columns) within)
        ≡ take n (filter meets (map (seen_row need.columns) inside))) }
{}

/// A tree's proof for the need that is cut by the tree is the proof for the need that is cut by the
/// proof itself; and it is the only part of the tree of which this is so.
pub fn cut_needs_have_one_proof()
    ensures kept { (need : Need) (meets : RowCondition) (n : ℕ) (t : RowTree) (rows : List Row)
        → Represents t rows → HaveColumns rows need
        → let cut : Need = cut_need need meets n t in
        cut_need need meets n (prune_tree (cut ∷ []) t) ≡ cut }
    ensures canonical { (need : Need) (meets : RowCondition) (n : ℕ) (t : RowTree)
        (rows : List Row)
        → Represents t rows → HaveColumns rows need
        → IsCut need meets n (prune_tree (cut_need need meets n t ∷ []) t) }
    ensures only { (need : Need) (meets : RowCondition) (n : ℕ) (p : RowTree) (t : RowTree)
        → Prunes p t → IsCut need meets n p
        → p ≡ prune_tree (cut_need need meets n t ∷ []) t }
{}

/// A part without surplus for the need that is cut at a row by itself has no open node that begins
/// above that row's key.
pub fn cut_proofs_open_nothing_above()
    ensures { (need : Need) (meets : RowCondition) (n : ℕ) (p : RowTree) (row : SeenRow)
        → has_surplus (cut_need need meets n p ∷ []) p ≡ false
        → nth_met meets n (walk need p).rows ≡ Some row
        → opens_above row.key None p ≡ false }
{}

/// The tree of an honest reply to a query of one source with a limit has no open node that begins
/// above the key of the last row that the limit lets through.
pub fn honest_pages_open_nothing_behind()
    ensures { (batches : List (List Command)) (q : Query) (n : ℕ) (rec : Record)
        (signature : List ℕ) (row : SeenRow)
        → AllByRecursion FitsBatch batches → q.join ≡ None → q.limit ≡ Some n
        → let stored : List Stored = honest_trees batches in
        let ss : List BoundSource = bound_sources (table_headers (catalog_of stored)) q in
        binding_fault (table_headers (catalog_of stored)) q ≡ None
        → nth_met (meets_row ss q) n
        (walk (uncut_need ss q) (stored_tree stored q.left.table)).rows ≡ Some row
        → opens_above row.key None (tree_at (honest_reply q rec signature stored).trees 0)
        ≡ false }
{}
