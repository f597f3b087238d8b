//! Laws of secondary indexes.
#![tactic(auto)]

ghost use Rattle.std.specs.Prelude.{◌≡◌, ◌⊎◌, ℕ, ◌==◌, true, false, List, map, filter, bytes_eq, Some};
ghost use Rattle.std.specs.List.{AllByRecursion, list_any};
ghost use Rattle.vo_spec.specs.declared.values.Kind.{Kind};
ghost use Rattle.vo_spec.specs.declared.values.Value.{Value};
ghost use Rattle.vo_spec.specs.declared.values.Row.{Row};
ghost use Rattle.vo_spec.specs.declared.needs.Need.{Need};
ghost use Rattle.vo_spec.specs.declared.queries.Cmp.{Cmp};
ghost use Rattle.vo_spec.specs.Values.{key_of, value_of_key, value_cmp};
ghost use Rattle.vo_spec.specs.Tables.{CellChange, value_at, has_row, put_row, without_row, changed_row, cell_number};
ghost use Rattle.vo_spec.specs.Checks.{is_key_of};
ghost use Rattle.vo_spec.specs.Conditions.{compares};
ghost use Rattle.vo_spec.specs.Trees.{RowTree};
ghost use Rattle.vo_spec.specs.Scans.{in_interval, seen};
ghost use Rattle.vo_spec.specs.Representation.{AreRising};
ghost use Rattle.vo_spec.specs.declared.tables.Schema.{Schema};
ghost use Rattle.vo_spec.specs.declared.keys.Interval.{Interval};
ghost use Rattle.vo_spec.specs.Results.{row_view_of};
ghost use Rattle.vo_laws.specs.Columns.{HaveColumns, seen_row};
ghost use Rattle.index_laws.specs.Indexes.{index_key, index_row, index_rows, in_key_order, index_keys_that, has_bounds, indexed_value, primary_key, table_row, is_index_key, IsIndexable, HasValue, HaveValues, IndexesRows, kind_in, index_row_view};

/// An index key is split back into the value's bytes and the row's key, and what passes for one has
/// a row's key of the table.
pub fn index_keys_are_split()
    ensures value { (k : Kind) (value : Value) (key : List ℕ) → IsIndexable k value
        → indexed_value k (index_key (key_of value) key) ≡ key_of value }
    ensures key { (k : Kind) (value : Value) (key : List ℕ) → IsIndexable k value
        → primary_key k (index_key (key_of value) key) ≡ key }
    ensures read { (k : Kind) (value : Value) (key : List ℕ) → IsIndexable k value
        → value_of_key k (indexed_value k (index_key (key_of value) key)) ≡ value }
    ensures whole { (k : Kind) (key_kind : Kind) (bytes : List ℕ)
        → is_index_key k key_kind bytes ≡ true
        → bytes ≡ index_key (indexed_value k bytes) (primary_key k bytes) }
    ensures row_key { (k : Kind) (key_kind : Kind) (bytes : List ℕ)
        → is_index_key k key_kind bytes ≡ true → is_key_of key_kind (primary_key k bytes) ≡ true }
{}

/// The bounds of a comparison have the index keys of the values that meet it, whatever the rows'
/// keys are.
pub fn bounds_have_what_compares()
    ensures { (k : Kind) (op : Cmp) (value : Value) (literal : Value) (key : List ℕ)
        → has_bounds op ≡ true → IsIndexable k value → IsIndexable k literal
        → in_interval (index_keys_that op (key_of literal)) (index_key (key_of value) key)
        ≡ compares op (value_cmp value literal) }
{}

/// The rows of an index rise by their keys where the table's do.
pub fn index_rows_rise()
    ensures { (k : Kind) (cell : ℕ) (rows : List Row) → HaveValues k cell rows
        → AreRising (map (λ row. row.key) rows)
        → AreRising (map (λ row. row.key) (index_rows cell rows)) }
{}

/// Rows put in the order of their keys are the same rows, and those of one key stay as they were.
/// So a part of a tree in which a key is twice, as no honest one is, still is read in one way.
pub fn key_order_keeps_the_rows()
    ensures { (key : List ℕ) (rows : List Row)
        → filter (λ row. bytes_eq row.key key) (in_key_order rows)
        ≡ filter (λ row. bytes_eq row.key key) rows }
{}

/// What an index has within the bounds of a comparison, put in the order of the rows' keys, are the
/// rows of the table whose value meets it.
pub fn an_index_reads_as_the_table()
    ensures rows { (k : Kind) (cell : ℕ) (op : Cmp) (literal : Value) (rows : List Row)
        → has_bounds op ≡ true → HaveValues k cell rows → IsIndexable k literal
        → AreRising (map (λ row. row.key) rows)
        → in_key_order (map (table_row k) (filter
        (λ row. in_interval (index_keys_that op (key_of literal)) row.key) (index_rows cell rows)))
        ≡ filter (λ row. compares op (value_cmp (value_at row.cells cell) literal)) rows }
    ensures shared { (k : Kind) (cell : ℕ) (interval : Interval) (rows : List Row)
        → HaveValues k cell rows → AreRising (map (λ row. row.key) rows)
        → in_key_order (map (table_row k) (filter (λ row. in_interval interval row.key)
        (index_rows cell rows)))
        ≡ filter (λ row. in_interval interval (index_row cell row).key) rows }
    ensures scanned { (cell : ℕ) (need : Need) (t : RowTree) (rows : List Row)
        → IndexesRows cell t rows → HaveColumns (index_rows cell rows) need
        → let inside : List Row = filter (λ row. in_interval need.interval row.key)
        (index_rows cell rows) in
        seen need t ≡ Some (map (seen_row need.columns) inside) }
{}

/// The changes of an index's tree keep it the index of the table's rows. Where a row is put among
/// those of the table, or removed, its index row is put among those of the index, or removed.
/// Where a row's cells change, its index row's do, if the indexed value stays; in any case that one
/// may be removed and the index row of the changed row put.
pub fn an_index_follows_the_table()
    ensures put { (k : Kind) (cell : ℕ) (row : Row) (rows : List Row)
        → HasValue k cell row → HaveValues k cell rows
        → has_row row.key rows ≡ false
        → index_rows cell (put_row row rows)
        ≡ put_row (index_row cell row) (index_rows cell rows) }
    ensures removed { (k : Kind) (cell : ℕ) (row : Row) (rows : List Row)
        → HasValue k cell row → HaveValues k cell rows
        → AreRising (map (λ r. r.key) rows)
        → AllByRecursion (λ (r : Row). r.key ≡ row.key → r ≡ row) rows
        → index_rows cell (without_row row.key rows)
        ≡ without_row (index_row cell row).key (index_rows cell rows) }
    ensures kept { (k : Kind) (cell : ℕ) (changes : List CellChange) (row : Row) (rows : List Row)
        → HasValue k cell row → HaveValues k cell rows
        → AllByRecursion (λ (r : Row). r.key ≡ row.key → r ≡ row) rows
        → let new : Row = changed_row row.key changes row in
        value_at new.cells cell ≡ value_at row.cells cell
        → index_rows cell (map (changed_row row.key changes) rows)
        ≡ map (changed_row (index_row cell row).key changes) (index_rows cell rows) }
    ensures moved { (k : Kind) (cell : ℕ) (changes : List CellChange) (row : Row) (rows : List Row)
        → HasValue k cell row → HaveValues k cell rows → AreRising (map (λ r. r.key) rows)
        → AllByRecursion (λ (r : Row). r.key ≡ row.key → r ≡ row) rows
        → has_row row.key rows ≡ true
        → let new : Row = changed_row row.key changes row in HasValue k cell new
        → index_rows cell (map (changed_row row.key changes) rows) ≡ put_row (index_row cell new)
        (without_row (index_row cell row).key (index_rows cell rows)) }
{}

/// A row that a scan of an index gives has in the key, in the indexed column and in the need's
/// cells what the table's row has.
pub fn index_rows_show_the_table()
    ensures { (schema : Schema) (indexed : ℕ) (cells : List ℕ) (row : Row)
        → let cell : ℕ = cell_number schema.key indexed in
        IsIndexable (kind_in schema indexed) (value_at row.cells cell)
        → (column : ℕ)
        → ((column == schema.key) ≡ true) ⊎ ((column == indexed) ≡ true)
        ⊎ (list_any (λ c. c == cell_number schema.key column) cells ≡ true)
        → index_row_view schema indexed cells (seen_row cells (index_row cell row)) column
        ≡ row_view_of schema row column }
{}
