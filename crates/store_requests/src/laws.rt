//! Laws of what is put and read, as contracts of functions that do nothing.
ghost use Rattle.std.specs.Prelude.{◌≡◌, ◌↔◌, ◌<◌, ◌≤◌, ◌^◌, ℕ, List, length, Option, Some, IfSome};
ghost use Rattle.std.specs.Str.{IsUtf8};
ghost use Rattle.vo_spec.specs.declared.records.Record.{Record};
ghost use Rattle.vo_spec.specs.declared.tables.Command.{Command};
ghost use Rattle.vo_spec.specs.Batches.{FitsBatch, batch_bytes};
ghost use Rattle.vo_spec.specs.Bytes.{u64_bytes};
ghost use Rattle.vo_spec.specs.Conditions.{Query};
ghost use Rattle.vo_spec.specs.Journals.{max_signature};
ghost use Rattle.vo_spec.specs.Records.{FitsRecord};
ghost use Rattle.batch_format.specs.BatchReading.{batch_of};
ghost use Rattle.sql_text.specs.Limits.{max_sql_bytes};
ghost use Rattle.sql_text.specs.Queries.{query};
ghost use Rattle.sql_text.specs.Texts.{IsTextOf};
ghost use Rattle.store_requests.specs.Bodies.{install_bytes, install_in, standing_bytes, standing_in, version_in, query_at_bytes, query_at_in};
ghost use Rattle.store_requests.specs.Texts.{query_in};

/// What the one side puts is what the other side reads.
pub fn bodies_read_back()
    ensures batch { (commands : List Command) → FitsBatch commands
        → batch_of (batch_bytes commands) ≡ Some commands }
    ensures install { (rec : Record) (signature : List ℕ) → FitsRecord rec
        → length signature ≤ max_signature
        → install_in (install_bytes rec signature) ≡ Some (rec, signature) }
    ensures standing { (standing : Option Record) → IfSome standing FitsRecord
        → standing_in (standing_bytes standing) ≡ Some standing }
    ensures version { (version : ℕ) → version < 2 ^ 64
        → version_in (u64_bytes version) ≡ Some version }
    ensures query_at { (version : ℕ) (text : List ℕ) → version < 2 ^ 64
        → query_at_in (query_at_bytes version text) ≡ Some (version, text) }
{}

/// A text is read as a query exactly where it is one by the grammar.
pub fn queries_are_read()
    ensures { (text : List ℕ) (q : Query) → IsUtf8 text
        → (query_in text ≡ Some q) ↔ IsTextOf max_sql_bytes query text q }
{}
