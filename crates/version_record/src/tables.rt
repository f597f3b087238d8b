//! What a catalog says of one table.
ghost use Rattle.std.specs.Prelude.{◌≡◌, [], ◌∷◌, ◌++◌, OnOk, OnErr};
ghost use Rattle.vo_spec.specs.Batches.{FitCounted, FitsColumn, column_bytes, list_bytes};
ghost use Rattle.vo_spec.specs.Bytes.{u64_bytes};
ghost use Rattle.vo_spec.specs.Records.{FitsCatalogTable, catalog_table_bytes};
ghost use Rattle.row_bytes.specs.Fields.{FoundOr};
ghost use Rattle.version_record.specs.Reading.{schema_at, catalog_table_at, is_schema};
ghost use Rattle.row_bytes.specs.Writing.{Writes, WritesSome};
ghost use Rattle.batch_format.specs.Writing.{StaysInFront};

use batch_format::{write_columns, write_name};
use row_bytes::{ByteSink, Cursor, ReadFault, take_columns};
use std::alloc::{AllocError, Global};
use table_list::{has_twice, is_nullable_at, kind_at, same_kind};
use vo_spec::{CatalogTable, Digest, Kind, MAX_ROWS, Name, Schema, u64_bytes};

/// What the catalog says of the table that comes next.
#[tactic(auto, unfolding(crate::specs::Reading::catalog_table_at))]
pub fn take_table(alloc: Global, cursor: &mut Cursor<'_>) -> Result<CatalogTable, ReadFault>
    ensures { FoundOr (λ table. table) result cursor.old cursor.new (catalog_table_at cursor.old) }
{
    let mut ahead = cursor.copy();
    let name = ahead.take_name().ok_or(ReadFault::BadForm)?;
    let schema = take_schema(alloc, &mut ahead)?;
    let rows = ahead.take_u64().ok_or(ReadFault::BadForm)?;
    let root = ahead.take_chunk::<32>().ok_or(ReadFault::BadForm)?;
    if rows > MAX_ROWS {
        return Err(ReadFault::BadForm);
    }
    let name = Name::from_vec(Vec::from_slice(alloc, name)?);
    *cursor = ahead;
    Ok(CatalogTable {
        name,
        schema,
        rows,
        root: Digest::new(*root),
    })
}

#[tactic(auto, unfolding(crate::specs::Reading::schema_at))]
fn take_schema(alloc: Global, cursor: &mut Cursor<'_>) -> Result<Schema, ReadFault>
    ensures { FoundOr (λ schema. schema) result cursor.old cursor.new (schema_at cursor.old) }
{
    let mut ahead = cursor.copy();
    let columns = take_columns(alloc, &mut ahead)?;
    let key = ahead.take_byte().ok_or(ReadFault::BadForm)?;
    let schema = Schema { columns, key };
    if !is_schema(&schema) {
        return Err(ReadFault::BadForm);
    }
    *cursor = ahead;
    Ok(schema)
}

/// Columns of different names, one of them the key, which is no BOOLEAN and not nullable.
fn is_schema(schema: &Schema) -> bool
    ensures { result ≡ is_schema schema.now }
{
    let columns = schema.columns.as_slice();
    let key = schema.key as usize;
    !has_twice(columns)
        && key < columns.len()
        && !same_kind(kind_at(columns, key), Kind::Bool)
        && !is_nullable_at(columns, key)
}

/// Writes what a catalog says of a table.
#[tactic(auto, using(row_bytes::proofs::Writings::some_behind))]
pub fn write_table<S: ByteSink>(
    sink: &mut S,
    name: &Name,
    schema: &Schema,
    rows: u64,
    root: &Digest,
) -> Result<(), S::Fault>
    requires { FitsCatalogTable (record {
      name = name.now;
      schema = schema.now;
      rows = rows;
      root = root.now;
    }) }
    ensures ok { OnOk result (Writes S.HoldsBytes sink.old sink.new (catalog_table_bytes (record {
      name = name.now;
      schema = schema.now;
      rows = rows;
      root = root.now;
    }))) }
    ensures err { OnErr result (WritesSome S.HoldsBytes sink.old sink.new) }
{
    write_name(sink, name)?;
    write_schema(sink, schema)?;
    write_rows(sink, rows, root)
}

#[tactic(auto, using(row_bytes::proofs::Writings::some_behind))]
fn write_schema<S: ByteSink>(sink: &mut S, schema: &Schema) -> Result<(), S::Fault>
    requires { FitCounted FitsColumn schema.now.columns }
    ensures ok { OnOk result (Writes S.HoldsBytes sink.old sink.new
        (list_bytes column_bytes schema.now.columns ++ schema.now.key ∷ [])) }
    ensures err { OnErr result (WritesSome S.HoldsBytes sink.old sink.new) }
{
    write_columns(sink, schema.columns.as_slice())?;
    sink.write(&[schema.key])
}

/// Writes how many rows there are, and the digest of their tree.
#[tactic(auto, using(row_bytes::proofs::Writings::some_behind))]
fn write_rows<S: ByteSink>(sink: &mut S, rows: u64, root: &Digest) -> Result<(), S::Fault>
    ensures ok { OnOk result
        (Writes S.HoldsBytes sink.old sink.new (u64_bytes rows ++ root.now)) }
    ensures err { OnErr result (WritesSome S.HoldsBytes sink.old sink.new) }
{
    sink.write(&u64_bytes(rows))?;
    sink.write(root.as_bytes())
}

/// Puts what the catalog says of a table at the end.
#[tactic(auto, using(batch_format::proofs::Fronts::stays_written))]
pub fn put_table(out: &mut Vec<u8>, table: &CatalogTable) -> Result<(), AllocError>
    requires { FitsCatalogTable table.now }
    ensures ok { OnOk result (out.new.items ≡ out.old.items ++ catalog_table_bytes table.now) }
    ensures err { OnErr result (StaysInFront out.old.items out.new.items) }
{
    write_table(out, &table.name, &table.schema, table.rows, &table.root)
}
