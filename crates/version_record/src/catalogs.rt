//! Catalogs as bytes.
ghost use Rattle.std.specs.Prelude.{◌≡◌, ◌∷◌, ◌++◌, flat_map, IfOk, OnOk, OnErr, Some};
ghost use Rattle.std.specs.List.{AllByRecursion};
ghost use Rattle.vo_spec.specs.declared.records.Catalog.{Catalog as Plain};
ghost use Rattle.vo_spec.specs.Records.{IsCatalog, FitsCatalog, FitsCatalogTable, are_rising, catalog_bytes, catalog_table_bytes};
ghost use Rattle.vo_spec.specs.Values.{key_lt};
ghost use Rattle.row_bytes.specs.Fields.{FoundOr, ReadsAs, times, whole};
ghost use Rattle.version_record.specs.Reading.{catalog_at, catalog_of_record, catalog_table_at, names_of};
ghost use Rattle.batch_format.specs.Writing.{StaysInFront};

use crate::magic::{magic_of, same_magic};
use crate::tables::{put_table, take_table};
use row_bytes::{Cursor, ReadFault};
use std::alloc::{AllocError, Global};
use vo_spec::{Catalog, CatalogTable, List, MAX_TABLES, Magic, Name, u16_bytes};

/// The one spelling of a catalog.
pub fn catalog_bytes(alloc: Global, catalog: &Catalog) -> Result<Vec<u8>, AllocError>
    requires { FitsCatalog catalog.now }
    ensures { IfOk result (λ bytes. bytes.items ≡ catalog_bytes catalog.now) }
{
    let mut bytes = Vec::new(alloc);
    put_catalog(&mut bytes, catalog)?;
    Ok(bytes)
}

/// The bytes whose digest is the catalog's.
pub fn catalog_preimage(alloc: Global, catalog: &Catalog) -> Result<Vec<u8>, AllocError>
    requires { FitsCatalog catalog.now }
    ensures { IfOk result (λ bytes. bytes.items ≡ 5 ∷ catalog_bytes catalog.now) }
{
    let mut bytes = Vec::from_slice(alloc, &[5])?;
    put_catalog(&mut bytes, catalog)?;
    Ok(bytes)
}

/// Puts the bytes of a catalog at the end. Where memory runs out, what was there stays in front.
#[tactic(auto, unfolding(vo_spec::specs::Records::catalog_bytes), using(batch_format::proofs::Fronts::stays_itself, batch_format::proofs::Fronts::stays_before, batch_format::proofs::Fronts::stays_behind))]
pub fn put_catalog(out: &mut Vec<u8>, catalog: &Catalog) -> Result<(), AllocError>
    requires { FitsCatalog catalog.now }
    ensures ok { OnOk result (out.new.items ≡ out.old.items ++ catalog_bytes catalog.now) }
    ensures err { OnErr result (StaysInFront out.old.items out.new.items) }
{
    let tables = catalog.tables.as_slice();
    out.extend_from_slice(&u16_bytes(tables.len() as u16))?;
    put_tables(out, tables)
}

#[tactic(auto, using(batch_format::proofs::Fronts::stays_itself, batch_format::proofs::Fronts::stays_before, batch_format::proofs::Fronts::stays_behind))]
fn put_tables(out: &mut Vec<u8>, tables: &[CatalogTable]) -> Result<(), AllocError>
    requires { AllByRecursion FitsCatalogTable tables.now }
    ensures ok { OnOk result (out.new.items ≡ out.old.items
        ++ flat_map catalog_table_bytes tables.now) }
    ensures err { OnErr result (StaysInFront out.old.items out.new.items) }
{
    for table in tables {
        put_table(out, table)?;
    }
    Ok(())
}

/// The catalog that comes next.
#[tactic(auto, unfolding(crate::specs::Reading::catalog_at))]
fn take_catalog(alloc: Global, cursor: &mut Cursor<'_>) -> Result<Catalog, ReadFault>
    ensures { FoundOr (λ catalog. catalog) result cursor.old cursor.new (catalog_at cursor.old) }
{
    let mut ahead = cursor.copy();
    let count = ahead.take_u16().ok_or(ReadFault::BadForm)?;
    if count as usize > MAX_TABLES {
        return Err(ReadFault::BadForm);
    }
    let tables = take_tables(alloc, &mut ahead, count)?;
    if !are_rising(&tables) {
        return Err(ReadFault::BadForm);
    }
    *cursor = ahead;
    Ok(Catalog {
        tables: List::from_vec(tables),
    })
}

/// The catalog that all the bytes are, by what reading gives.
fn catalog_in(alloc: Global, bytes: &[u8]) -> Result<Catalog, ReadFault>
    ensures { ReadsAs (λ catalog. catalog) result (whole (catalog_at bytes.now)) }
{
    let mut cursor = Cursor::new(bytes);
    let catalog = take_catalog(alloc, &mut cursor)?;
    if !cursor.is_empty() {
        return Err(ReadFault::BadForm);
    }
    Ok(catalog)
}

/// The catalog that all the bytes are, if its record begins with this.
#[tactic(auto, unfolding(crate::specs::Reading::catalog_of_record))]
pub fn catalog_of_record(alloc: Global, magic: Magic, bytes: &[u8]) -> Result<Catalog, ReadFault>
    ensures { ReadsAs (λ catalog. catalog) result (catalog_of_record magic bytes.now) }
{
    let catalog = catalog_in(alloc, bytes)?;
    if !same_magic(magic, magic_of(&catalog)) {
        return Err(ReadFault::BadForm);
    }
    Ok(catalog)
}

/// The catalog that all the bytes are.
pub fn read_catalog(alloc: Global, bytes: &[u8]) -> Result<Catalog, ReadFault>
    // What is read is spelled so, and keeps the limits.
    ensures found { IfOk result (λ catalog. IsCatalog bytes.now catalog) }

    // What is spelled so is read, unless memory runs out.
    ensures only { (catalog : Plain) → IsCatalog bytes.now catalog
        → ReadsAs (λ catalog. catalog) result (Some catalog) }
{
    catalog_in(alloc, bytes)
}

fn take_tables(
    alloc: Global,
    cursor: &mut Cursor<'_>,
    count: u16,
) -> Result<Vec<CatalogTable>, ReadFault>
    ensures { FoundOr (λ tables. tables.items) result cursor.old cursor.new
        (times catalog_table_at count cursor.old) }
{
    let mut ahead = cursor.copy();
    let mut tables = Vec::new(alloc);
    for _ in 0..count {
        match take_table(alloc, &mut ahead) {
            Ok(table) => tables.push(table)?,
            Err(fault) => return Err(fault),
        }
    }
    *cursor = ahead;
    Ok(tables)
}

/// Whether each name is below the next.
fn are_rising(tables: &[CatalogTable]) -> bool
    ensures { result ≡ are_rising (names_of tables.now) }
{
    let Some((first, others)) = tables.split_first() else {
        return true;
    };
    match others.split_first() {
        Some((second, _)) => is_below(&first.name, &second.name) && are_rising(others),
        None => true,
    }
}

fn is_below(a: &Name, b: &Name) -> bool
    ensures { result ≡ key_lt a.now b.now }
{
    a.as_bytes().cmp(b.as_bytes()).is_lt()
}
