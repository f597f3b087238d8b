//! Digests and records of catalogs, whose tables may be lent one by one.
ghost use Rattle.std.specs.Prelude.{◌≡◌, [], ◌∷◌, ◌++◌, ℕ, List, length};
ghost use Rattle.vo_spec.specs.declared.records.Catalog.{Catalog as Plain};
ghost use Rattle.vo_spec.specs.declared.records.CatalogTable.{CatalogTable as PlainTable};
ghost use Rattle.vo_spec.specs.Records.{FitsCatalog, FitsCatalogTable, FitsRecord, catalog_digest, record_of};
ghost use Rattle.version_record.specs.Hashing.{HoldsTables};

use crate::magic::has_nullable;
use crate::tables::write_table;
use tagged_hash::Hasher;
use vo_spec::{Catalog, Digest, Magic, Name, Record, Schema, u16_bytes};

/// A hasher of a catalog that is told one table after another, and what the catalog's record begins
/// with.
#[derive(Drop)]
pub struct CatalogHasher {
    hasher: Hasher,
    magic: Magic,
}

#[tactic(auto, unfolding(vo_spec::specs::Records::catalog_digest, vo_spec::specs::Records::catalog_bytes))]
impl CatalogHasher {
    /// A hasher of a catalog of so many tables, none of which it has been told.
    pub fn new(count: u16) -> CatalogHasher
        ensures { HoldsTables result count [] }
    {
        let mut hasher = Hasher::new();
        hasher.add(&[5]);
        hasher.add(&u16_bytes(count));
        CatalogHasher {
            hasher,
            magic: Magic::Vrec,
        }
    }

    /// Hashes what the catalog says of the table that comes next.
    pub fn add_table(&mut self, name: &Name, schema: &Schema, rows: u64, root: &Digest)
        requires { FitsCatalogTable (record {
          name = name.now;
          schema = schema.now;
          rows = rows;
          root = root.now;
        }) }
        ensures { (count : ℕ) → (tables : List PlainTable) → HoldsTables self.old count tables
            → HoldsTables self.new count (tables ++ record {
              name = name.now;
              schema = schema.now;
              rows = rows;
              root = root.now;
            } ∷ []) }
    {
        if has_nullable(schema) {
            self.magic = Magic::Vrc2;
        }
        let Ok(()) = write_table(&mut self.hasher, name, schema, rows, root);
    }

    /// The digest of the catalog whose tables it was told.
    fn digest(self) -> Digest
        ensures { (catalog : Plain) → HoldsTables self (length catalog.tables) catalog.tables
            → result ≡ catalog_digest catalog }
    {
        self.hasher.end()
    }

    /// The record of this version of the catalog whose tables it was told.
    pub fn record(self, id: [u8; 16], version: u64) -> Record
        ensures value { (catalog : Plain)
            → HoldsTables self (length catalog.tables) catalog.tables
            → result ≡ record_of id version catalog }
        ensures fits { FitsRecord result }
    {
        let magic = self.magic;
        Record {
            magic,
            id,
            version,
            catalog: self.digest(),
        }
    }
}

/// A hasher that was told all tables of the catalog.
fn hasher_of(catalog: &Catalog) -> CatalogHasher
    requires { FitsCatalog catalog.now }
    ensures { HoldsTables result (length catalog.now.tables) catalog.now.tables }
{
    let tables = catalog.tables.as_slice();
    let mut hasher = CatalogHasher::new(tables.len() as u16);
    for table in tables {
        hasher.add_table(&table.name, &table.schema, table.rows, &table.root);
    }
    hasher
}

/// The digest of a catalog: that of its bytes behind `05`.
pub fn catalog_digest(catalog: &Catalog) -> Digest
    requires { FitsCatalog catalog.now }
    ensures { result ≡ catalog_digest catalog.now }
{
    hasher_of(catalog).digest()
}

/// The record of this version of a catalog.
pub fn record_of(id: [u8; 16], version: u64, catalog: &Catalog) -> Record
    requires { FitsCatalog catalog.now }
    ensures value { result ≡ record_of id version catalog.now }
    ensures fits { FitsRecord result }
{
    hasher_of(catalog).record(id, version)
}
