//! What records begin with, which their catalogs decide.
ghost use Rattle.std.specs.Prelude.{◌≡◌};
ghost use Rattle.std.specs.List.{list_any};
ghost use Rattle.vo_spec.specs.Records.{has_nullable, magic_bytes, magic_of};
ghost use Rattle.row_bytes.specs.Fields.{Found};
ghost use Rattle.version_record.specs.Reading.{magic_at, magic_of_word, same_magic};

use row_bytes::Cursor;
use vo_spec::{Catalog, CatalogTable, Magic, Schema};

pub(crate) fn magic_bytes(magic: Magic) -> [u8; 4]
    ensures { result ≡ magic_bytes magic }
{
    match magic {
        Magic::Vrec => *b"VREC",
        Magic::Vrc2 => *b"VRC2",
    }
}

fn magic_of_word(word: &[u8; 4]) -> Option<Magic>
    ensures { result ≡ magic_of_word word.now }
{
    if word == b"VREC" {
        Some(Magic::Vrec)
    } else if word == b"VRC2" {
        Some(Magic::Vrc2)
    } else {
        None
    }
}

/// What the record that comes next begins with.
#[tactic(auto, unfolding(crate::specs::Reading::magic_at))]
pub(crate) fn take_magic(cursor: &mut Cursor<'_>) -> Option<Magic>
    ensures { Found (λ magic. magic) result cursor.old cursor.new (magic_at cursor.old) }
{
    let mut ahead = cursor.copy();
    let magic = magic_of_word(ahead.take_chunk::<4>()?)?;
    *cursor = ahead;
    Some(magic)
}

pub(crate) fn same_magic(a: Magic, b: Magic) -> bool
    ensures { result ≡ same_magic a b }
{
    matches!(
        (a, b),
        (Magic::Vrec, Magic::Vrec) | (Magic::Vrc2, Magic::Vrc2)
    )
}

/// Whether some column is nullable.
pub(crate) fn has_nullable(schema: &Schema) -> bool
    ensures { result ≡ list_any (λ c. c.nullable) schema.now.columns }
{
    schema
        .columns
        .as_slice()
        .iter()
        .any(|column| column.nullable)
}

/// Whether some column of some table is nullable.
fn have_nullable(tables: &[CatalogTable]) -> bool
    ensures { result ≡ list_any has_nullable tables.now }
{
    tables.iter().any(|table| has_nullable(&table.schema))
}

/// What the record of a catalog begins with.
pub(crate) fn magic_of(catalog: &Catalog) -> Magic
    ensures { result ≡ magic_of catalog.now }
{
    if have_nullable(catalog.tables.as_slice()) {
        Magic::Vrc2
    } else {
        Magic::Vrec
    }
}
