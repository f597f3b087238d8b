//! What is hashed of a row.
ghost use Rattle.std.specs.Prelude.{◌≡◌, ◌≤◌, length, All};
ghost use Rattle.vo_spec.specs.Sha256.{sha256};
ghost use Rattle.vo_spec.specs.declared.cells.Cell.TheVariants.{Shown};
ghost use Rattle.vo_spec.specs.Lent.{value_of};
ghost use Rattle.vo_spec.specs.Values.{value_bytes, FitsValue};
ghost use Rattle.vo_spec.specs.Cells.{cell_digest as cell_digest_of, row_bytes, row_digest as row_digest_of, whole_row};
ghost use Rattle.vo_spec.specs.Fits.{FitsCell, FitsCells, FitsRowPart, max_cells};
ghost use Rattle.tagged_hash.specs.Holding.{HoldsBytes};
ghost use Rattle.row_bytes.specs.Writing.{Writes};

use row_bytes::write_value;
use tagged_hash::{Hasher, digest_of};
use vo_spec::{Cell, Digest, MAX_CELLS, RowPart, Value, ValueRef};

/// How many bytes a row is hashed of at most: its tag, its count, and each cell's digest.
const MAX_ROW_BYTES: usize = 2 + 32 * MAX_CELLS;

/// The digest of the value in this column, numbered from 0 among those that aren't the key.
pub fn attr_digest(column: u8, value: ValueRef<'_>) -> Digest
    requires { FitsValue (value_of value) }
    ensures { result ≡ cell_digest_of column (Shown (value_of value.entry)) }
{
    let mut hasher = Hasher::new();
    hasher.add(&[1, column]);
    add_value(&mut hasher, value);
    hasher.end()
}

/// Adds the value's bytes to what is hashed.
pub fn add_value(hasher: &mut Hasher, value: ValueRef<'_>)
    requires { FitsValue (value_of value) }
    ensures { Writes HoldsBytes hasher.old hasher.new (value_bytes (value_of value.entry)) }
{
    let Ok(()) = write_value(hasher, value);
}

/// The digest of the row: its own where it is one.
pub fn row_digest(part: &RowPart<'_>) -> Digest
    requires { FitsRowPart part.now }
    ensures { result ≡ row_digest_of part.now }
{
    match part {
        RowPart::Digest(digest) => *digest,
        RowPart::Cells(cells) => cells_digest(cells.as_slice()),
    }
}

/// The digest of a row with all its cells shown.
#[tactic(auto, using(crate::proofs::Digests::whole_digests_more))]
pub fn whole_row_digest(values: &[Value]) -> Digest
    requires { FitsCells values.now }
    ensures { result ≡ row_digest_of (whole_row values.now) }
{
    let mut hasher = Hasher::new();
    hasher.add(&[2, values.len() as u8]);
    for (column, value) in values.iter().enumerate() {
        hasher.add(attr_digest(column as u8, value.as_ref()).as_bytes());
    }
    hasher.end()
}

// Hashed in one piece: most of a reply is digests, and each piece that is hashed takes a call.
#[tactic(auto, using(crate::proofs::Digests::cell_digests_more))]
fn cells_digest(cells: &[Cell<'_>]) -> Digest
    requires count { length cells.now ≤ max_cells }
    requires fits { All FitsCell cells.now }
    ensures { result ≡ sha256 (row_bytes cells.now) }
{
    let mut bytes = [0; MAX_ROW_BYTES];
    bytes[0] = 2;
    bytes[1] = cells.len() as u8;
    for (column, cell) in cells.iter().enumerate() {
        let place = 2 + 32 * column;
        write_digest(&mut bytes[place..place + 32], column as u8, cell);
    }
    digest_of(&bytes[..2 + 32 * cells.len()])
}

/// Writes the cell's digest over 32 bytes.
fn write_digest(out: &mut [u8], column: u8, cell: &Cell<'_>)
    requires room { length out.old ≡ 32 }
    requires fits { FitsCell cell.now }
    ensures { out.new ≡ cell_digest_of column cell.now }
{
    match cell {
        Cell::Shown(value) => out.copy_from_slice(attr_digest(column, value.as_ref()).as_bytes()),
        Cell::Hidden(digest) => out.copy_from_slice(digest.as_bytes()),
    }
}

/// The digest of the cell in this column, numbered as for `attr_digest`.
pub fn cell_digest(column: u8, cell: &Cell<'_>) -> Digest
    requires { FitsCell cell.now }
    ensures { result ≡ cell_digest_of column cell.now }
{
    match cell {
        Cell::Shown(value) => attr_digest(column, value.as_ref()),
        Cell::Hidden(digest) => *digest,
    }
}
