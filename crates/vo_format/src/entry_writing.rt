//! Writing the entries of leaves.
ghost use Rattle.std.specs.Prelude.{◌≡◌, ◌++◌, ◌≤◌, [], ◌∷◌, length, flat_map, OnOk, OnErr, All};
ghost use Rattle.vo_spec.specs.Bytes.{string};
ghost use Rattle.vo_spec.specs.Fits.{FitsCell, FitsEntry, FitsKey, FitsRowPart, max_cells};
ghost use Rattle.vo_spec.specs.TreeBytes.{cell_form, entry_form, row_form};
ghost use Rattle.batch_format.specs.Writing.{StaysInFront};

use row_bytes::put_value_ref;
use std::alloc::AllocError;
use vo_spec::{Cell, Digest, PartEntry, RowPart, u16_bytes};

/// Puts what is hidden at the end: a zero, and its digest. Where memory runs out, what was there
/// stays in front.
// As one piece: most of a reply is this, and each piece that is put takes a call.
#[tactic(auto, using(batch_format::proofs::Fronts::stays_itself, batch_format::proofs::Fronts::stays_before))]
pub fn put_hidden(out: &mut Vec<u8>, digest: &Digest) -> Result<(), AllocError>
    ensures ok { OnOk result (out.new.items ≡ out.old.items ++ 0 ∷ digest.now) }
    ensures err { OnErr result (StaysInFront out.old.items out.new.items) }
{
    let mut hidden = [0; 33];
    hidden[1..].copy_from_slice(digest.as_bytes());
    out.extend_from_slice(&hidden)
}

/// Puts a key or a separator behind its length at the end. Where memory runs out, what was there
/// stays in front.
#[tactic(auto, using(batch_format::proofs::Fronts::stays_itself, batch_format::proofs::Fronts::stays_before, batch_format::proofs::Fronts::stays_behind))]
pub fn put_key(out: &mut Vec<u8>, key: &[u8]) -> Result<(), AllocError>
    requires { FitsKey key.now }
    ensures ok { OnOk result (out.new.items ≡ out.old.items ++ string key.now) }
    ensures err { OnErr result (StaysInFront out.old.items out.new.items) }
{
    out.extend_from_slice(&u16_bytes(key.len() as u16))?;
    out.extend_from_slice(key)
}

#[tactic(auto, using(batch_format::proofs::Fronts::stays_itself, batch_format::proofs::Fronts::stays_before, batch_format::proofs::Fronts::stays_behind))]
fn put_cell(out: &mut Vec<u8>, cell: &Cell<'_>) -> Result<(), AllocError>
    requires { FitsCell cell.now }
    ensures ok { OnOk result (out.new.items ≡ out.old.items ++ cell_form cell.now) }
    ensures err { OnErr result (StaysInFront out.old.items out.new.items) }
{
    match cell {
        Cell::Hidden(digest) => put_hidden(out, digest),
        Cell::Shown(value) => {
            out.push(1)?;
            put_value_ref(out, value.as_ref())
        }
    }
}

#[tactic(auto, using(batch_format::proofs::Fronts::stays_itself, batch_format::proofs::Fronts::stays_before, batch_format::proofs::Fronts::stays_behind))]
fn put_cells(out: &mut Vec<u8>, cells: &[Cell<'_>]) -> Result<(), AllocError>
    requires count { length cells.now ≤ max_cells }
    requires fits { All FitsCell cells.now }
    ensures ok { OnOk result (out.new.items ≡ out.old.items ++ 1 ∷ length cells.now
        ∷ flat_map cell_form cells.now) }
    ensures err { OnErr result (StaysInFront out.old.items out.new.items) }
{
    out.extend_from_slice(&[1, cells.len() as u8])?;
    for cell in cells {
        put_cell(out, cell)?;
    }
    Ok(())
}

#[tactic(auto, using(batch_format::proofs::Fronts::stays_itself, batch_format::proofs::Fronts::stays_before, batch_format::proofs::Fronts::stays_behind))]
fn put_row(out: &mut Vec<u8>, row: &RowPart<'_>) -> Result<(), AllocError>
    requires { FitsRowPart row.now }
    ensures ok { OnOk result (out.new.items ≡ out.old.items ++ row_form row.now) }
    ensures err { OnErr result (StaysInFront out.old.items out.new.items) }
{
    match row {
        RowPart::Digest(digest) => put_hidden(out, digest),
        RowPart::Cells(cells) => put_cells(out, cells.as_slice()),
    }
}

/// Puts an entry at the end. Where memory runs out, what was there stays in front.
#[tactic(auto, using(batch_format::proofs::Fronts::stays_itself, batch_format::proofs::Fronts::stays_before, batch_format::proofs::Fronts::stays_behind))]
pub fn put_entry(out: &mut Vec<u8>, entry: &PartEntry<'_>) -> Result<(), AllocError>
    requires { FitsEntry entry.now }
    ensures ok { OnOk result (out.new.items ≡ out.old.items ++ entry_form entry.now) }
    ensures err { OnErr result (StaysInFront out.old.items out.new.items) }
{
    put_key(out, entry.key.as_bytes())?;
    put_row(out, &entry.row)
}
