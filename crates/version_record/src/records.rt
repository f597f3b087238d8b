//! Records, 60 bytes each.
ghost use Rattle.std.specs.Prelude.{◌≡◌, ◌+◌, ◌≤◌, ◌++◌, length, take, drop, IfSome, Some};
ghost use Rattle.vo_spec.specs.declared.records.Record.{Record as Plain};
ghost use Rattle.vo_spec.specs.Records.{record_bytes, IsRecord};
ghost use Rattle.row_bytes.specs.Fields.{Found, whole};
ghost use Rattle.version_record.specs.Reading.{record_at};

use crate::magic::{magic_bytes, take_magic};
use row_bytes::Cursor;
use vo_spec::{Digest, Record, u64_bytes};

/// The one spelling of a record.
pub fn record_bytes(rec: &Record) -> [u8; 60]
    ensures { result ≡ record_bytes rec.now }
{
    let mut bytes = [0; 60];
    put_chunk(&mut bytes, 0, &magic_bytes(rec.magic));
    put_chunk(&mut bytes, 4, &rec.id);
    put_chunk(&mut bytes, 20, &u64_bytes(rec.version));
    put_chunk(&mut bytes, 28, rec.catalog.as_bytes());
    bytes
}

/// Puts a piece over the bytes from a place on.
fn put_chunk<const N: usize>(bytes: &mut [u8; 60], at: usize, piece: &[u8; N])
    requires { at + N ≤ 60 }
    ensures put { bytes.new ≡ take at bytes.old ++ piece.now
        ++ drop (at + length piece.now) bytes.old }
    ensures len { length piece.now ≡ N }
{
    bytes[at..at + piece.len()].copy_from_slice(piece);
}

/// The record that comes next.
#[tactic(auto, unfolding(crate::specs::Reading::record_at))]
pub fn take_record(cursor: &mut Cursor<'_>) -> Option<Record>
    ensures { Found (λ rec. rec) result cursor.old cursor.new (record_at cursor.old) }
{
    let mut ahead = cursor.copy();
    let magic = take_magic(&mut ahead)?;
    let id = ahead.take_chunk::<16>()?;
    let version = ahead.take_u64()?;
    let catalog = ahead.take_chunk::<32>()?;
    *cursor = ahead;
    Some(Record {
        magic,
        id: *id,
        version,
        catalog: Digest::new(*catalog),
    })
}

fn record_in(bytes: &[u8]) -> Option<Record>
    ensures { result ≡ whole (record_at bytes.now) }
{
    let mut cursor = Cursor::new(bytes);
    let rec = take_record(&mut cursor)?;
    if cursor.is_empty() { Some(rec) } else { None }
}

/// The record that all the bytes are.
pub fn read_record(bytes: &[u8]) -> Option<Record>
    // What is read is spelled so, and its parts have their lengths.
    ensures found { IfSome result (λ rec. IsRecord bytes.now rec) }

    // What is spelled so is read.
    ensures only { (rec : Plain) → IsRecord bytes.now rec → result ≡ Some rec }
{
    record_in(bytes)
}
