//! Writing names and columns.
ghost use Rattle.std.specs.Prelude.{◌≡◌, ◌++◌, OnOk, OnErr};
ghost use Rattle.vo_spec.specs.Bytes.{short_string};
ghost use Rattle.vo_spec.specs.Names.{FitsName};
ghost use Rattle.vo_spec.specs.Values.{type_byte};
ghost use Rattle.vo_spec.specs.Batches.{list_bytes, column_type, column_bytes, FitCounted, FitsColumn};
ghost use Rattle.row_bytes.specs.Writing.{Writes, WritesSome};
ghost use Rattle.batch_format.specs.Writing.{StaysInFront};

use row_bytes::ByteSink;
use std::alloc::AllocError;
use vo_spec::{Column, Kind, Name};

/// Writes a name behind its length.
#[tactic(auto, using(crate::proofs::Fitting::name_is_short, row_bytes::proofs::Writings::some_behind))]
pub fn write_name<S: ByteSink>(sink: &mut S, name: &Name) -> Result<(), S::Fault>
    requires { FitsName name.now }
    ensures ok { OnOk result (Writes S.HoldsBytes sink.old sink.new (short_string name.now)) }
    ensures err { OnErr result (WritesSome S.HoldsBytes sink.old sink.new) }
{
    let bytes = name.as_bytes();
    sink.write(&[bytes.len() as u8])?;
    sink.write(bytes)
}

// The byte of a kind.
fn type_byte(kind: Kind) -> u8
    ensures { result ≡ type_byte kind }
{
    match kind {
        Kind::Int => 1,
        Kind::Text => 2,
        Kind::Bool => 3,
    }
}

/// The byte of a column's kind, with the highest bit set where the column is nullable.
fn column_type(column: &Column) -> u8
    ensures { result ≡ column_type column.now }
{
    if column.nullable {
        return 128 + type_byte(column.kind);
    }
    type_byte(column.kind)
}

#[tactic(auto, using(row_bytes::proofs::Writings::some_behind))]
fn write_column<S: ByteSink>(sink: &mut S, column: &Column) -> Result<(), S::Fault>
    requires { FitsColumn column.now }
    ensures ok { OnOk result (Writes S.HoldsBytes sink.old sink.new (column_bytes column.now)) }
    ensures err { OnErr result (WritesSome S.HoldsBytes sink.old sink.new) }
{
    write_name(sink, &column.name)?;
    sink.write(&[column_type(column)])
}

/// Writes columns behind how many they are.
#[tactic(auto, using(row_bytes::proofs::Writings::some_behind))]
pub fn write_columns<S: ByteSink>(sink: &mut S, columns: &[Column]) -> Result<(), S::Fault>
    requires { FitCounted FitsColumn columns.now }
    ensures ok { OnOk result
        (Writes S.HoldsBytes sink.old sink.new (list_bytes column_bytes columns.now)) }
    ensures err { OnErr result (WritesSome S.HoldsBytes sink.old sink.new) }
{
    sink.write(&[columns.len() as u8])?;
    for column in columns {
        write_column(sink, column)?;
    }
    Ok(())
}

/// Puts a name behind its length at the end. Where memory runs out, what was there stays in front.
#[tactic(auto, using(crate::proofs::Fronts::stays_written))]
pub fn put_name(out: &mut Vec<u8>, name: &Name) -> Result<(), AllocError>
    requires { FitsName name.now }
    ensures ok { OnOk result (out.new.items ≡ out.old.items ++ short_string name.now) }
    ensures err { OnErr result (StaysInFront out.old.items out.new.items) }
{
    write_name(out, name)
}

/// Puts columns at the end, behind how many they are. Where memory runs out, what was there stays
/// in front.
#[tactic(auto, using(crate::proofs::Fronts::stays_written))]
pub fn put_columns(out: &mut Vec<u8>, columns: &[Column]) -> Result<(), AllocError>
    requires { FitCounted FitsColumn columns.now }
    ensures ok { OnOk result
        (out.new.items ≡ out.old.items ++ list_bytes column_bytes columns.now) }
    ensures err { OnErr result (StaysInFront out.old.items out.new.items) }
{
    write_columns(out, columns)
}
