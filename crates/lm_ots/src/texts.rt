//! What the texts that are hashed begin with.
ghost use Rattle.std.specs.Prelude.{◌++◌, OnOk};
ghost use Rattle.row_bytes.specs.Writing.{Writes};
ghost use Rattle.vo_spec.specs.Bytes.{u16_bytes, u32_bytes};

use row_bytes::ByteSink;
use vo_spec::{u16_bytes, u32_bytes};

/// Writes what each text begins with: its tree's identifier, the number of its leaf or node there,
/// and which chain's it is, or by a number that no chain has, what it is the text of.
pub fn write_prefix<S: ByteSink>(
    sink: &mut S,
    id: &[u8; 16],
    number: u32,
    of: u16,
) -> Result<(), S::Fault>
    ensures { OnOk result (Writes S.HoldsBytes sink.old sink.new
        (id.now ++ u32_bytes number ++ u16_bytes of)) }
{
    sink.write(id)?;
    sink.write(&u32_bytes(number))?;
    sink.write(&u16_bytes(of))
}
