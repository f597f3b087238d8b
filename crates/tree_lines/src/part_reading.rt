//! Part trees as bytes.
ghost use Rattle.std.specs.Prelude.{◌≡◌, IfOk, Ok};
ghost use Rattle.vo_spec.specs.Fits.{FitsPart};
ghost use Rattle.mb_tree.specs.View.{part_of};

use row_bytes::{Cursor, ReadFault};
use std::alloc::Global;
use vo_format::{PartTree, take_tree};

/// The part tree that all the bytes are.
pub fn read_part(alloc: Global, bytes: &[u8]) -> Result<PartTree<'_>, ReadFault>
    ensures { IfOk result (λ part. FitsPart (part_of part)) }
{
    let mut cursor = Cursor::new(bytes);
    let part = take_tree(alloc, &mut cursor)?;
    at_end(&cursor, part)
}

/// What was read, if no byte is left behind it. How it is let go of is spelled out for no type.
pub fn at_end<T: Drop>(cursor: &Cursor<'_>, found: T) -> Result<T, ReadFault>
    ensures { IfOk result (λ value. value ≡ found) }
{
    if cursor.is_empty() {
        Ok(found)
    } else {
        Err(ReadFault::BadForm)
    }
}

/// The two part trees that all the bytes are, one behind the other.
pub fn read_parts(alloc: Global, bytes: &[u8]) -> Result<(PartTree<'_>, PartTree<'_>), ReadFault>
    ensures { IfOk result (λ both. FitsPart (part_of both.0) × FitsPart (part_of both.1)) }
{
    let mut cursor = Cursor::new(bytes);
    let first = take_tree(alloc, &mut cursor)?;
    let pair = both(first, take_tree(alloc, &mut cursor))?;
    at_end(&cursor, pair)
}

/// The first and the second, where there is one; else the first is let go of.
pub fn both<T: Drop>(first: T, second: Result<T, ReadFault>) -> Result<(T, T), ReadFault>
    ensures { IfOk result (λ pair. (pair.0 ≡ first) × (second ≡ Ok pair.1)) }
{
    Ok((first, second?))
}
