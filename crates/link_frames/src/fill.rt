//! A buffer that is filled from a link.
ghost use Rattle.std.specs.Prelude.{◌≡◌, ℕ, ◌≤◌, length, Some, OnOk, OnErr, IfOk, IsErr};
ghost use Rattle.outside.specs.ConnectionModel.{ConnectionModel};
ghost use Rattle.link_frames.specs.Reading.{Fills, KeepsLinkCounts};

use outside::{Failed, Link};

/// Takes the next bytes into the front of `into`, and tells how many: all that have a place there,
/// or all that are left on the link.
pub fn fill<L: Link>(link: &mut L, into: &mut [u8]) -> Result<usize, Failed>
    ensures known { (before : ConnectionModel) → L.wire link.old ≡ Some before
        → Fills into.old into.new result before (L.wire link.new) }
    ensures fits { IfOk result (λ n. n ≤ length into.old) }

    ensures counts { KeepsLinkCounts L.wire L.faults L.misses link.old link.new
        (IsErr result) }
{
    let mut filled = 0;
    while filled < into.len() {
        match link.get(&mut into[filled..])? {
            0 => return Ok(filled),
            count => filled += count,
        }
    }
    Ok(filled)
}
