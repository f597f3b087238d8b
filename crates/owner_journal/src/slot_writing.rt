//! Writing to a disk so that a crash leaves what was before, or what was written.
ghost use Rattle.std.specs.Prelude.{◌≡◌, ◌+◌, ◌<◌, ◌≤◌, ◌^◌, length, IfSome, OnOk, IsErr};
ghost use Rattle.outside.specs.Calls.{AsksAtMost};
ghost use Rattle.outside.specs.DiskModel.{HasRoom};
ghost use Rattle.outside.specs.FaultRose.{FaultRose};
ghost use Rattle.outside.specs.Moments.{IfKnown, IsDown, LeavesOnly, IsTornImage, persist_known, room_down};
ghost use Rattle.owner_journal.specs.Slots.{slot_down, WhileSlot};

use outside::{Disk, Failed};

/// Writes a piece from a place on, and puts it down.
#[tactic(auto, using(outside::proofs::MomentLaws::tears_down, outside::proofs::MomentLaws::tears_written))]
pub fn write_down<D: Disk>(disk: &mut D, at: u64, piece: &[u8]) -> Result<(), Failed>
    requires { IfSome (D.room disk.old) (HasRoom (at + length piece.now) (length piece.now) 2) }
    ensures ok { OnOk result (D.drive disk.new ≡ persist_known at piece.now (D.drive disk.old)) }
    ensures any_moment { IfKnown (D.drive disk.old) (D.drive disk.new) (λ before after.
        IsDown before → LeavesOnly before after (IsTornImage at (length piece.now) before.seen)) }
    ensures room { OnOk result (D.room disk.new ≡ room_down (length piece.now) (D.room disk.old)) }
    ensures counts { D.faults disk.old ≤ D.faults disk.new }
    ensures cause { IsErr result → FaultRose (D.faults disk.old) (D.faults disk.new) }
    ensures quiet { OnOk result (D.faults disk.new ≡ D.faults disk.old) }
    ensures asks { AsksAtMost 2 (D.asked disk.old) (D.asked disk.new) }
{
    match disk.write_at(at, piece) {
        Ok(()) => disk.sync(),
        Err(Failed) => Err(Failed),
    }
}

/// Writes what stands behind a closed gate and puts it down, and opens the gate then.
#[tactic(auto, using(crate::proofs::RestLaws::slot_ended))]
pub fn write_slot<D: Disk>(disk: &mut D, gate: u64, behind: &[u8]) -> Result<(), Failed>
    requires room { IfSome (D.room disk.old)
        (HasRoom (gate + 1 + length behind.now) (length behind.now + 1) 4) }
    requires place { gate + 1 < 2 ^ 64 }
    ensures ok { OnOk result (D.drive disk.new ≡ slot_down gate behind.now (D.drive disk.old)) }
    ensures any_moment { IfKnown (D.drive disk.old) (D.drive disk.new) (λ before after.
        IsDown before → LeavesOnly before after (WhileSlot gate behind.now before.seen)) }
    ensures counts { D.faults disk.old ≤ D.faults disk.new }
    ensures cause { IsErr result → FaultRose (D.faults disk.old) (D.faults disk.new) }
    ensures quiet { OnOk result (D.faults disk.new ≡ D.faults disk.old) }
    ensures asks { AsksAtMost 4 (D.asked disk.old) (D.asked disk.new) }
{
    match write_down(disk, gate + 1, behind) {
        Ok(()) => write_down(disk, gate, &[1]),
        Err(Failed) => Err(Failed),
    }
}
