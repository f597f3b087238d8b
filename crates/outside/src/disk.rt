//! A device that keeps one file through crashes.
ghost use Rattle.std.specs.Prelude.{◌≡◌, ℕ, ◌+◌, ◌≤◌, List, length, take, drop, Option, None, IfSome, IfOk, OnOk, OnErr, IsErr};
ghost use Rattle.outside.specs.Calls.{count_call};
ghost use Rattle.outside.specs.declared.room.Room.{Room};
ghost use Rattle.outside.specs.DiskModel.{DiskModel, HasRoom, NoLess, MayLeave, write_known, fail_write_known, sync_known, room_after};
ghost use Rattle.outside.specs.FaultRose.{FaultRose};

use crate::faults::Failed;
use std::alloc::AllocError;

/// One file on a device. What was written may be lost until a sync succeeds.
pub trait Disk {
    /// The file, what was done to it and what a crash may leave, where that is known.
    ghost drive: { Self → Option DiskModel };

    /// The room that is kept ready, where that is known.
    ghost room: { Self → Option Room };

    /// How many calls have failed.
    ghost faults: { Self → ℕ };

    /// How often the device was asked, by `len`, `read`, `write_at` and `sync`, where it is known.
    ghost asked: { Self → Option ℕ } = { λ _. None };

    /// How many bytes reads give.
    fn len(&mut self) -> Result<u64, Failed>
        ensures len { IfOk result (λ n. IfSome (drive self.old) (λ drive. n ≡ length drive.seen)) }
        ensures kept { drive self.new ≡ drive self.old }
        ensures room { room self.new ≡ room self.old }
        ensures counts { faults self.old ≤ faults self.new }
        ensures cause { IsErr result → FaultRose (faults self.old) (faults self.new) }
        ensures quiet { OnOk result (faults self.new ≡ faults self.old) }
        ensures asked { asked self.new ≡ count_call (asked self.old) };

    /// Fills `into` with the bytes from `at` on. What the buffer holds after a fault is open.
    fn read(&mut self, at: u64, into: &mut [u8]) -> Result<(), Failed>
        requires { IfSome (drive self.old) (λ drive. at + length into.old ≤ length drive.seen) }
        ensures read { OnOk result (IfSome (drive self.old)
            (λ drive. into.new ≡ take (length into.old) (drop at drive.seen))) }
        ensures kept { drive self.new ≡ drive self.old }
        ensures room { room self.new ≡ room self.old }
        ensures counts { faults self.old ≤ faults self.new }
        ensures cause { IsErr result → FaultRose (faults self.old) (faults self.new) }
        ensures quiet { OnOk result (faults self.new ≡ faults self.old) }
        ensures asked { asked self.new ≡ count_call (asked self.old) };

    /// Writes the piece from `at` on. After a fault reads may give any bytes in its range.
    fn write_at(&mut self, at: u64, piece: &[u8]) -> Result<(), Failed>
        requires { IfSome (room self.old)
            (HasRoom (at + length piece.now) (length piece.now) 1) }
        ensures ok { OnOk result (drive self.new ≡ write_known at piece.now (drive self.old)) }
        ensures err { OnErr result ((seen : List ℕ)
            × (drive self.new ≡ fail_write_known at (length piece.now) seen (drive self.old))) }
        ensures room { room self.new ≡ room_after (length piece.now) (room self.old) }
        ensures counts { faults self.old ≤ faults self.new }
        ensures cause { IsErr result → FaultRose (faults self.old) (faults self.new) }
        ensures quiet { OnOk result (faults self.new ≡ faults self.old) }
        ensures asked { asked self.new ≡ count_call (asked self.old) };

    /// Puts down what was written, so that a crash leaves what reads give.
    fn sync(&mut self) -> Result<(), Failed>
        requires { IfSome (room self.old) (HasRoom 0 0 1) }
        ensures ok { OnOk result (drive self.new ≡ sync_known (drive self.old)) }
        ensures err { OnErr result (drive self.new ≡ drive self.old) }
        ensures room { room self.new ≡ room_after 0 (room self.old) }
        ensures counts { faults self.old ≤ faults self.new }
        ensures cause { IsErr result → FaultRose (faults self.old) (faults self.new) }
        ensures quiet { OnOk result (faults self.new ≡ faults self.old) }
        ensures asked { asked self.new ≡ count_call (asked self.old) };

    /// Makes room for contents up to `end`, and for `calls` writes and syncs that write `bytes`
    /// bytes in all. `len` and `read` use none.
    fn reserve(&mut self, end: u64, bytes: u64, calls: u64) -> Result<(), AllocError>
        ensures ok { OnOk result (IfSome (room self.new) (HasRoom end bytes calls)) }
        ensures kept { drive self.new ≡ drive self.old }
        ensures no_less { IfSome (room self.old) (λ old. IfSome (room self.new) (NoLess old)) }
        ensures faults { faults self.new ≡ faults self.old }
        ensures asked { asked self.new ≡ asked self.old };

    /// What reads give, a crash may leave.
    ghost sees: { (disk : Self) → IfSome (drive disk) (λ drive. MayLeave drive drive.seen) };
}
