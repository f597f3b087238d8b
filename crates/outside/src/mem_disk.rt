//! A disk that is kept in memory, with what was done to it.
ghost use Rattle.std.specs.Prelude.{◌≡◌, ℕ, ◌+◌, ◌-◌, ◌≤◌, ◌↔◌, List, Some, Ok, true, false, length, take, drop, vec_len, vec_capacity, IsSome, IsTrue, IfOk, OnOk, OnErr, IsErr};
ghost use Rattle.std.specs.List.{list_all};
ghost use Rattle.outside.specs.Calls.{next_count};
ghost use Rattle.outside.specs.declared.room.Room.{Room};
ghost use Rattle.outside.specs.Done.{seen_after, is_within};
ghost use Rattle.outside.specs.DiskModel.{HasRoom, IsImage, IsImageWith, NoLess, LeftSince, crashed_at, fresh, now, overwrite_at, write_on, write_leaving, sync_now, less_room};
ghost use Rattle.outside.specs.Failure.{front_of};
ghost use Rattle.outside.specs.FaultRose.{FaultRose};

use crate::disk::Disk;
use crate::failures::Failures;
use crate::faults::Failed;
use crate::room::Room;
use std::alloc::{AllocError, Global};

mod done;
mod overwrite;
mod replay;

use done::Done;
use overwrite::overwrite;
use replay::Replay;

/// Contents, and each write and sync since they were handed in.
#[derive(Drop)]
pub struct MemDisk<P> {
    first: Vec<u8>,
    seen: Vec<u8>,
    // The bytes of all writes, in a row.
    log: Vec<u8>,
    done: Vec<Done>,
    room: Room,
    // How often the device was asked.
    asked: u64,
    failures: P,
    ghost kept: { seen.items ≡ seen_after log.items first.items done.items },
    ghost within: { IsTrue (list_all (is_within (length log.items)) done.items) },
    ghost end: { room.end ≤ vec_capacity seen },
    ghost bytes: { vec_len log + room.bytes ≤ vec_capacity log },
    ghost calls: { vec_len done + room.calls ≤ vec_capacity done },
}

impl<P: Failures> MemDisk<P> {
    ghost use Rattle.outside.specs.MemDisk.{drive_of, room_of, asked_of, plan_of};

    /// These contents, put down.
    pub fn new(alloc: Global, contents: Vec<u8>, failures: P) -> Result<Self, AllocError>
        ensures drive { IfOk result (λ disk. drive_of disk ≡ fresh contents.items) }
        ensures asked { IfOk result (λ disk. asked_of disk ≡ 0) }
        ensures plan { IfOk result (λ disk. plan_of disk ≡ failures) }
    {
        Ok(MemDisk {
            first: Vec::from_slice(alloc, &contents)?,
            seen: contents,
            log: Vec::new(alloc),
            done: Vec::new(alloc),
            room: Room {
                end: 0,
                bytes: 0,
                calls: 0,
            },
            asked: 0,
            failures,
        })
    }

    /// What reads give.
    pub fn contents(&self) -> &[u8]
        ensures { result.now ≡ (drive_of self.now).seen }
    {
        self.seen.as_slice()
    }

    /// How many writes and syncs were kept: the number of this moment.
    #[tactic(auto, using(crate::proofs::LogLaws::calls_length))]
    pub fn moment(&self) -> usize
        ensures { result ≡ now (drive_of self.now) }
    {
        self.done.len()
    }

    /// Whether a crash at this moment or a later one may have left these bytes.
    pub fn has_left(&self, alloc: Global, since: usize, image: &[u8]) -> Result<bool, AllocError>
        ensures yes { result ≡ Ok true → LeftSince (drive_of self.now) since image.now }
        ensures no { result ≡ Ok false → LeftSince (drive_of self.now) since image.now → ⊥ }
    {
        let mut replay = Replay::new(alloc, &self.first)?;
        for (moment, one) in self.done.iter().enumerate() {
            if replay.leaves(moment, since, image) {
                return Ok(true);
            }
            replay.step(alloc, &self.log, one)?;
        }
        if replay.leaves(self.done.len(), since, image) {
            return Ok(true);
        }
        Ok(false)
    }

    /// What a crash at a moment may have left, the bytes that it loses being these: they stand
    /// where a write was begun since the last sync, and past what was down then as far as the
    /// writes reach.
    pub fn image(&self, alloc: Global, moment: usize, lost: &[u8]) -> Result<Vec<u8>, AllocError>
        ensures image { IfOk result (λ image.
            IsImage (crashed_at (drive_of self.now) moment) image.items) }
        ensures lost { IfOk result (λ image.
            IsImageWith (crashed_at (drive_of self.now) moment) lost.now image.items) }
    {
        let mut replay = Replay::new(alloc, &self.first)?;
        for (place, one) in self.done.iter().enumerate() {
            if place == moment {
                return replay.image(alloc, lost);
            }
            replay.step(alloc, &self.log, one)?;
        }
        replay.image(alloc, lost)
    }

    /// Writes a front of a piece, the rest of which is lost.
    #[tactic(auto, using(crate::proofs::LogLaws::seen_write, crate::proofs::LogLaws::calls_write, crate::proofs::LogLaws::within_write))]
    fn write_front(&mut self, at: u64, front: &[u8], lost: usize)
        requires { HasRoom (at + (length front.now + lost)) (length front.now + lost) 1
            (room_of self.old) }
        ensures drive { drive_of self.new
            ≡ write_leaving at (length front.now + lost)
            (overwrite_at at front.now (drive_of self.old).seen) (drive_of self.old) }
        ensures room { room_of self.new ≡ less_room (length front.now + lost) (room_of self.old) }
        ensures asked { asked_of self.new ≡ asked_of self.old }
        ensures plan { plan_of self.new ≡ plan_of self.old }
    {
        overwrite(&mut self.seen, at as usize, front);
        let (from, kept) = (self.log.len(), front.len());
        self.log.extend_from_slice(front).unwrap();
        let write = Done::Write {
            at,
            from,
            kept,
            lost,
        };
        self.done.push(write).unwrap();
        self.room.bytes -= (kept + lost) as u64;
        self.room.calls -= 1;
    }
}

impl<P: Failures> Disk for MemDisk<P> {
    ghost use Rattle.outside.specs.MemDisk.{drive_of, room_of, asked_of, plan_of};
    ghost use Rattle.outside.specs.ImageLaws.{may_leave-seen};

    ghost drive = { λ disk. Some (drive_of disk) };

    ghost room = { λ disk. Some (room_of disk) };

    ghost faults = { λ disk. P.count (plan_of disk) };

    ghost asked = { λ disk. Some (asked_of disk) };

    ghost sees = { λ disk. may_leave-seen disk.first.items disk.seen.items disk.log.items
        disk.done.items disk.kept };

    fn len(&mut self) -> Result<u64, Failed>
        ensures len { IfOk result (λ n. n ≡ length (drive_of self.old).seen) }
        ensures kept { drive_of self.new ≡ drive_of self.old }
        ensures room { room_of self.new ≡ room_of self.old }
        ensures counts { P.count (plan_of self.old) ≤ P.count (plan_of self.new) }
        ensures cause { IsErr result
            → FaultRose (P.count (plan_of self.old)) (P.count (plan_of self.new)) }
        ensures quiet { OnOk result (P.count (plan_of self.new) ≡ P.count (plan_of self.old)) }
        ensures asked { asked_of self.new ≡ next_count (asked_of self.old) }

        ensures due { IsErr result ↔ IsSome (P.due (plan_of self.old)) }
        ensures plan { plan_of self.new ≡ P.after (plan_of self.old) }
    {
        self.asked = self.asked.saturating_add(1);
        match self.failures.next_call() {
            None => Ok(self.seen.len() as u64),
            Some(_) => Err(Failed),
        }
    }

    fn read(&mut self, at: u64, into: &mut [u8]) -> Result<(), Failed>
        requires { at + length into.old ≤ length (drive_of self.old).seen }
        ensures read { OnOk result
            (into.new ≡ take (length into.old) (drop at (drive_of self.old).seen)) }
        ensures kept { drive_of self.new ≡ drive_of self.old }
        ensures room { room_of self.new ≡ room_of self.old }
        ensures counts { P.count (plan_of self.old) ≤ P.count (plan_of self.new) }
        ensures cause { IsErr result
            → FaultRose (P.count (plan_of self.old)) (P.count (plan_of self.new)) }
        ensures quiet { OnOk result (P.count (plan_of self.new) ≡ P.count (plan_of self.old)) }
        ensures asked { asked_of self.new ≡ next_count (asked_of self.old) }

        ensures due { IsErr result ↔ IsSome (P.due (plan_of self.old)) }
        ensures plan { plan_of self.new ≡ P.after (plan_of self.old) }
    {
        self.asked = self.asked.saturating_add(1);
        if self.failures.next_call().is_some() {
            return Err(Failed);
        }
        let at = at as usize;
        into.copy_from_slice(&self.seen[at..at + into.len()]);
        Ok(())
    }

    fn write_at(&mut self, at: u64, piece: &[u8]) -> Result<(), Failed>
        requires { HasRoom (at + length piece.now) (length piece.now) 1 (room_of self.old) }
        ensures ok { OnOk result (drive_of self.new ≡ write_on at piece.now (drive_of self.old)) }
        ensures err { OnErr result ((seen : List ℕ)
            × (drive_of self.new ≡ write_leaving at (length piece.now) seen (drive_of self.old))) }
        ensures room { room_of self.new ≡ less_room (length piece.now) (room_of self.old) }
        ensures counts { P.count (plan_of self.old) ≤ P.count (plan_of self.new) }
        ensures cause { IsErr result
            → FaultRose (P.count (plan_of self.old)) (P.count (plan_of self.new)) }
        ensures quiet { OnOk result (P.count (plan_of self.new) ≡ P.count (plan_of self.old)) }
        ensures asked { asked_of self.new ≡ next_count (asked_of self.old) }

        // A write that is to fail writes the front that its plan says.
        ensures front { OnErr result (drive_of self.new ≡ write_leaving at (length piece.now)
            (overwrite_at at (front_of (P.due (plan_of self.old)) piece.now)
            (drive_of self.old).seen) (drive_of self.old)) }
        ensures due { IsErr result ↔ IsSome (P.due (plan_of self.old)) }
        ensures plan { plan_of self.new ≡ P.after (plan_of self.old) }
    {
        self.asked = self.asked.saturating_add(1);
        match self.failures.next_call() {
            None => {
                self.write_front(at, piece, 0);
                Ok(())
            }
            Some(after) => {
                let kept = piece.len().min(after);
                self.write_front(at, &piece[..kept], piece.len() - kept);
                Err(Failed)
            }
        }
    }

    #[tactic(auto, using(crate::proofs::LogLaws::calls_push))]
    fn sync(&mut self) -> Result<(), Failed>
        requires { HasRoom 0 0 1 (room_of self.old) }
        ensures ok { OnOk result (drive_of self.new ≡ sync_now (drive_of self.old)) }
        ensures err { OnErr result (drive_of self.new ≡ drive_of self.old) }
        ensures room { room_of self.new ≡ less_room 0 (room_of self.old) }
        ensures counts { P.count (plan_of self.old) ≤ P.count (plan_of self.new) }
        ensures cause { IsErr result
            → FaultRose (P.count (plan_of self.old)) (P.count (plan_of self.new)) }
        ensures quiet { OnOk result (P.count (plan_of self.new) ≡ P.count (plan_of self.old)) }
        ensures asked { asked_of self.new ≡ next_count (asked_of self.old) }

        ensures due { IsErr result ↔ IsSome (P.due (plan_of self.old)) }
        ensures plan { plan_of self.new ≡ P.after (plan_of self.old) }
    {
        self.asked = self.asked.saturating_add(1);
        self.room.calls -= 1;
        if self.failures.next_call().is_some() {
            return Err(Failed);
        }
        self.done.push(Done::Sync).unwrap();
        Ok(())
    }

    fn reserve(&mut self, end: u64, bytes: u64, calls: u64) -> Result<(), AllocError>
        ensures ok { OnOk result (HasRoom end bytes calls (room_of self.new)) }
        ensures kept { drive_of self.new ≡ drive_of self.old }
        ensures no_less { NoLess (room_of self.old) (room_of self.new) }
        ensures asked { asked_of self.new ≡ asked_of self.old }
        ensures plan { plan_of self.new ≡ plan_of self.old }
    {
        let longer = end.saturating_sub(self.seen.len() as u64);
        self.seen.reserve(longer as usize)?;
        self.room.end = self.room.end.max(end);
        self.log.reserve(bytes as usize)?;
        self.room.bytes = self.room.bytes.max(bytes);
        self.done.reserve(calls as usize)?;
        self.room.calls = self.room.calls.max(calls);
        Ok(())
    }
}
