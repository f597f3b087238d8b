//! What a crash leaves of a disk in memory, found by doing its calls again.
ghost use Rattle.std.specs.Prelude.{◌≡◌, ◌↔◌, ℕ, ◌+◌, ◌-◌, ◌<◌, ◌≤◌, [], ◌++◌, IsTrue, length, take, not, slice_index, IfOk, OnOk, nat_le};
ghost use Rattle.std.specs.List.{list_any};
ghost use Rattle.outside.specs.Done.{seen_next, call_of, is_within};
ghost use Rattle.outside.specs.DiskModel.{Wrote, IsImage, IsImageWith, byte_after, down_after, furthest, has, is_written, overwrite_at, range_end};
ghost use Rattle.outside.specs.Replay.{down_of, range_of};

use crate::mem_disk::done::Done;
use crate::mem_disk::overwrite::overwrite;
use std::alloc::{AllocError, Global};

/// A write from a place on, of which so many bytes were kept and so many lost.
#[derive(Clone, Copy)]
pub struct Write {
    at: u64,
    kept: usize,
    lost: usize,
}

impl Write {
    /// Whether it was to write this place.
    fn has(&self, place: usize) -> bool
        ensures { result ≡ has place (range_of self.now) }
    {
        let at = self.at as usize;
        at <= place && (place - at < self.kept || place - at - self.kept < self.lost)
    }

    /// Whether it ends no nearer than this.
    fn reaches(&self, end: usize) -> bool
        ensures { result ≡ nat_le end (range_end (range_of self.now)) }
    {
        if self.kept == 0 && self.lost == 0 {
            end == 0
        } else {
            end.saturating_sub(self.at as usize)
                .saturating_sub(self.kept)
                <= self.lost
        }
    }
}

/// What reads give at a moment, what was down at the last sync before it, and the writes since.
#[derive(Drop)]
pub struct Replay {
    seen: Vec<u8>,
    contents: Vec<u8>,
    writes: Vec<Write>,
}

impl Replay {
    pub fn new(alloc: Global, first: &[u8]) -> Result<Replay, AllocError>
        ensures seen { IfOk result (λ replay. replay.seen.items ≡ first.now) }
        ensures down { IfOk result (λ replay. down_of replay
            ≡ record { contents = first.now; ranges = [] }) }
    {
        Ok(Replay {
            seen: Vec::from_slice(alloc, first)?,
            contents: Vec::from_slice(alloc, first)?,
            writes: Vec::new(alloc),
        })
    }

    /// Does one more call.
    pub fn step(&mut self, alloc: Global, log: &[u8], one: &Done) -> Result<(), AllocError>
        requires { IsTrue (is_within (length log.now) one.now) }
        ensures seen { OnOk result (self.new.seen.items
            ≡ seen_next log.now self.old.seen.items one.now) }
        ensures down { OnOk result (down_of self.new
            ≡ down_after (down_of self.old) (call_of self.old.seen.items one.now)) }
    {
        match *one {
            Done::Write {
                at,
                from,
                kept,
                lost,
            } => self.write(at, &log[from..from + kept], lost),
            Done::Sync => self.sync(alloc),
        }
    }

    #[tactic(auto, using(crate::proofs::Replays::onto_push))]
    fn write(&mut self, at: u64, piece: &[u8], lost: usize) -> Result<(), AllocError>
        ensures seen { OnOk result (self.new.seen.items
            ≡ overwrite_at at piece.now self.old.seen.items) }
        ensures down { OnOk result (down_of self.new
            ≡ down_after (down_of self.old) (Wrote at (length piece.now + lost))) }
    {
        let end = at.checked_add(piece.len() as u64).ok_or(AllocError)?;
        let longer = end.saturating_sub(self.seen.len() as u64);
        self.seen.reserve(longer as usize)?;
        overwrite(&mut self.seen, at as usize, piece);
        let kept = piece.len();
        self.writes.push(Write { at, kept, lost })?;
        Ok(())
    }

    fn sync(&mut self, alloc: Global) -> Result<(), AllocError>
        ensures seen { OnOk result (self.new.seen.items ≡ self.old.seen.items) }
        ensures down { OnOk result (down_of self.new
            ≡ record { contents = self.old.seen.items; ranges = [] }) }
    {
        self.contents = Vec::from_slice(alloc, &self.seen)?;
        self.writes = Vec::new(alloc);
        Ok(())
    }

    /// Whether a crash at this moment may leave these bytes.
    #[tactic(auto, using(crate::proofs::Replays::image_parts))]
    fn is_image(&self, image: &[u8]) -> bool
        ensures { IsTrue result ↔ IsImage (down_of self.now) image.now }
    {
        self.contents.len() <= image.len() && self.reaches(image.len()) && self.keeps(image)
    }

    /// What a crash at this moment may leave, the bytes that it loses being these: they stand where
    /// a write was begun, and past what was down as far as the writes reach.
    pub fn image(&self, alloc: Global, lost: &[u8]) -> Result<Vec<u8>, AllocError>
        ensures { IfOk result (λ image.
            IsImageWith (down_of self.now) lost.now image.items) }
    {
        let mut image = self.with_lost(alloc, lost)?;
        self.extend(&mut image, &lost[self.contents.len().min(lost.len())..])?;
        Ok(image)
    }

    /// What was down, with lost bytes where a write was begun.
    fn with_lost(&self, alloc: Global, lost: &[u8]) -> Result<Vec<u8>, AllocError>
        ensures length { IfOk result (λ image. length image.items
            ≡ length self.now.contents.items) }
        ensures bytes { IfOk result (λ image. (k : ℕ) → k < length self.now.contents.items
            → slice_index image.items k ≡ byte_after (down_of self.now) lost.now k) }
    {
        let mut image = Vec::new(alloc);
        for place in 0..self.contents.len() {
            image.push(self.byte_after(lost, place))?;
        }
        Ok(image)
    }

    /// The byte of what a crash leaves with these lost bytes, at a place of what was down.
    fn byte_after(&self, lost: &[u8], place: usize) -> u8
        requires { place < length self.now.contents.items }
        ensures { result ≡ byte_after (down_of self.now) lost.now place }
    {
        if place < lost.len() && self.has_written(place) {
            lost[place]
        } else {
            self.contents[place]
        }
    }

    /// Puts more bytes at the end, as far as the writes reach.
    fn extend(&self, image: &mut Vec<u8>, more: &[u8]) -> Result<(), AllocError>
        requires { length image.old.items
            ≤ furthest (length self.now.contents.items) (down_of self.now).ranges }
        ensures { OnOk result (image.new.items ≡ image.old.items
            ++ take (furthest (length self.now.contents.items) (down_of self.now).ranges
            - length image.old.items) more.now) }
    {
        for byte in more {
            if !self.reaches(image.len() + 1) {
                return Ok(());
            }
            image.push(*byte)?;
        }
        Ok(())
    }

    /// Whether this moment is no earlier than another, and a crash at it may leave these bytes.
    pub fn leaves(&self, moment: usize, since: usize, image: &[u8]) -> bool
        ensures { IsTrue result ↔ ((since ≤ moment) × IsImage (down_of self.now) image.now) }
    {
        since <= moment && self.is_image(image)
    }

    /// Whether a write since the last sync, or what was down then, ends no nearer than this.
    #[tactic(auto, using(crate::proofs::Replays::furthest_any))]
    fn reaches(&self, end: usize) -> bool
        ensures { result ≡ nat_le end
            (furthest (length self.now.contents.items) (down_of self.now).ranges) }
    {
        end <= self.contents.len() || any_reaches(&self.writes, end)
    }

    /// Whether bytes, which are no fewer, are those that were down but where a write was begun.
    fn keeps(&self, image: &[u8]) -> bool
        requires { length self.now.contents.items ≤ length image.now }
        ensures { IsTrue result ↔ ((k : ℕ) → k < length self.now.contents.items
            → IsTrue (not (is_written k (down_of self.now).ranges))
            → slice_index image.now k ≡ slice_index self.now.contents.items k) }
    {
        for (place, byte) in self.contents.iter().enumerate() {
            if image[place] != *byte && !self.has_written(place) {
                return false;
            }
        }
        true
    }

    #[tactic(auto, using(crate::proofs::Replays::written_any))]
    fn has_written(&self, place: usize) -> bool
        ensures { result ≡ is_written place (down_of self.now).ranges }
    {
        any_has(&self.writes, place)
    }
}

fn any_has(writes: &[Write], place: usize) -> bool
    ensures { result ≡ list_any (λ write. has place (range_of write)) writes.now }
{
    writes.iter().any(|write| write.has(place))
}

fn any_reaches(writes: &[Write], end: usize) -> bool
    ensures { result ≡ list_any (λ write. nat_le end (range_end (range_of write))) writes.now }
{
    writes.iter().any(|write| write.reaches(end))
}
