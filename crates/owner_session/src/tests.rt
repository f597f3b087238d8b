//! Sessions of an owner whose entries are numbers with stores whose answers are written out.
ghost use Rattle.std.specs.Prelude.{ℕ, ◌+◌, ◌==◌, nat_lt, if◌then◌else◌, length, slice_index};
ghost use Rattle.vo_spec.specs.Bytes.{u64_bytes};
ghost use Rattle.owner_session.specs.declared.place.Place.TheVariants.{Holds, Elsewhere};

use crate::{NoAppend, NoStep, Place, Refusal, RefusalCause, SessionOwner, run_session};
use outside::{MemNet, MemSink, Net, Never};
use std::alloc::{AllocError, Global};
use std::test::Fail;
use vo_spec::u64_bytes;

/// A journal of numbers. Each is its own version, its own batch, and where the owner stands.
#[derive(Drop)]
struct Numbers {
    entries: Vec<u64>,
}

impl SessionOwner for Numbers {
    type Batch = u64;

    type Step = u64;

    ghost State = { Unit {0} };

    ghost Entry = { ℕ };

    ghost state = { λ _. tt };

    ghost entries = { λ owner. owner.entries.items };

    ghost forms = { record {
      proposal = u64_bytes;
      batch = λ entry. entry;
      install = u64_bytes;
      version = λ entry. entry;
      place = λ entries standing. if length standing == 1 then Holds 0
          else if nat_lt (slice_index standing 60) (length entries)
          then Holds (slice_index standing 60 + 1) else Elsewhere;
    } };

    ghost CanPropose = { λ _. Unit {0} };

    ghost IsJudgement = { λ _ _ _ _. Unit {0} };

    ghost entry_of = { λ step. step };

    ghost next_of = { λ _ _. tt };

    ghost Follows = { λ _ _. Unit {0} };

    ghost Works = { λ _. Unit {0} };

    ghost Keeps = { λ _. Unit {0} };

    ghost KeepsWith = { λ _ _. Unit {0} };

    ghost faults = { λ _. 0 };

    fn entry_count(&self) -> usize {
        self.entries.len()
    }

    fn place(&self, standing: &[u8]) -> Place {
        if standing.len() == 1 {
            return Place::Holds { count: 0 };
        }
        let last = standing.get(60).copied().unwrap_or(0) as usize;
        if last < self.entries.len() {
            Place::Holds { count: last + 1 }
        } else {
            Place::Elsewhere
        }
    }

    fn version(&self, index: usize) -> u64 {
        self.entries[index]
    }

    fn install_body(&self, alloc: Global, index: usize) -> Result<Vec<u8>, AllocError> {
        Vec::from_slice(alloc, &u64_bytes(self.entries[index]))
    }

    fn entry_proposal(&self, alloc: Global, index: usize) -> Result<Vec<u8>, AllocError> {
        Vec::from_slice(alloc, &u64_bytes(self.entries[index]))
    }

    fn batch_proposal(&self, alloc: Global, batch: &u64) -> Result<Vec<u8>, AllocError> {
        Vec::from_slice(alloc, &u64_bytes(*batch))
    }

    /// Refuses proofs of no bytes.
    fn step(&self, alloc: Global, batch: &u64, proofs: &[u8]) -> Result<u64, NoStep> {
        if !proofs.is_empty() {
            return Ok(*batch);
        }
        match Vec::from_slice(alloc, b"refused: proof missing 0\n") {
            Ok(lines) => Err(NoStep::Refused(Refusal {
                cause: RefusalCause::Proofs,
                lines,
            })),
            Err(_) => Err(NoStep::Memory),
        }
    }

    fn append(&mut self, _alloc: Global, step: u64) -> Result<(), NoAppend> {
        match self.entries.push(step) {
            Ok(()) => Ok(()),
            Err(_) => Err(NoAppend::Memory),
        }
    }
}

/// A network of one connection, which stands, and on which this comes byte by byte.
fn network(alloc: Global, coming: &[u8]) -> Result<MemNet<Never>, AllocError> {
    let coming = Vec::from_slice(alloc, coming)?;
    let connections = vec![in alloc; coming]?;
    Ok(MemNet::new(alloc, connections, Never)?.in_pieces(1))
}

/// What is known once a session ended: its status, the output, what was put, and the entries.
/// What isn't compared is none.
type Outcome<'a> = (u8, &'a [u8], Option<&'a [u8]>, Option<&'a [u64]>);

fn ends_on(
    alloc: Global,
    owner: &mut Numbers,
    net: &mut MemNet<Never>,
    batches: &[u64],
    due: Outcome<'_>,
) -> bool {
    let mut out = MemSink::new(alloc, Never);
    let is_connected = net.connect("").is_ok();
    let status = run_session(alloc, owner, batches, net, &mut out);
    let (due_status, written, sent, entries) = due;
    let is_due = (status, out.contents()) == (due_status, written);
    drop(out);
    let is_sent = match sent {
        Some(sent) => net.sent() == sent,
        None => true,
    };
    let are_kept = match entries {
        Some(entries) => owner.entries.as_slice() == entries,
        None => true,
    };
    is_connected && is_due && is_sent && are_kept
}

fn ends_with_owner(
    alloc: Global,
    owner: &mut Numbers,
    batches: &[u64],
    coming: &[u8],
    due: Outcome<'_>,
) -> Result<bool, AllocError> {
    let mut net = network(alloc, coming)?;
    let is_due = ends_on(alloc, owner, &mut net, batches, due);
    drop(net);
    Ok(is_due)
}

/// Whether a session of an owner with these entries, who commits these batches while this comes,
/// ends as it should.
fn ends(
    alloc: Global,
    entries: &[u64],
    batches: &[u64],
    coming: &[u8],
    due: Outcome<'_>,
) -> Result<bool, AllocError> {
    let entries = Vec::from_slice(alloc, entries)?;
    let mut owner = Numbers { entries };
    let is_due = ends_with_owner(alloc, &mut owner, batches, coming, due);
    drop(owner);
    is_due
}

#[test]
fn commits_two_batches_with_a_new_store(rt: HostRuntime) -> Result<(), Fail> {
    let coming = b"\0\0\0\x02\x82\0\
        \0\0\0\x09\x84\0\0\0\0\0\0\0\0\
        \0\0\0\x02\x83p\0\0\0\x09\x84\0\0\0\0\0\0\0\x01\
        \0\0\0\x03\x83pp\0\0\0\x09\x84\0\0\0\0\0\0\0\x02";
    let sent = b"\0\0\0\x01\x02\
        \0\0\0\x09\x04\0\0\0\0\0\0\0\0\
        \0\0\0\x09\x03\0\0\0\0\0\0\0\x01\0\0\0\x09\x04\0\0\0\0\0\0\0\x01\
        \0\0\0\x09\x03\0\0\0\0\0\0\0\x02\0\0\0\x09\x04\0\0\0\0\0\0\0\x02";
    let due = (
        0,
        b"version 1\nversion 2\n".as_slice(),
        Some(sent.as_slice()),
        Some([0, 1, 2].as_slice()),
    );
    assert!(rt; ends(rt.alloc(), &[0], &[1, 2], coming, due)?);
    Ok(())
}

/// The record of a store's that ends with this byte, in its frame, and what comes behind it.
fn standing_and(alloc: Global, last: u8, more: &[u8]) -> Result<Vec<u8>, AllocError> {
    let zeros = [0u8; 59];
    let frame = b"\0\0\0\x3e\x82\x01".as_slice();
    [frame, zeros.as_slice(), [last].as_slice(), more].concat(alloc)
}

#[test]
fn gives_a_store_what_it_lacks(rt: HostRuntime) -> Result<(), Fail> {
    let more = b"\0\0\0\x01\x83\0\0\0\x09\x84\0\0\0\0\0\0\0\x01\
        \0\0\0\x01\x83\0\0\0\x09\x84\0\0\0\0\0\0\0\x02";
    let sent = b"\0\0\0\x01\x02\
        \0\0\0\x09\x03\0\0\0\0\0\0\0\x01\0\0\0\x09\x04\0\0\0\0\0\0\0\x01\
        \0\0\0\x09\x03\0\0\0\0\0\0\0\x02\0\0\0\x09\x04\0\0\0\0\0\0\0\x02";
    let coming = standing_and(rt.alloc(), 0, more)?;
    let due = (0, b"".as_slice(), Some(sent.as_slice()), None);
    let is_due = ends(rt.alloc(), &[0, 1, 2], &[], &coming, due);
    drop(coming);
    assert!(rt; is_due?);
    Ok(())
}

#[test]
fn refuses_a_store_that_stands_elsewhere(rt: HostRuntime) -> Result<(), Fail> {
    let coming = standing_and(rt.alloc(), 2, b"")?;
    let due = (
        1,
        b"refused: store stands elsewhere\n".as_slice(),
        Some(b"\0\0\0\x01\x02".as_slice()),
        None,
    );
    let is_due = ends(rt.alloc(), &[0, 1], &[2], &coming, due);
    drop(coming);
    assert!(rt; is_due?);
    Ok(())
}

#[test]
fn ends_at_each_answer_that_it_does_not_want(rt: HostRuntime) -> Result<(), Fail> {
    for (coming, status, written) in [
        (
            b"\0\0\0\x02\x8f\x02".as_slice(),
            9,
            b"bad frame 2\n".as_slice(),
        ),
        (b"\0\0\0\x02\x82", 9, b"cut 5\n"),
        (b"\0\0\0\x02\x82\0", 9, b"cut 0\n"),
        (
            b"\0\0\0\x02\x82\0\0\0\0\x02\x8f\x06",
            1,
            b"refused: store 6\n",
        ),
        (
            b"\0\0\0\x02\x82\0\0\0\0\x09\x84\0\0\0\0\0\0\0\x01",
            1,
            b"refused: store stands elsewhere\n",
        ),
        (
            b"\0\0\0\x02\x82\0\0\0\0\x09\x84\0\0\0\0\0\0\0\0\0\0\0\x01\x83",
            1,
            b"refused: proof missing 0\n",
        ),
    ] {
        let due = (status, written, None, None);
        assert!(rt;
            ends(rt.alloc(), &[0], &[1], coming, due)?,
            "status {status}"
        );
    }
    Ok(())
}
