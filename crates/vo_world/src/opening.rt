//! A world at its beginning.
ghost use Rattle.std.specs.Prelude.{◌≡◌, [], false, map, replicate, IfOk};
ghost use Rattle.std.specs.List.{AllByRecursion};
ghost use Rattle.outside.specs.MemDisk.{drive_of};
ghost use Rattle.vo_laws.specs.Sealing.{SignsValidly};
ghost use Rattle.owner_journal.specs.Entries.{entries_of, has_failed};
ghost use Rattle.vo_world.specs.Keeping.{HasBegun, Trusts};
ghost use Rattle.vo_world.specs.Steps.{empty_disk, start};
ghost use Rattle.vo_world.specs.WorldModel.{least_of};

use crate::committing::append_entry;
use crate::reopening::open_disk;
use crate::world::World;
use lms_sign::{PublicKey, SecretKey};
use outside::{MemDisk, Never};
use owner_journal::Journal;
use owner_state::Owner;
use std::alloc::{AllocError, Global};
use vo_check::Client;

impl World {
    /// An owner that has just started, with its first entry in its journal, and so many clients of
    /// it, who take any version.
    pub fn new(alloc: Global, key: SecretKey, clients: usize) -> Result<World, AllocError>
        ensures start { IfOk result (λ world. world ≡ start key clients) }
        ensures signs { IfOk result (λ _. SignsValidly key) }
    {
        let clients = new_clients(alloc, key.public(), clients)?;
        let (journal, disk, owner) = begin_journal(alloc, &key)?;
        let since = disk.moment();
        Ok(World {
            key,
            owner,
            journal,
            disk,
            since,
            clients,
            accepted: Vec::new(alloc),
            released: Vec::new(alloc),
        })
    }
}

/// Clients of this key, who take any version.
fn new_clients(alloc: Global, key: PublicKey, count: usize) -> Result<Vec<Client>, AllocError>
    ensures leasts { IfOk result (λ clients. map least_of clients.items ≡ replicate count 0) }
    ensures keys { IfOk result (λ clients. AllByRecursion (Trusts key) clients.items) }
{
    let mut clients = Vec::with_capacity(alloc, count)?;
    for _number in 0..count {
        clients.push(Client::new(key, 0))?;
    }
    Ok(clients)
}

/// An owner that has just started, and its journal on an empty disk.
fn begin_journal(
    alloc: Global,
    key: &SecretKey,
) -> Result<(Journal, MemDisk<Never>, Owner), AllocError>
    ensures begun { IfOk result (λ begun. HasBegun key.now begun.0 begun.1 begun.2) }
{
    let (owner, first) = Owner::start(alloc, key)?;
    let (mut journal, mut disk) = open_empty(alloc)?;
    append_entry(alloc, &mut journal, &mut disk, &first)?;
    Ok((journal, disk, owner))
}

/// A journal of no entries on an empty disk.
fn open_empty(alloc: Global) -> Result<(Journal, MemDisk<Never>), AllocError>
    ensures entries { IfOk result (λ opened. entries_of opened.0 ≡ []) }
    ensures works { IfOk result (λ opened. has_failed opened.0 ≡ false) }
    ensures drive { IfOk result (λ opened. drive_of opened.1 ≡ empty_disk) }
{
    open_disk(alloc, Vec::new(alloc))
}
