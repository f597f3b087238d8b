//! An owner with its journal on a disk that never fails, its clients, and what they came to.
use crate::events::AcceptedReply;
use lms_sign::SecretKey;
use outside::{MemDisk, Never};
use owner_journal::Journal;
use owner_state::{Entry, Owner};
use std::marker::Model;
use vo_check::Client;
use vo_spec::Record;

/// A world; contracts see what it has come to.
#[derive(Drop)]
pub struct World {
    pub(crate) key: SecretKey,
    pub(crate) owner: Owner,
    pub(crate) journal: Journal,
    pub(crate) disk: MemDisk<Never>,
    // The disk's moment as the last event began.
    pub(crate) since: usize,
    pub(crate) clients: Vec<Client>,
    pub(crate) accepted: Vec<AcceptedReply>,
    // Of these records anybody may know.
    pub(crate) released: Vec<Record>,
}

impl Model for World {
    ghost use Rattle.std.specs.Coded.{codes};
    ghost use Rattle.vo_spec.specs.contracts.queries.Cond as condition;
    ghost use Rattle.vo_world.specs.WorldModel.{WorldModel};

    ghost Value = { WorldModel };

    ghost coded = { Prim.hlevel (codes, condition.the_row.coded) };

    ghost use Rattle.vo_world.specs.Viewing.{IsKept, model_of};

    ghost view = { model_of };

    ghost invariant = { IsKept };
}

impl World {
    ghost use Rattle.std.specs.Prelude.{◌≡◌, length};

    /// How many clients there are.
    pub fn client_count(&self) -> usize
        ensures { result ≡ length self.now.leasts }
    {
        self.clients.len()
    }

    /// The entries of the journal, oldest first.
    pub fn entries(&self) -> &[Entry]
        ensures { result.now ≡ self.now.entries }
    {
        self.journal.entries()
    }

    /// The bytes of the journal, as reads give them.
    pub fn journal(&self) -> &[u8]
        ensures { result.now ≡ self.now.drive.seen }
    {
        self.disk.contents()
    }

    /// The replies that clients accepted, oldest first.
    pub fn accepted_replies(&self) -> &[AcceptedReply]
        ensures { result.now ≡ self.now.accepted }
    {
        &self.accepted
    }

    /// The records of which anybody may know since the last event began, oldest first.
    pub fn released_records(&self) -> &[Record]
        ensures { result.now ≡ self.now.released }
    {
        &self.released
    }
}
