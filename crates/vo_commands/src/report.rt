//! What a run of the program comes to: a status, and what it writes.
ghost use Rattle.std.specs.Prelude.{◌≡◌, ◌≢◌};
ghost use Rattle.vo_commands.specs.Reports.{status_code};

use std::alloc::AllocError;
use thiserror::Error;

/// The statuses that come with lines or output of their own.
#[derive(Clone, Copy, PartialEq, Eq, Debug)]
pub enum Status {
    Done,
    /// A reply, a proof or a store is refused.
    RefusedReply,
    /// Words, a key, a seed, a file's size or a text are refused.
    RefusedInput,
    Collision,
    /// A record that the journal doesn't hold.
    Unsigned,
    BadJournal,
    /// A command is refused, or the key is spent.
    RefusedCommand,
    /// What a store sent is no answer, or not all of one.
    BadAnswer,
}

impl Status {
    /// The exit status.
    pub fn code(self) -> u8
        ensures value { result ≡ status_code self }
        ensures own { (result ≢ 3) × (result ≢ 4) }
    {
        match self {
            Status::Done => 0,
            Status::RefusedReply => 1,
            Status::RefusedInput => 2,
            Status::Collision => 5,
            Status::Unsigned => 6,
            Status::BadJournal => 7,
            Status::RefusedCommand => 8,
            Status::BadAnswer => 9,
        }
    }
}

#[derive(Debug, Drop)]
pub struct Report {
    pub status: Status,
    pub bytes: Vec<u8>,
}

/// Why a command ends before its output is made: it has something to say, the outside failed, or
/// memory ran out.
#[derive(Debug, Drop, Error)]
pub enum Stop {
    #[error("a refusal")]
    Refused(Report),
    #[error("a fault of the outside")]
    Outside,
    #[error("out of memory")]
    Memory,
}

impl From<AllocError> for Stop {
    ghost use Rattle.std.specs.Prelude.{◌≡◌};
    ghost use Rattle.vo_commands.specs.declared.report.Stop.TheVariants.{Memory};

    ghost from_gives = { λ _ stop. stop ≡ Memory };

    fn from(_error: AllocError) -> Stop {
        Stop::Memory
    }
}
