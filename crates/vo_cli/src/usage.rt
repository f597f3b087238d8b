//! The commands, for who has asked for none of them.
ghost use Rattle.std.specs.Prelude.{◌≡◌, map, string_bytes, None, IsTrue, IfOk};
ghost use Rattle.cli_args.specs.PlainRequest.{request_in};

use cli_args::read_words;
use std::alloc::Global;
use std::io::{self, ErrorKind};

/// What standard error gets where the words are refused.
pub const USAGE: &str = "\
usage:
    vo_cli keygen SEED [SHAPE]                 writes the public key of a seed file
    vo_cli seal SEED SQLFILE [SHAPE]           writes the journal of a script's batches
    vo_cli own SEED ADDR SQLFILE [SHAPE]       commits a script's batches through a mirror
    vo_cli answer PUB JOURNAL QUERY [--at V]   writes the reply to a query
    vo_cli serve ADDR PUB JOURNAL COUNT        serves COUNT connections
    vo_cli check PUB QUERY REPLY [--least V]   checks a reply and writes its rows
    vo_cli ask ADDR PUB QUERY                  asks a mirror, checks its reply, writes the rows
      [--at V] [--least V]
    vo_cli audit PUB JOURNAL QUERY REPLY       writes what a reply is worth by the journal
      [--seed SEED [SHAPE]]                    and to the key's owner what gives a forger away
    vo_cli meet PUB QUERY REPLY REPLY          writes what two replies are to each other
    vo_cli gen N NUMBER                        tries owner, mirror, reader and auditor on N commands
SEED, SQLFILE, PUB, JOURNAL and REPLY are files, QUERY is a text, and ADDR is as 127.0.0.1:7878.
SHAPE is of the seed's key, and each time the same: [--height H] [--levels L], where H is 5, the
default, or 10, and L is 1, the default, or 2.
COUNT is at least 1. V is a version: of --at the one that is asked for, by default the newest, of
which a mirror keeps the last 64; of --least the last that was seen, 0 by default. N is 1 to
100000, and each NUMBER gives other commands.
";

/// Whether the words of the command line ask for nothing.
pub fn are_refused(alloc: Global, words: &io::Result<Vec<String>>) -> bool
    ensures { IfOk words.now (λ words. IsTrue result
        → request_in (map string_bytes words.items) ≡ None) }
{
    match words {
        Ok(words) => matches!(read_words(alloc, words), Ok(None)),
        Err(error) => error.kind() != ErrorKind::OutOfMemory,
    }
}
