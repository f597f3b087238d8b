//! `ask`: the answer that a client takes from the reply of a store, over a network.
ghost use Rattle.std.specs.Prelude.{◌≡◌, ◌⊎◌, ◌≤◌, [], ◌∷◌, length, Some, IsTrue, IfSome};
ghost use Rattle.outside.specs.ConnectionModel.{ConnectionModel, has_next};
ghost use Rattle.outside.specs.FaultRose.{FaultRose};
ghost use Rattle.link_frames.specs.Reading.{KeepsNetCounts};
ghost use Rattle.link_frames.specs.Frames.{max_query};
ghost use Rattle.vo_spec.specs.Conditions.{query_of};
ghost use Rattle.vo_commands.specs.Expected.{AsksOnly, AsksWhere, Checks, HasQuery, IsKeyFile, OfQuery, ask_expected, queue_of, question_frame, with_reply, Anything, with_key};
ghost use Rattle.vo_commands.specs.Reports.{Answers, FailsOutside};
ghost use Rattle.vo_commands.specs.Taking.{LeavesFiles, Along};

use crate::check::client_report;
use crate::files::take_key;
use crate::report::{Report, Stop};
use crate::store_replies::feed_reply;
use crate::texts::query_in;
use lms_sign::PublicKey;
use outside::{Net, Shelf};
use std::alloc::Global;
use vo_check::Client;
use vo_spec::QueryText;

/// The versions of which a reader takes an answer: the one that it asks for, if it asks for one, and
/// none below `least`.
#[derive(Clone, Copy)]
pub struct Versions {
    pub at: Option<u64>,
    pub least: u64,
}

/// The answer of one of these versions that a client of the key accepts from the store at this
/// address, or why the reply is refused.
pub fn ask<F: Shelf, N: Net>(
    alloc: Global,
    files: &mut F,
    net: &mut N,
    address: &str,
    key: &str,
    query: &str,
    versions: Versions,
) -> Result<Report, Stop>
    ensures known { IfSome (F.contents files.old) (λ known.
        Answers (ask_expected key.now query.now versions.at versions.least known
        (queue_of (N.wire net.old))) result) }
    ensures asks { (before : ConnectionModel) → N.wire net.old ≡ Some before
        → AsksWhere (IsKeyFile key.now (F.contents files.old) × HasQuery query.now)
        (question_frame versions.at query.now) before (N.wire net.new) }
    ensures files { LeavesFiles F.contents F.faults F.misses (Along (λ known.
        with_key known key.now (λ _. Anything))) files.old files.new }

    ensures net_counts { N.faults net.old ≤ N.faults net.new }
    ensures cause { FailsOutside result
        → FaultRose (F.faults files.old) (F.faults files.new)
        ⊎ FaultRose (N.faults net.old) (N.faults net.new) }
    ensures quiet { (FailsOutside result → ⊥) → (F.faults files.new ≡ F.faults files.old)
        × (N.faults net.new ≡ N.faults net.old) }
    ensures net_misses { (before : ConnectionModel) → N.wire net.old ≡ Some before
        → IsTrue (has_next before) → N.misses net.new ≡ N.misses net.old }
{
    let key = take_key(alloc, files, key)?;
    ask_by_key(alloc, net, address, key, query, versions)
}

/// The same by a key that was taken.
fn ask_by_key<N: Net>(
    alloc: Global,
    net: &mut N,
    address: &str,
    key: PublicKey,
    query: &str,
    versions: Versions,
) -> Result<Report, Stop>
    ensures known { Answers (OfQuery query.now (λ q. with_reply (queue_of (N.wire net.old))
        (λ reply. Checks key versions.at versions.least q reply))) result }
    ensures asks { (before : ConnectionModel) → N.wire net.old ≡ Some before
        → AsksWhere (HasQuery query.now) (question_frame versions.at query.now) before
        (N.wire net.new) }

    ensures counts { KeepsNetCounts N.wire N.faults N.misses net.old net.new
        (FailsOutside result) }
{
    let text = query_in(alloc, query)?;
    let report = ask_store(alloc, net, address, key, query, &text, versions);
    // By a call: how a query is let go of is then spelled out nowhere here.
    drop(text);
    report
}

/// The same of a query, which was read from its text.
fn ask_store<N: Net>(
    alloc: Global,
    net: &mut N,
    address: &str,
    key: PublicKey,
    text: &str,
    query: &QueryText,
    versions: Versions,
) -> Result<Report, Stop>
    requires some { 1 ≤ length text.now }
    requires fits { length text.now ≤ max_query }
    ensures known { (before : ConnectionModel) → N.wire net.old ≡ Some before
        → Answers (with_reply (Some before.queue)
        (λ reply. Checks key versions.at versions.least (query_of query.now) reply)) result }
    ensures asks { (before : ConnectionModel) → N.wire net.old ≡ Some before
        → AsksOnly (question_frame versions.at text.now) before (N.wire net.new) }

    ensures counts { KeepsNetCounts N.wire N.faults N.misses net.old net.new
        (FailsOutside result) }
{
    let mut client = Client::new(key, versions.least);
    let mut checking = client.begin(alloc, query);
    match feed_reply(alloc, net, address, versions.at, text, &mut checking) {
        Ok(()) => client_report(alloc, versions.at, checking.end(alloc, &mut client)),
        Err(stop) => {
            drop(checking);
            Err(stop)
        }
    }
}
