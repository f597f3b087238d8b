//! Serving one connection by a store.
ghost use Rattle.std.specs.Prelude.{◌≡◌, ◌≤◌, Some};
ghost use Rattle.outside.specs.ConnectionModel.{ConnectionModel};
ghost use Rattle.link_frames.specs.Reading.{KeepsLinkCounts};
ghost use Rattle.link_frames.specs.Serving.{serving_script, max_turns, ServesKnown};
ghost use Rattle.vo_wire.specs.Answering.{reply_to, next_after};

use crate::loan::{LentStore, Loan, StoreServer};
use link_frames::End;
use outside::Link;
use std::alloc::Global;
use std::marker::{Brand, PhantomData};
use vo_store::Store;

/// Answers the requests that come, one after the other, until the link ends or a frame comes that
/// is no request. The store is changed by whole requests alone.
pub fn serve_link<L: Link>(alloc: Global, store: &mut Store, link: &mut L) -> End
    ensures known { (before : ConnectionModel) → L.wire link.old ≡ Some before
        → ServesKnown (serving_script reply_to next_after max_turns store.old before.coming)
        result store.old store.new before (L.wire link.new) }

    ensures counts { KeepsLinkCounts L.wire L.faults L.misses link.old link.new
        (result ≡ End.LinkFault) }
{
    let (_, end) = serve_lent::<Brand, L>(alloc, LentStore { store }, link);
    end
}

/// The same of a store that is lent, which is given back.
fn serve_lent<'a, K: Loan, L: Link>(
    alloc: Global,
    lent: LentStore<'a>,
    link: &mut L,
) -> (LentStore<'a>, End)
    requires { lent.store.ghost_name ≡ K.name }
    ensures same { result.0.store.ghost_name ≡ lent.entry.store.ghost_name }
    ensures known { (before : ConnectionModel) → L.wire link.old ≡ Some before → ServesKnown
        (serving_script reply_to next_after max_turns lent.entry.store.now before.coming)
        result.1 lent.entry.store.now result.0.store.now before (L.wire link.new) }

    ensures counts { KeepsLinkCounts L.wire L.faults L.misses link.old link.new
        (result.1 ≡ End.LinkFault) }
{
    let mut server: StoreServer<'a, K> = StoreServer {
        lent,
        loan: PhantomData,
    };
    let end = link_frames::serve_link(alloc, &mut server, link);
    let StoreServer { lent, loan: _ } = server;
    (lent, end)
}
