//! Serving connection after connection by a store.
ghost use Rattle.std.specs.Prelude.{◌≡◌, ◌≤◌, length, Some, IsErrOf};
ghost use Rattle.outside.specs.ConnectionModel.{ConnectionModel};
ghost use Rattle.outside.specs.FaultRose.{FaultRose};
ghost use Rattle.connections.specs.Serving.{ServesAll};
ghost use Rattle.vo_wire.specs.Answering.{reply_to, next_after};

use crate::loan::{LentStore, Loan, StoreServer};
use connections::ServeFault;
use outside::{Net, Sink};
use std::alloc::Global;
use std::marker::{Brand, PhantomData};
use vo_store::Store;

/// Serves so many connections, one after the other, each to its end, and writes a line as each has
/// ended.
pub fn serve_all<N: Net, S: Sink>(
    alloc: Global,
    store: &mut Store,
    net: &mut N,
    out: &mut S,
    count: u32,
) -> Result<(), ServeFault>
    ensures served { ServesAll reply_to next_after count result store.old store.new
        (N.wire net.old) (N.wire net.new) (S.written out.old) (S.written out.new)
        (N.faults net.old) (N.faults net.new) }

    ensures counts { N.faults net.old ≤ N.faults net.new }
    ensures cause { IsErrOf result ServeFault.Network
        → FaultRose (N.faults net.old) (N.faults net.new) }
    ensures misses { (before : ConnectionModel) → N.wire net.old ≡ Some before
        → count ≤ length before.queue → N.misses net.new ≡ N.misses net.old }

    ensures out_counts { S.faults out.old ≤ S.faults out.new }
    ensures out_cause { IsErrOf result ServeFault.Output
        → FaultRose (S.faults out.old) (S.faults out.new) }
    ensures out_quiet { (IsErrOf result ServeFault.Output → ⊥)
        → S.faults out.new ≡ S.faults out.old }
{
    let (_, end) = serve_all_lent::<Brand, N, S>(alloc, LentStore { store }, net, out, count);
    end
}

/// The same of a store that is lent, which is given back.
fn serve_all_lent<'a, K: Loan, N: Net, S: Sink>(
    alloc: Global,
    lent: LentStore<'a>,
    net: &mut N,
    out: &mut S,
    count: u32,
) -> (LentStore<'a>, Result<(), ServeFault>)
    requires { lent.store.ghost_name ≡ K.name }
    ensures same { result.0.store.ghost_name ≡ lent.entry.store.ghost_name }
    ensures served { ServesAll reply_to next_after count result.1 lent.entry.store.now
        result.0.store.now (N.wire net.old) (N.wire net.new) (S.written out.old)
        (S.written out.new) (N.faults net.old) (N.faults net.new) }

    ensures counts { N.faults net.old ≤ N.faults net.new }
    ensures cause { IsErrOf result.1 ServeFault.Network
        → FaultRose (N.faults net.old) (N.faults net.new) }
    ensures misses { (before : ConnectionModel) → N.wire net.old ≡ Some before
        → count ≤ length before.queue → N.misses net.new ≡ N.misses net.old }

    ensures out_counts { S.faults out.old ≤ S.faults out.new }
    ensures out_cause { IsErrOf result.1 ServeFault.Output
        → FaultRose (S.faults out.old) (S.faults out.new) }
    ensures out_quiet { (IsErrOf result.1 ServeFault.Output → ⊥)
        → S.faults out.new ≡ S.faults out.old }
{
    let mut server: StoreServer<'a, K> = StoreServer {
        lent,
        loan: PhantomData,
    };
    let end = connections::serve_all(alloc, &mut server, net, out, count);
    let StoreServer { lent, loan: _ } = server;
    (lent, end)
}
