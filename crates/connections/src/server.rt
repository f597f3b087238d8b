//! A server of connections, one after the other.
ghost use Rattle.std.specs.Prelude.{◌≡◌, ◌≢◌, ◌≤◌, ◌<◌, ◌^◌, ℕ, length, Some, Err, IsTrue, IsErrOf};
ghost use Rattle.outside.specs.ConnectionModel.{ConnectionModel, has_next};
ghost use Rattle.outside.specs.FaultRose.{FaultRose};
ghost use Rattle.link_frames.specs.Reading.{StaysWhere};
ghost use Rattle.connections.specs.Serving.{ServesAll, ServesNext, WritesLine};

use crate::end_line::end_line;
use crate::serve_fault::ServeFault;
use link_frames::{End, Responder, serve_link};
use outside::{Net, PutFault, Sink};
use std::alloc::Global;

/// Serves so many connections, one after the other, each to its end, and writes a line as each has
/// ended. It goes on whatever a connection ends by, but for want of memory.
pub fn serve_all<R: Responder, N: Net, S: Sink>(
    alloc: Global,
    store: &mut R,
    net: &mut N,
    out: &mut S,
    count: u32,
) -> Result<(), ServeFault>
    ensures served { ServesAll R.reply R.next count result (R.state store.old) (R.state store.new)
        (N.wire net.old) (N.wire net.new) (S.written out.old) (S.written out.new)
        (N.faults net.old) (N.faults net.new) }

    ensures counts { N.faults net.old ≤ N.faults net.new }
    ensures cause { IsErrOf result ServeFault.Network
        → FaultRose (N.faults net.old) (N.faults net.new) }
    ensures misses { (before : ConnectionModel) → N.wire net.old ≡ Some before
        → count ≤ length before.queue → N.misses net.new ≡ N.misses net.old }

    ensures out_counts { S.faults out.old ≤ S.faults out.new }
    ensures out_cause { IsErrOf result ServeFault.Output
        → FaultRose (S.faults out.old) (S.faults out.new) }
    ensures out_quiet { (IsErrOf result ServeFault.Output → ⊥)
        → S.faults out.new ≡ S.faults out.old }
{
    for served in 0..count {
        match serve_next(alloc, store, net, out, served + 1) {
            Ok(()) => {}
            Err(fault) => return Err(fault),
        }
    }
    Ok(())
}

/// Serves the next connection, which has this number.
fn serve_next<R: Responder, N: Net, S: Sink>(
    alloc: Global,
    store: &mut R,
    net: &mut N,
    out: &mut S,
    number: u32,
) -> Result<(), ServeFault>
    ensures served { ServesNext R.reply R.next number result (R.state store.old)
        (R.state store.new) (N.wire net.old) (N.wire net.new) (S.written out.old)
        (S.written out.new) (N.faults net.old) (N.faults net.new) }

    ensures counts { N.faults net.old ≤ N.faults net.new }
    ensures cause { IsErrOf result ServeFault.Network
        → FaultRose (N.faults net.old) (N.faults net.new) }
    ensures misses { StaysWhere has_next (N.wire net.old) (N.misses net.old) (N.misses net.new) }

    ensures out_counts { S.faults out.old ≤ S.faults out.new }
    ensures out_cause { IsErrOf result ServeFault.Output
        → FaultRose (S.faults out.old) (S.faults out.new) }
    ensures out_quiet { (IsErrOf result ServeFault.Output → ⊥)
        → S.faults out.new ≡ S.faults out.old }
{
    match net.next() {
        Ok(()) => {}
        Err(_) => return Err(ServeFault::Network),
    }
    let end = serve_link(alloc, store, net);
    net.close();
    put_line(alloc, out, number, end)
}

/// Writes the line of a connection that has ended.
fn put_line<S: Sink>(alloc: Global, out: &mut S, number: u32, end: End) -> Result<(), ServeFault>
    ensures wrote { WritesLine number end result (S.written out.old) (S.written out.new) }

    ensures counts { S.faults out.old ≤ S.faults out.new }
    ensures cause { IsErrOf result ServeFault.Output
        → FaultRose (S.faults out.old) (S.faults out.new) }
    ensures quiet { (IsErrOf result ServeFault.Output → ⊥)
        → S.faults out.new ≡ S.faults out.old }
    ensures inside { result ≢ Err ServeFault.Network }
{
    let Ok(line) = end_line(alloc, number, end) else {
        return Err(ServeFault::Memory);
    };
    match out.put(line.as_bytes()) {
        Ok(()) => Ok(()),
        Err(PutFault::Failed) => Err(ServeFault::Output),
        Err(PutFault::Memory) => Err(ServeFault::Memory),
    }
}
