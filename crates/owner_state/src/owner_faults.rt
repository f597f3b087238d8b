//! What an owner's fault says of memory.
ghost use Rattle.std.specs.Prelude.{◌≡◌, ◌↔◌, IsTrue};

use owner_roots::OwnerFault;

/// Whether the fault is want of memory, and so says nothing of the batch or its proofs.
pub(crate) fn is_want_of_memory(fault: &OwnerFault) -> bool
    ensures { IsTrue result ↔ (fault.now ≡ OwnerFault.Memory) }
{
    match fault {
        OwnerFault::Memory => true,
        _ => false,
    }
}
