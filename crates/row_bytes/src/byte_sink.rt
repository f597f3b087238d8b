//! What bytes are written to: a list of bytes, or a hasher, which takes no memory.
ghost use Rattle.std.specs.Prelude.{◌≡◌, ℕ, List, OnOk, OnErr};
ghost use Rattle.row_bytes.specs.Writing.{Writes, WritesSome};

use std::alloc::AllocError;

pub trait ByteSink {
    type Fault: Drop;

    ghost HoldsBytes: { Self → List ℕ → Type 0 };

    fn write(&mut self, bytes: &[u8]) -> Result<(), Self::Fault>
        ensures ok { OnOk result (Writes HoldsBytes self.old self.new bytes.now) }
        ensures err { OnErr result (WritesSome HoldsBytes self.old self.new) };
}

impl ByteSink for Vec<u8> {
    type Fault = AllocError;

    ghost HoldsBytes = { λ out bytes. out.items ≡ bytes };

    fn write(&mut self, bytes: &[u8]) -> Result<(), AllocError> {
        self.extend_from_slice(bytes)
    }
}
