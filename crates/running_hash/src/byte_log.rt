//! A list of bytes that is there for contracts alone.
ghost use Rattle.std.specs.Prelude.{◌≡◌, ℕ, List, [], ◌++◌};
ghost use Rattle.std.specs.Coded.{coded_list, coded_ℕ};
ghost use Rattle.std.specs.Borrow.{ftrue};

use std::marker::Model;

/// Bytes in the order in which they came. It holds none of them.
#[derive(Drop)]
pub struct ByteLog {
    ghost bytes: { List ℕ } by { coded_list coded_ℕ },
}

impl Model for ByteLog {
    ghost also_owns = { λ _. ftrue };
}

/// Bytes that come next.
#[derive(Clone, Copy, Drop)]
pub struct Piece<'a> {
    pub bytes: &'a [u8],
}

impl ByteLog {
    /// No bytes.
    pub fn empty() -> ByteLog
        ensures { result.bytes ≡ [] }
    {
        ByteLog {}
    }

    /// These bytes, with a piece behind them.
    #[inline(always)]
    pub fn with_piece(&self, _piece: &Piece<'_>) -> ByteLog
        ensures { result.bytes ≡ self.now.bytes ++ _piece.now.bytes.now }
    {
        ByteLog {}
    }
}
