//! Bytes of a link, handed on in pieces as they come.
ghost use Rattle.std.specs.Prelude.{◌≡◌, ℕ, ◌+◌, ◌≤◌, ◌++◌, List, length, Some, OnOk, IfOk, IsErrOf};
ghost use Rattle.outside.specs.ConnectionModel.{ConnectionModel};
ghost use Rattle.link_frames.specs.Reading.{Gathered, GathersBytes, KeepsLinkCounts};

use crate::interrupted::Interrupted;
use outside::Link;
use std::alloc::AllocError;

/// How many bytes one call of the link takes at most: memory is taken for bytes that came, not for
/// those that a length claims.
const PIECE: usize = 2_048;

/// What takes bytes piece by piece.
pub trait Gathers {
    ghost Kept: { Type 0 };

    /// All bytes that were added.
    ghost gathered: { Self → List ℕ };

    /// What stays as it is, whatever is added.
    ghost kept: { Self → Kept };

    /// Adds a piece at the end. Which bytes there are after an error is open.
    fn add(&mut self, piece: &[u8]) -> Result<(), AllocError>
        ensures added { OnOk result (gathered self.new ≡ gathered self.old ++ piece.now) }
        ensures kept { kept self.new ≡ kept self.old };
}

impl Gathers for Vec<u8> {
    ghost Kept = { Unit {0} };

    ghost gathered = { λ bytes. bytes.items };

    ghost kept = { λ _. tt };

    fn add(&mut self, piece: &[u8]) -> Result<(), AllocError> {
        self.extend_from_slice(piece)
    }
}

/// Hands on the next `count` bytes, or all that are left, and tells how many they were.
pub fn gather_bytes<L: Link, G: Gathers>(
    link: &mut L,
    into: &mut G,
    count: usize,
) -> Result<usize, Interrupted>
    ensures known { (before : ConnectionModel) → L.wire link.old ≡ Some before
        → GathersBytes count (G.gathered into.old) (G.gathered into.new) result before
        (L.wire link.new) }
    ensures fits { IfOk result (λ n. n ≤ count) }
    ensures grows { IfOk result
        (λ n. length (G.gathered into.new) ≡ length (G.gathered into.old) + n) }
    ensures kept { G.kept into.new ≡ G.kept into.old }

    ensures counts { KeepsLinkCounts L.wire L.faults L.misses link.old link.new
        (IsErrOf result Interrupted.LinkFault) }
{
    let mut piece = [0; PIECE];
    let mut handed = 0;
    while handed < count {
        let room = PIECE.min(count - handed);
        match gather_piece(link, into, &mut piece[..room])? {
            0 => return Ok(handed),
            came => handed += came,
        }
    }
    Ok(handed)
}

/// Hands on what one call of the link gives.
fn gather_piece<L: Link, G: Gathers>(
    link: &mut L,
    into: &mut G,
    piece: &mut [u8],
) -> Result<usize, Interrupted>
    ensures known { (before : ConnectionModel) → L.wire link.old ≡ Some before
        → Gathered (length piece.old) (G.gathered into.old) (G.gathered into.new) result before
        (L.wire link.new) }
    ensures fits { IfOk result (λ n. n ≤ length piece.old) }
    ensures grows { IfOk result
        (λ n. length (G.gathered into.new) ≡ length (G.gathered into.old) + n) }
    ensures kept { G.kept into.new ≡ G.kept into.old }

    ensures counts { KeepsLinkCounts L.wire L.faults L.misses link.old link.new
        (IsErrOf result Interrupted.LinkFault) }
{
    let came = match link.get(piece) {
        Ok(came) => came,
        Err(_) => return Err(Interrupted::LinkFault),
    };
    match into.add(&piece[..came]) {
        Ok(()) => Ok(came),
        Err(_) => Err(Interrupted::Memory),
    }
}
