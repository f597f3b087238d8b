//! The lines of connections that have ended.
ghost use Rattle.std.specs.Prelude.{◌≡◌, IfOk, string_bytes};
ghost use Rattle.connections.specs.Lines.{end_line, HasLine};

use link_frames::End;
use std::alloc::{AllocError, Global};

/// The line of the connection of this number; there is none where memory ran out.
#[tactic(auto, unfolding(crate::specs::Lines::end_line))]
pub fn end_line(alloc: Global, number: u32, end: End) -> Result<String, AllocError>
    ensures some { IfOk result (λ _. HasLine end) }
    ensures bytes { IfOk result (λ line. string_bytes line ≡ end_line number end) }
{
    match end {
        End::Closed => format!(in alloc; "connection {number} closed\n"),
        End::BadFrame { length } => {
            format!(in alloc; "connection {number} bad frame {length}\n")
        }
        End::Cut { got } => format!(in alloc; "connection {number} cut {got}\n"),
        End::LinkFault => format!(in alloc; "connection {number} fault\n"),
        End::Turns => format!(in alloc; "connection {number} turns\n"),
        End::Memory => Err(AllocError),
    }
}
