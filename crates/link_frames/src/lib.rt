//! Frames over a connection: what clients, owners and stores say to one another.
//!
//! A frame is a length, a kind and a body. They are put whole and read in whatever pieces the link
//! gives. A store's side serves a connection, request by request, over a trait for what answers
//! them (`Responder`); the other side puts one request and reads its answer (`ask`), or has the
//! body of that gathered as it comes (`ask_into`).
#![tactic(auto)]

mod awaits;
mod end;
mod exchange;
mod fill;
mod frame;
mod frame_kind;
mod gathered_exchange;
mod gathers;
mod head;
mod interrupted;
mod laws;
mod limits;
mod put;
mod read;
mod receive;
mod received;
mod responder;
mod serve;

pub use awaits::Awaits;
pub use end::End;
pub use exchange::ask;
pub use frame::{Frame, NoFrame};
pub use frame_kind::FrameKind;
pub use gathered_exchange::ask_into;
pub use gathers::{Gathers, gather_bytes};
pub use head::{FrameHead, read_head};
pub use interrupted::Interrupted;
pub use laws::frames_read_back;
pub use limits::MAX_QUERY;
pub use put::put_frame;
pub use read::{read_body, read_frame};
pub use received::Received;
pub use responder::Responder;
pub use serve::{MAX_TURNS, serve_link};
