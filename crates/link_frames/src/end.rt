//! How the serving of a connection ends.
ghost use Rattle.std.specs.Prelude.{◌≡◌};

use crate::frame::NoFrame;

#[derive(Clone, Copy, Debug, PartialEq, Eq)]
pub enum End {
    /// The link ended between frames.
    Closed,
    /// A frame came that is no request.
    BadFrame { length: u32 },
    /// The link ended after so many bytes of a frame.
    Cut { got: usize },
    /// A call of the link failed.
    LinkFault,
    /// As many requests were answered as are answered on one connection.
    Turns,
    /// Memory ran out.
    Memory,
}

impl End {
    ghost use Rattle.link_frames.specs.Serving.{end_of};

    /// The end where no request was read.
    pub fn without_request(fault: NoFrame) -> End
        ensures { result ≡ end_of fault }
    {
        match fault {
            NoFrame::Ended => End::Closed,
            NoFrame::Cut { got } => End::Cut { got },
            NoFrame::BadFrame { length } => End::BadFrame { length },
            NoFrame::LinkFault => End::LinkFault,
            NoFrame::Memory => End::Memory,
        }
    }
}
