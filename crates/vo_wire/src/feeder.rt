//! What feeds the check of a reply with the bytes that come.
use link_frames::Gathers;
use std::alloc::{AllocError, Global};
use vo_check::Checking;

#[derive(Drop)]
pub(crate) struct Feeder<'a, 'q> {
    pub alloc: Global,
    pub checking: &'a mut Checking<'q>,
}

impl Gathers for Feeder<'_, '_> {
    ghost use Rattle.std.specs.Borrow.{GName};
    ghost use Rattle.vo_spec.specs.declared.queries.QueryText.{QueryText};
    ghost use Rattle.vo_wire.specs.Feeding.{check_bytes};

    ghost Kept = { GName × QueryText };

    ghost gathered = { λ feeder. check_bytes feeder.checking.now };

    ghost kept = { λ feeder. (feeder.checking.ghost_name, feeder.checking.now.query) };

    fn add(&mut self, piece: &[u8]) -> Result<(), AllocError> {
        self.checking.feed(self.alloc, piece)
    }
}
