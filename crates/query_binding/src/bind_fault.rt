//! Why a query does not bind.
ghost use Rattle.std.specs.Prelude.{◌≡◌};
ghost use Rattle.query_binding.specs.declared.bind_fault.BindFault.TheVariants.{Memory};

use std::alloc::AllocError;
use thiserror::Error;
use vo_spec::QueryFault;

/// Why a query does not bind.
#[derive(Debug, Drop, Error)]
pub enum BindFault {
    #[error("a query that the tables don't bear out")]
    Wrong(QueryFault),
    #[error("out of memory")]
    Memory,
}

impl From<AllocError> for BindFault {
    ghost from_gives = { λ _ e. e ≡ Memory };

    fn from(_e: AllocError) -> BindFault {
        BindFault::Memory
    }
}
