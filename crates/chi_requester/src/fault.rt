//! Why a requester stops.

use std::alloc::AllocError;
use thiserror::Error;

/// Why a requester stops before a request.
#[derive(Clone, Copy, Debug, PartialEq, Eq, Error)]
pub enum WorkFault {
    #[error("no memory")]
    Memory,
}

impl From<AllocError> for WorkFault {
    ghost use Rattle.std.specs.Prelude.{◌≡◌};
    ghost use Rattle.chi_requester.specs.declared.fault.WorkFault.TheVariants.{Memory};

    ghost from_gives = { λ _ fault. fault ≡ Memory };

    fn from(_refused: AllocError) -> WorkFault {
        WorkFault::Memory
    }
}
