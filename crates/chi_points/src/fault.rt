//! Why a line cannot come next at a port whose requests have points.

ghost use Rattle.std.specs.Prelude.{◌≡◌};
ghost use Rattle.chi_points.specs.PointFaults.{fault_if};

use chi_flits::FlitFault;
use std::alloc::AllocError;
use thiserror::Error;

/// Why a line cannot come after those before it.
///
/// - `Port`: for one of the reasons of a port without points; also where a request takes the TxnID of one that waits for its point,
///   where no request waits for the point, and where the time of any line falls.
/// - `RetryLate`: a RetryAck follows an answer to the request, or its point.
/// - `NoPoint`: it is the end, and the request of the line with this number was completed, and has no point.
/// - `AfterEnd`: the end was told before it.
///
/// ```
/// let fault = PointFault::NoPoint(36); // is the end, and line 36 is a request that was completed, and has no point
/// ```
#[derive(Clone, Copy, Debug, PartialEq, Eq, Error)]
pub enum PointFault {
    #[error("{0}")]
    Port(FlitFault),
    #[error("is RetryAck to a request that had another answer, or its point")]
    RetryLate,
    #[error("is the end, and line {0} is a request that was completed, and has no point")]
    NoPoint(u64),
    #[error("comes after the end")]
    AfterEnd,
    #[error("no memory")]
    Memory,
}

impl From<AllocError> for PointFault {
    ghost use Rattle.chi_points.specs.declared.fault.PointFault.TheVariants.{Memory};

    ghost from_gives = { λ fault result. result ≡ Memory };

    fn from(_fault: AllocError) -> PointFault {
        PointFault::Memory
    }
}

/// The fault where a test holds.
pub(crate) fn fault_if(test: bool, fault: PointFault) -> Option<PointFault>
    ensures { result ≡ fault_if test fault }
{
    if test { Some(fault) } else { None }
}
