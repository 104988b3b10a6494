//! Why the program ends early.

use chi_history::OpenFault;
use chi_requester::WorkFault;
use std::alloc::AllocError;
use std::io;
use thiserror::Error;

/// Why a soak ends before its time is over.
///
/// - `Memory`: a growth was refused.
/// - `Opening`: the store was not opened.
/// - `Clock`: the clock could not be read.
/// - `Write`: the events could not be written, as where their reader has ended.
#[derive(Clone, Copy, Debug, PartialEq, Eq, Error)]
pub(crate) enum SoakFault {
    #[error("no memory")]
    Memory,
    #[error("the store was not opened")]
    Opening,
    #[error("the clock could not be read")]
    Clock,
    #[error("output could not be written")]
    Write,
}

impl From<AllocError> for SoakFault {
    fn from(_refused: AllocError) -> SoakFault {
        SoakFault::Memory
    }
}

impl From<WorkFault> for SoakFault {
    fn from(fault: WorkFault) -> SoakFault {
        match fault {
            WorkFault::Memory => SoakFault::Memory,
        }
    }
}

impl From<OpenFault> for SoakFault {
    fn from(fault: OpenFault) -> SoakFault {
        match fault {
            OpenFault::Memory => SoakFault::Memory,
            _ => SoakFault::Opening,
        }
    }
}

impl From<io::Error> for SoakFault {
    // The only reading is that of the clock, which is answered as `Clock` where it is made.
    fn from(fault: io::Error) -> SoakFault {
        match fault.kind() {
            io::ErrorKind::OutOfMemory => SoakFault::Memory,
            _ => SoakFault::Write,
        }
    }
}

/// The status that the program ends with after a fault.
pub(crate) fn status_of(fault: &SoakFault) -> u8 {
    match fault {
        SoakFault::Opening => 3,
        SoakFault::Memory => 4,
        SoakFault::Clock | SoakFault::Write => 5,
    }
}
