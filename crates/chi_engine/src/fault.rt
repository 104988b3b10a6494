//! Why a run ends early, and with which status.

ghost use Rattle.std.specs.Prelude.{◌≡◌};
ghost use Rattle.chi_engine.specs.FaultStatus.{status_of};

use chi_history::OpenFault;
use chi_requester::WorkFault;
use chi_script::{ScriptFault, WriteFault};
use thiserror::Error;

/// Why the engine did not write a whole transcript.
///
/// - `Read`: the reader answered a fault, which may also be that it was interrupted.
/// - `TooLong`: the input has more than 4,194,304 bytes.
/// - `Memory`: no memory for the input, for the racers or for the words of the memory lines.
/// - `Script`, `Open`: the script or the opening of the store was refused. Up to here nothing is written.
/// - `Work`: no memory for a request's lines. A prefix of the requests' lines is written (of a race, one of each
///   requester's), and no memory lines.
/// - `Write`: the transcript was not written whole.
#[derive(Debug, Drop, Error)]
pub enum EngineFault {
    #[error("input could not be read")]
    Read,
    #[error("script is over 4194304 bytes")]
    TooLong,
    #[error("no memory")]
    Memory,
    #[error(transparent)]
    Script(ScriptFault),
    #[error(transparent)]
    Open(OpenFault),
    #[error(transparent)]
    Work(WorkFault),
    #[error(transparent)]
    Write(WriteFault),
}

/// The status that the program ends with on this fault: 3 where the script or the opening is refused, 4 out
/// of memory, 5 where a device failed.
pub fn status_of(fault: &EngineFault) -> u8
    ensures { result ≡ status_of fault.now }
{
    match fault {
        EngineFault::Read => 5,
        EngineFault::TooLong => 3,
        EngineFault::Memory => 4,
        EngineFault::Script(ScriptFault::Memory) => 4,
        EngineFault::Script(_) => 3,
        EngineFault::Open(OpenFault::Memory) => 4,
        EngineFault::Open(_) => 3,
        EngineFault::Work(_) => 4,
        EngineFault::Write(_) => 5,
    }
}
