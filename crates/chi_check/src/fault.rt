//! Why a trace is not answered, and with which status.

ghost use Rattle.std.specs.Prelude.{◌≡◌};
ghost use Rattle.chi_check.specs.CheckStatus.{lines_status, plan_status, source_status, status_of};

use chi_plan::PlanFault;
use chi_program::ProgramFault;
use chi_reading::TraceFault;
use chi_script::WriteFault;
use chi_watch_text::LinesFault;
use thiserror::Error;

/// Why there is nothing to write of an input.
///
/// - `Read`: the reader answered a fault, which may also be that it was interrupted.
/// - `TooLong`: the input has more than 536,870,912 bytes.
/// - `Memory`: no memory for the input, for the search or for the answer.
/// - `Trace`: the trace was refused.
/// - `Events`: a line of events or flits was refused, or not read.
#[derive(Debug, Drop, Error)]
pub enum SourceFault {
    #[error("input could not be read")]
    Read,
    #[error("trace is over 536870912 bytes")]
    TooLong,
    #[error("no memory")]
    Memory,
    #[error(transparent)]
    Trace(TraceFault),
    #[error(transparent)]
    Events(LinesFault),
}

/// Why there is no plan.
///
/// - `Read`: the reader answered a fault, which may also be that it was interrupted.
/// - `TooLong`: the file has more than 536,870,912 bytes.
/// - `Refused`: the plan was refused, or there was no memory for it.
#[derive(Debug, Drop, Error)]
pub enum PlanFileFault {
    #[error("input could not be read")]
    Read,
    #[error("plan is over 536870912 bytes")]
    TooLong,
    #[error(transparent)]
    Refused(PlanFault),
}

/// Why no whole answer was written.
///
/// - `Input`: there is nothing to write of the input, or of what the inputs hold together.
/// - `File`: the file at this place among those that were named, counted from 0, was not counted. Up to here nothing is written.
/// - `Plan`: the plan of a count was not read, or refused. Up to here nothing is written.
/// - `Untold`: neither an operation nor a word of the granule that is asked for is told. Up to here nothing is written.
/// - `Page`: the page was not written whole. Up to here nothing else is written.
/// - `Unfinished`: a line of events or flits was refused, or not read. The granules that were found by then are written.
/// - `Unsaved`: the lines of a granule were not saved whole. The granules that were found by lines are written.
/// - `Unshown`: the page of a granule was not written whole. The granules that were found by lines are written.
/// - `Write`: the answer was not written whole.
#[derive(Debug, Drop, Error)]
pub enum CheckFault {
    #[error(transparent)]
    Input(SourceFault),
    #[error("{fault}")]
    File { place: usize, fault: SourceFault },
    #[error(transparent)]
    Plan(PlanFileFault),
    #[error("no operation and no word is told of the granule at {addr}, a decimal number")]
    Untold { addr: u64 },
    #[error("page could not be written")]
    Page,
    #[error(transparent)]
    Unfinished(LinesFault),
    #[error("lines could not be saved")]
    Unsaved,
    #[error("page could not be written")]
    Unshown,
    #[error(transparent)]
    Write(WriteFault),
}

// The status of a fault of lines.
fn lines_status(fault: &LinesFault) -> u8
    ensures { result ≡ lines_status fault.now }
{
    match fault {
        LinesFault::Read | LinesFault::Write => 5,
        LinesFault::Memory => 4,
        fault if fault.is_illegal() => 1,
        _ => 3,
    }
}

// The status of a fault of an input.
fn source_status(fault: &SourceFault) -> u8
    ensures { result ≡ source_status fault.now }
{
    match fault {
        SourceFault::Read => 5,
        SourceFault::TooLong => 3,
        SourceFault::Memory => 4,
        SourceFault::Trace(TraceFault::Memory) => 4,
        SourceFault::Trace(_) => 3,
        SourceFault::Events(fault) => lines_status(fault),
    }
}

// The status of a fault of a plan.
fn plan_status(fault: &PlanFileFault) -> u8
    ensures { result ≡ plan_status fault.now }
{
    match fault {
        PlanFileFault::Read => 5,
        PlanFileFault::Refused(PlanFault::Memory) => 4,
        _ => 3,
    }
}

impl ProgramFault for CheckFault {
    ghost status_of = { status_of };

    fn status(&self) -> u8 {
        match self {
            CheckFault::Input(fault) => source_status(fault),
            CheckFault::File { place: _, fault } => source_status(fault),
            CheckFault::Plan(fault) => plan_status(fault),
            CheckFault::Untold { addr: _ } => 3,
            CheckFault::Page => 5,
            CheckFault::Unfinished(fault) => lines_status(fault),
            CheckFault::Unsaved => 5,
            CheckFault::Unshown => 5,
            CheckFault::Write(_) => 5,
        }
    }

    fn no_memory() -> CheckFault {
        CheckFault::Input(SourceFault::Memory)
    }

    fn unwritten() -> CheckFault {
        CheckFault::Write(WriteFault::Failed)
    }
}
