//! Why lines are read no further.

ghost use Rattle.std.specs.Prelude.{◌≡◌};
ghost use Rattle.chi_watch_text.specs.Illegal.{begin_of, is_illegal, is_illegal_flit, is_illegal_line, is_illegal_pointed};

use chi_flit_text::FlitLineFault;
use chi_flits::FlitFault;
use chi_points::PointFault;
use chi_reading::LineFault;
use chi_watch::WatchFault;
use std::alloc::AllocError;
use thiserror::Error;

/// Why a line is refused for what it states, after the lines before it.
///
/// - `Event`: it is no event.
/// - `Flit`: it is no flit.
/// - `Port`: its flit cannot come next.
/// - `Points`: it cannot come next where requests are told at their points.
/// - `OfPoint`: it is a point, and requests are not told at their points.
/// - `OfRequest`: it is an event of a request among flits, by which such events are told.
///
/// ```
/// let fault = TellingFault::Port(FlitFault::NotOpen); // is of no open request
/// ```
#[derive(Clone, Copy, Debug, PartialEq, Eq, Error)]
pub enum TellingFault {
    #[error("{0}")]
    Event(LineFault),
    #[error("{0}")]
    Flit(FlitLineFault),
    #[error("{0}")]
    Port(FlitFault),
    #[error("{0}")]
    Points(PointFault),
    #[error("is a point, and --points is not given")]
    OfPoint,
    #[error("is an event of a request, and requests are told by flits")]
    OfRequest,
}

/// Whether no requester and no home send a flit then, by why it cannot come next.
fn is_illegal_flit(fault: &FlitFault) -> bool
    ensures { result ≡ is_illegal_flit fault.now }
{
    !matches!(
        fault,
        FlitFault::TimeFalls
            | FlitFault::UnknownLane
            | FlitFault::UnknownEnable
            | FlitFault::UnknownSent
            | FlitFault::TooMany
            | FlitFault::Memory
    )
}

/// The same where requests have points.
fn is_illegal_pointed(fault: &PointFault) -> bool
    ensures { result ≡ is_illegal_pointed fault.now }
{
    match fault {
        PointFault::Port(fault) => is_illegal_flit(fault),
        PointFault::AfterEnd | PointFault::Memory => false,
        PointFault::RetryLate | PointFault::NoPoint(_) => true,
    }
}

impl TellingFault {
    /// Whether the line states a flit that no requester and no home send then.
    fn is_illegal(&self) -> bool
        ensures { result ≡ is_illegal_line self.now }
    {
        match self {
            TellingFault::Port(fault) => is_illegal_flit(fault),
            TellingFault::Points(fault) => is_illegal_pointed(fault),
            _ => false,
        }
    }

    /// How the text of such a line begins.
    fn begin(&self) -> &'static str
        ensures { result.now ≡ begin_of self.now }
    {
        if self.is_illegal() {
            "not legal at the port: "
        } else {
            ""
        }
    }
}

/// Why lines are read no further. Lines are counted from 1.
///
/// - `Read`: a read answered a fault.
/// - `Line`: the line is refused for what it states.
/// - `Event`: the line tells an event that cannot be taken.
/// - `TooManyLines`: there are so many lines that their numbers do not fit 64 bits.
/// - `Write`: a granule that was found could not be told.
///
/// ```
/// let fault = LinesFault::Read; // input could not be read
/// ```
#[derive(Clone, Copy, Debug, PartialEq, Eq, Error)]
pub enum LinesFault {
    #[error("input could not be read")]
    Read,
    #[error("{}line {number} {fault}", .fault.begin())]
    Line { number: u64, fault: TellingFault },
    #[error("line {number} {fault}")]
    Event { number: u64, fault: WatchFault },
    #[error("input has too many lines")]
    TooManyLines,
    #[error("output could not be written")]
    Write,
    #[error("no memory")]
    Memory,
}

impl From<AllocError> for LinesFault {
    ghost use Rattle.std.specs.Prelude.{◌≡◌};
    ghost use Rattle.chi_watch_text.specs.declared.fault.LinesFault.{LinesFault};

    ghost from_gives = { λ fault result. result ≡ LinesFault.Memory };

    fn from(_fault: AllocError) -> LinesFault {
        LinesFault::Memory
    }
}

impl LinesFault {
    /// Whether a line states a flit that no requester and no home that keep to the protocol send then, or where requests have points
    /// a point for which none waits, or the end before one: the design does something that it may not, or the monitor is not bound
    /// as it should be. It is false where a line is no flit, where time falls, and
    /// where something that is looked at is not known.
    ///
    /// ```
    /// let is_finding = fault.is_illegal(); // not legal at the port: line 36 is of no open request
    /// ```
    pub fn is_illegal(&self) -> bool
        ensures { result ≡ is_illegal self.now }
    {
        match self {
            LinesFault::Line { number: _, fault } => fault.is_illegal(),
            _ => false,
        }
    }
}
