//! Why a trace is refused, or a line of events.

ghost use Rattle.std.specs.Prelude.{◌≡◌};
ghost use Rattle.serde_json.specs.View.{view};
ghost use Rattle.chi_reading.specs.Faults.{of_line, of_request, of_trace};

use crate::member::Member;
use chi_fields::{Refusal, RegionFault, refusal_name, region_fault_name};
use chi_json::{MemberFault, ObjectFault};
use serde_json::Value;
use std::alloc::AllocError;
use thiserror::Error;

/// The greatest number of operations in a trace.
pub const MOST_OPERATIONS: usize = 1_048_576;

/// Why a request of a trace is refused.
///
/// - `Object`: it is not an object, or its members are not those of a request.
/// - `Refused`: `decode` refuses the request, so that no home can have completed it.
/// - `NotRefusedSo`: it was refused for a reason for which `decode` does not refuse it.
/// - `EndsBeforeStart`: its end is below its start.
///
/// ```
/// let fault = RequestFault::EndsBeforeStart; // ends before it starts
/// ```
#[derive(Clone, Copy, Debug, Error)]
pub enum RequestFault {
    #[error("{0}")]
    Object(ObjectFault<Member>),
    #[error("is refused: {}", refusal_name(*.0))]
    Refused(Refusal),
    #[error("is not refused so")]
    NotRefusedSo,
    #[error("ends before it starts")]
    EndsBeforeStart,
}

/// Why a trace is refused: the first fault that its walk meets, or `Memory` where a growth is refused before.
///
/// - `Object`: the text is not an object of JSON, or its members are not those of a trace.
/// - `RegionRefused`: `Region::new` refuses the base and the number of granules.
/// - `TooManyRequests`: there are more than 1,048,576 requests.
/// - `InRequest`: a request is refused, at its place in the array from 0 on.
/// - `OfEvents`: the text is no trace, and its first line is an object that names an event.
/// - `OfFlits`: the same of one that names the channel of a flit.
/// - `Compressed`: the text is what gzip made of one.
///
/// ```
/// let fault = TraceFault::Object(ObjectFault::Missing(Member::Requests)); // trace member requests is missing
/// ```
#[derive(Clone, Copy, Debug, Error)]
pub enum TraceFault {
    #[error("trace {0}")]
    Object(ObjectFault<Member>),
    #[error("trace region is refused: {}", region_fault_name(*.0))]
    RegionRefused(RegionFault),
    #[error("trace has over {MOST_OPERATIONS} requests")]
    TooManyRequests,
    #[error("request {place} {fault}")]
    InRequest { place: usize, fault: RequestFault },
    #[error("input is of events, which the option --events reads")]
    OfEvents,
    #[error("input is of flits, which the option --flits reads")]
    OfFlits,
    #[error("input is compressed by gzip, and gunzip -c gives its text")]
    Compressed,
    #[error("no memory")]
    Memory,
}

/// Why a line tells no event: the first fault that its reading meets, or `Memory` where a growth is refused before. The text does
/// not say which line it is.
///
/// - `Object`: the line is not an object of JSON, or its members are not those of an event.
/// - `OfTrace`: it is an object with requests, as a trace is, that names no event.
/// - `OfFlits`: it is an object that names the channel of a flit, and has neither an event nor requests.
/// - `NotWhole`: it is the first line, begins as an object does, and is not JSON, as the first of a trace on several lines.
/// - `Compressed`: it is the first line of what gzip made of a text.
///
/// ```
/// let fault = LineFault::Object(ObjectFault::Missing(Member::Time)); // member time is missing
/// ```
#[derive(Clone, Copy, Debug, PartialEq, Eq, Error)]
pub enum LineFault {
    #[error("{0}")]
    Object(ObjectFault<Member>),
    #[error("is of a trace, which chicheck explain reads")]
    OfTrace,
    #[error("is of flits, which the option --flits reads")]
    OfFlits,
    #[error("is not one whole JSON object, as an event is; chicheck explain reads a trace")]
    NotWhole,
    #[error("is compressed by gzip, and gunzip -c gives its text")]
    Compressed,
    #[error("no memory")]
    Memory,
}

impl RequestFault {
    /// The fault of a request of which a member has one.
    pub(crate) fn of_member(object: &Value, fault: MemberFault<Member>) -> RequestFault
        ensures { result ≡ of_request (view object.now) fault }
    {
        RequestFault::Object(ObjectFault::of_member(object, fault))
    }
}

impl TraceFault {
    /// The fault of a trace of which a member has one.
    pub(crate) fn of_member(object: &Value, fault: MemberFault<Member>) -> TraceFault
        ensures { result ≡ of_trace (view object.now) fault }
    {
        match fault {
            MemberFault::Memory => TraceFault::Memory,
            other => TraceFault::Object(ObjectFault::of_member(object, other)),
        }
    }
}

impl LineFault {
    /// The fault of a line of whose object a member has one.
    pub(crate) fn of_member(object: &Value, fault: MemberFault<Member>) -> LineFault
        ensures { result ≡ of_line (view object.now) fault }
    {
        match fault {
            MemberFault::Memory => LineFault::Memory,
            other => LineFault::Object(ObjectFault::of_member(object, other)),
        }
    }
}

impl From<AllocError> for LineFault {
    ghost use Rattle.chi_reading.specs.declared.fault.LineFault.TheVariants.{Memory};

    ghost from_gives = { λ fault result. result ≡ Memory };

    fn from(_fault: AllocError) -> LineFault {
        LineFault::Memory
    }
}

impl From<AllocError> for TraceFault {
    ghost use Rattle.chi_reading.specs.declared.fault.TraceFault.TheVariants.{Memory};

    ghost from_gives = { λ fault result. result ≡ Memory };

    fn from(_fault: AllocError) -> TraceFault {
        TraceFault::Memory
    }
}
