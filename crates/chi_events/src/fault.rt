//! Why an event cannot come next.

use chi_fields::{Refusal, refusal_name};
use thiserror::Error;

/// Why an event cannot come after those before it.
///
/// - `TimeFalls`: it is earlier than the one before it.
/// - `NumberTaken`: a request with this number is outstanding.
/// - `NotOutstanding`: no request with this number is outstanding.
/// - `DataTwice`: the request has its data already, or needs none.
/// - `ReplyTwice`: its completion has left already.
/// - `Refused`: the request's completion has left, and `decode` refuses it, so that no home can have accepted it.
/// - `NotRefusedSo`: no home refuses the request for this reason.
/// - `RefusedAfterReply`: the home has accepted the request, since its completion has left.
///
/// ```
/// let fault = EventFault::TimeFalls; // is earlier than the event before it
/// ```
#[derive(Clone, Copy, Debug, PartialEq, Eq, Error)]
pub enum EventFault {
    #[error("is earlier than the event before it")]
    TimeFalls,
    #[error("takes a number of an outstanding request")]
    NumberTaken,
    #[error("is of no outstanding request")]
    NotOutstanding,
    #[error("has data for a request that has them or needs none")]
    DataTwice,
    #[error("has a second reply")]
    ReplyTwice,
    #[error("is refused: {}", refusal_name(*.0))]
    Refused(Refusal),
    #[error("is not refused so")]
    NotRefusedSo,
    #[error("refuses a request that has a reply")]
    RefusedAfterReply,
    #[error("no memory")]
    Memory,
}
