//! What became of a request, as a transcript reports it.

use chi_fields::{Refusal, Request};
use chi_lanes::Reply;

/// What became of a request: it was completed with this reply, it was refused, or it was answered by
/// RetryAck.
#[derive(Clone, Copy, Debug, PartialEq, Eq)]
pub enum Line {
    Completed(Request, Reply),
    Refused(Request, Refusal),
    Retried(Request),
}
