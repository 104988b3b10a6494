//! What a requester does after RetryAck.

/// What a requester does after RetryAck: it sends the request again on the credit, or it gives the credit back
/// and leaves the request.
///
/// Source: Arm IHI 0050 Issue B, RetryAck and protocol credits.
#[derive(Clone, Copy, Debug, PartialEq, Eq)]
pub enum Policy {
    Resend,
    Return,
}
