//! What a home answers to a request.

use crate::credit::Credit;
use chi_lanes::Reply;

/// The answer to a request: it was done, or it was answered by RetryAck with a credit. `lost` counts the
/// exchanges that this call lost to others.
///
/// Source: Arm IHI 0050 Issue B, RetryAck and protocol credits.
#[derive(Debug)]
pub enum Served {
    Done { reply: Reply, lost: u8 },
    Retry { credit: Credit, lost: u8 },
}
