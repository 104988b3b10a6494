//! The replies that an access can have, whatever the memory holds.

ghost use Rattle.std.specs.Prelude.{◌≡◌};
ghost use Rattle.chi_fields.specs.Access.{lane_of};
ghost use Rattle.chi_trace.specs.Replies.{answers_data, are_zero, is_within, reply_fault};

use chi_fields::{Access, Kind};
use chi_lanes::Reply;

/// Why an access has no such reply, whatever the memory holds.
///
/// - `WithData`: a write or a store is answered without data.
/// - `WithoutData`: every other kind is answered with data.
/// - `OutsideOperand`: a lane outside the operand is not 0.
#[derive(Clone, Copy, Debug, PartialEq, Eq)]
pub enum ReplyFault {
    WithData,
    WithoutData,
    OutsideOperand,
}

/// Whether a home answers data to a request of this kind.
fn answers_data(kind: Kind) -> bool
    ensures { result ≡ answers_data kind }
{
    match kind {
        Kind::Write | Kind::Store(_) => false,
        Kind::Read | Kind::Load(_) | Kind::Swap | Kind::Compare => true,
    }
}

/// Whether each of some bytes is 0.
fn are_zero(bytes: &[u8]) -> bool
    ensures { result ≡ are_zero bytes.now }
{
    bytes.iter().all(|byte| *byte == 0)
}

/// Whether a data packet holds 0 in each lane outside an access's operand.
fn is_within(access: &Access, lanes: &[u8; 16]) -> bool
    ensures { result ≡ is_within (lane_of access.now.addr) access.now.len lanes.now }
{
    let first = access.lane();
    are_zero(&lanes[..first]) && are_zero(&lanes[first + access.len()..])
}

/// Why an access has no such reply, whatever the memory holds. `None` is answered where it can have it, and where no reply was
/// seen.
///
/// Source: Arm IHI 0050 Issue B, atomic transactions.
///
/// ```
/// let fault = reply_fault(&store, &Some(Reply::CompData([0; 16]))); // Some(ReplyFault::WithData)
/// ```
pub fn reply_fault(access: &Access, seen: &Option<Reply>) -> Option<ReplyFault>
    ensures { result ≡ reply_fault access.now seen.now }
{
    let has_data = answers_data(access.kind());
    match seen {
        None => None,
        Some(Reply::Comp) if has_data => Some(ReplyFault::WithoutData),
        Some(Reply::Comp) => None,
        Some(Reply::CompData(_)) if !has_data => Some(ReplyFault::WithData),
        Some(Reply::CompData(lanes)) if is_within(access, lanes) => None,
        Some(Reply::CompData(_)) => Some(ReplyFault::OutsideOperand),
    }
}
