//! One requester's work.

ghost use Rattle.std.specs.Prelude.{◌≡◌, true};
ghost use Rattle.chi_requester.specs.Work.{IsWorkRun};

use crate::fault::WorkFault;
use crate::policy::Policy;
use crate::single::work_request;
use chi_fields::Request;
use chi_history::{Gate, Home, Line};
use std::alloc::Allocator;
use std::sync::Wait;

/// Executes the requests of the requester `src` in order, and skips the others.
///
/// Each is refused, or completed once, or answered by RetryAck. After RetryAck `Resend` sends the request again
/// on its credit, so that it is completed once too; `Return` gives the credit back, and the request is not
/// completed. `Memory` comes before the request that it stops: the lines before it stay, and the requests from
/// it on are not executed.
///
/// ```
/// work(&home, rt, &mut seat, 1, script.requests(), Policy::Resend, &mut NoGate, &mut lines)?;
/// ```
pub fn work<H: Home, R: Wait, G: Gate, A: Allocator>(
    home: &H,
    rt: &R,
    seat: &mut H::Seat,
    src: u8,
    requests: &[Request],
    policy: Policy,
    gate: &mut G,
    lines: &mut Vec<Line, A>,
) -> Result<(), WorkFault>
    requires own { H.belongs home.now seat.old }
    requires holds { H.held seat.old src ≡ true }
    ensures own { H.belongs home.now seat.new }
    ensures held { H.held seat.new ≡ H.held seat.old }
    ensures executed { IsWorkRun result (H.opening home.now) policy (H.limit home.now) (H.held seat.old) src requests.now
        (H.seen seat.old) (H.seen seat.new) lines.old.items lines.new.items }
{
    for request in requests {
        if request.src == src {
            work_request(home, rt, seat, request, policy, gate, lines)?;
        }
    }
    Ok(())
}
