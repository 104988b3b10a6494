//! Requests that are executed one after another.

ghost use Rattle.std.specs.Prelude.{◌≡◌};
ghost use Rattle.chi_history.specs.NumberSets.{AllFrom, below};
ghost use Rattle.chi_requester.specs.Serial.{IsSerialRun};

use crate::fault::WorkFault;
use crate::policy::Policy;
use crate::single::work_request;
use chi_fields::Request;
use chi_history::{Home, Line, NoGate};
use std::alloc::Allocator;
use std::sync::Wait;

/// Executes the requests in order, each for its own requester, by a seat that holds every number.
///
/// Each is refused or completed before the next one. Nobody else changes memory meanwhile, so RetryAck never
/// comes, and `Resend` and `Return` do the same. `Memory` comes before the request that it stops: the lines of
/// the requests before it stay, and the requests from it on are not executed.
///
/// ```
/// run_serial(&home, rt, &mut seat, script.requests(), Policy::Resend, &mut lines)?;
/// ```
pub fn run_serial<H: Home, R: Wait, A: Allocator>(
    home: &H,
    rt: &R,
    seat: &mut H::Seat,
    requests: &[Request],
    policy: Policy,
    lines: &mut Vec<Line, A>,
) -> Result<(), WorkFault>
    requires own { H.belongs home.now seat.old }
    requires all { H.held seat.old ≡ below (H.opening home.now).requesters }
    requires opened { AllFrom (below (H.opening home.now).requesters) requests.now }
    ensures own { H.belongs home.now seat.new }
    ensures held { H.held seat.new ≡ H.held seat.old }
    ensures serial { IsSerialRun result (H.opening home.now) requests.now (H.seen seat.old) (H.seen seat.new)
        lines.old.items lines.new.items }
{
    for request in requests {
        work_request(home, rt, seat, request, policy, &mut NoGate, lines)?;
    }
    Ok(())
}
