//! An exchange that was answered and is lost, so that whoever is told of it has something to find.

ghost use Rattle.std.specs.Prelude.{◌≡◌, ◌<◌};
ghost use Rattle.chi_history.specs.NumberSets.{below};

use crate::fault::SoakFault;
use crate::requests::BASE;
use crate::rounds::Rounds;
use chi_fields::{Request, decode};
use chi_history::Home;
use chi_history::callers::serve_alone;
use chi_lanes::Reply;
use std::sync::Wait;
use std::sync::atomic::Ordering;

// The opcodes of a read and of an addition that returns the old bytes.
const READ: u8 = 0x04;

const ADD: u8 = 0x30;

/// A request of 0 for the first granule, whose eight bytes begin at lane 0.
fn first_granule(opcode: u8, lanes: [u8; 16]) -> Request
    ensures { result.src ≡ 0 }
{
    Request {
        src: 0,
        txn: 0,
        opcode,
        size: 3,
        addr: BASE,
        endian: false,
        be: 0xff,
        lanes,
    }
}

/// Serves a request of 0 while no other is served; `None` where it is refused.
fn serve_zero<H: Home, R: Wait>(
    home: &H,
    rt: &R,
    seat: &mut H::Seat,
    request: &Request,
) -> Option<Reply>
    requires own { H.belongs home.now seat.old }
    requires all { H.held seat.old ≡ below (H.opening home.now).requesters }
    requires some { 0 < (H.opening home.now).requesters }
    ensures own { H.belongs home.now seat.new }
    ensures held { H.held seat.new ≡ H.held seat.old }
{
    let access = decode(request, &home.region()).ok()?;
    Some(serve_alone(home, rt, seat, 0, &access))
}

/// Serves a request of 0 while no other is served, and tells it.
fn serve_told<H: Home, R: Wait>(
    home: &H,
    rt: &R,
    seat: &mut H::Seat,
    request: &Request,
    rounds: &mut Rounds,
) -> Result<(), SoakFault>
    requires own { H.belongs home.now seat.old }
    requires all { H.held seat.old ≡ below (H.opening home.now).requesters }
    requires some { 0 < (H.opening home.now).requesters }
    ensures own { H.belongs home.now seat.new }
    ensures held { H.held seat.new ≡ H.held seat.old }
{
    let begun = rounds.clock.fetch_add(1, Ordering::SeqCst);
    let reply = serve_zero(home, rt, seat, request);
    let answered = rounds.clock.fetch_add(1, Ordering::SeqCst);
    rounds.told.tell(request, begun, answered, reply)?;
    Ok(())
}

/// Loses an exchange: adds 1 to the first granule, which is told with its true reply, and takes it back by an addition that
/// is not told. A read that is told then finds the old word again.
pub(crate) fn lose_exchange<H: Home, R: Wait>(
    home: &H,
    rt: &R,
    seat: &mut H::Seat,
    rounds: &mut Rounds,
) -> Result<(), SoakFault>
    requires own { H.belongs home.now seat.old }
    requires all { H.held seat.old ≡ below (H.opening home.now).requesters }
    requires some { 0 < (H.opening home.now).requesters }
    ensures own { H.belongs home.now seat.new }
    ensures held { H.held seat.new ≡ H.held seat.old }
{
    let mut one = [0; 16];
    one[0] = 1;
    serve_told(home, rt, seat, &first_granule(ADD, one), rounds)?;
    serve_zero(home, rt, seat, &first_granule(ADD, [0xff; 16]));
    serve_told(home, rt, seat, &first_granule(READ, [0; 16]), rounds)
}
