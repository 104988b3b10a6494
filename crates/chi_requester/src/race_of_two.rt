//! Two requesters who work at the same time, and 0 after them.

ghost use Rattle.std.specs.Prelude.{◌≡◌, ◌≤◌, [], All};
ghost use Rattle.chi_history.specs.NumberSets.{below};
ghost use Rattle.chi_requester.specs.Race.{IsRaceRun, lines_of, one_and_two};

use crate::fault::WorkFault;
use crate::mixed_gate::MixedGate;
use crate::policy::Policy;
use crate::race_of_any::{self, Racer};
use chi_fields::Request;
use chi_history::{Gate, Home, Line, NoGate};
use std::alloc::Allocator;
use std::mem;
use std::sync::Wait;
use std::thread::Threads;

/// The lines of the requesters 1 and 2, who work at the same time, and of 0, who works after them.
#[derive(Drop)]
pub struct Race<A: Allocator> {
    pub one: Vec<Line, A>,
    pub two: Vec<Line, A>,
    pub zero: Vec<Line, A>,
}

impl<A: Allocator + Copy> Race<A> {
    /// A race of which no line is reported yet. It takes no memory.
    ///
    /// ```
    /// let mut race = Race::new(rt.alloc());
    /// ```
    pub fn new(alloc: A) -> Race<A>
        ensures { lines_of result ≡ (λ r. []) }
    {
        Race {
            one: Vec::new(alloc),
            two: Vec::new(alloc),
            zero: Vec::new(alloc),
        }
    }
}

/// Executes the requests of 1 and of 2 at the same time, each by a seat and a gate of its own, and then those of
/// 0, by a seat that holds every number.
///
/// After RetryAck `Resend` sends the request again on its credit, and `Return` gives the credit back and leaves
/// the request. To 0 RetryAck never comes.
///
/// Where no thread can be started, the requests of both are executed in the caller's. Where 1 or 2 stops by
/// `Memory`, the other works to its end, the requests of 0 are not executed, and `Memory` is answered. So it is, and
/// no request is executed, where there is no memory for the two themselves. The lines so far stay, and the seat
/// holds every number again.
///
/// ```
/// race_two(&home, rt, &mut seat, script.requests(), Policy::Return, NoGate, NoGate, &mut race)?;
/// ```
pub fn race_two<H, R, G1, G2, A>(
    home: &H,
    rt: &R,
    seat: &mut H::Seat,
    requests: &[Request],
    policy: Policy,
    gate1: G1,
    gate2: G2,
    race: &mut Race<A>,
) -> Result<(), WorkFault>
where
    H: Home + Sync,
    R: Threads + Wait + Sync,
    G1: Gate + Drop + Send,
    G2: Gate + Drop + Send,
    A: Allocator + Copy + Send,
    requires own { H.belongs home.now seat.old }
    requires all { H.held seat.old ≡ below (H.opening home.now).requesters }
    requires three { 3 ≤ (H.opening home.now).requesters }
    requires known { All (λ q. q.src ≤ 2) requests.now }
    ensures own { H.belongs home.now seat.new }
    ensures held { H.held seat.new ≡ H.held seat.old }
    ensures race { IsRaceRun result (H.opening home.now) policy (H.limit home.now) one_and_two requests.now
        (H.seen seat.old) (H.seen seat.new) (lines_of race.old) (lines_of race.new) }
{
    let Ok(mut team) = Vec::with_capacity(*race.zero.allocator(), 2) else {
        return race_of_any::unexecuted(requests);
    };
    let gate = MixedGate::<G1, G2, NoGate, NoGate>::One(gate1);
    team.push_reserved(Racer::taking(gate, &mut race.one));
    team.push_reserved(Racer::taking(MixedGate::Two(gate2), &mut race.two));
    let racers = team.as_mut_slice();
    let outcome = race_of_any::race(home, rt, seat, requests, policy, racers, &mut race.zero);
    mem::swap(&mut race.one, &mut racers[0].lines);
    mem::swap(&mut race.two, &mut racers[1].lines);
    outcome
}
