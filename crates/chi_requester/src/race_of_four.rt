//! Four requesters who work at the same time, and 0 after them.

ghost use Rattle.std.specs.Prelude.{◌≡◌, ◌≤◌, [], All};
ghost use Rattle.chi_history.specs.NumberSets.{below};
ghost use Rattle.chi_requester.specs.Race.{IsRaceRun, lines_of_four, one_to_four};

use crate::fault::WorkFault;
use crate::mixed_gate::MixedGate;
use crate::policy::Policy;
use crate::race_of_any::{self, Racer};
use chi_fields::Request;
use chi_history::{Gate, Home, Line, NoGate};
use std::alloc::Allocator;
use std::mem;
use std::sync::Wait;
use std::thread::Threads;

/// The lines of the requesters 1 to 4, who work at the same time, and of 0, who works after them.
#[derive(Drop)]
pub struct RaceFour<A: Allocator> {
    pub one: Vec<Line, A>,
    pub two: Vec<Line, A>,
    pub three: Vec<Line, A>,
    pub four: Vec<Line, A>,
    pub zero: Vec<Line, A>,
}

impl<A: Allocator + Copy> RaceFour<A> {
    /// A race of which no line is reported yet. It takes no memory.
    ///
    /// ```
    /// let mut race = RaceFour::new(rt.alloc());
    /// ```
    pub fn new(alloc: A) -> RaceFour<A>
        ensures { lines_of_four result ≡ (λ r. []) }
    {
        RaceFour {
            one: Vec::new(alloc),
            two: Vec::new(alloc),
            three: Vec::new(alloc),
            four: Vec::new(alloc),
            zero: Vec::new(alloc),
        }
    }
}

/// Executes the requests of 1 to 4 at the same time, each by a seat and a gate of its own, and then those of 0, by
/// a seat that holds every number.
///
/// After RetryAck `Resend` sends the request again on its credit, and `Return` gives the credit back and leaves
/// the request. To 0 RetryAck never comes.
///
/// Where a thread cannot be started, its requests are executed in the caller's. Where one of 1 to 4 stops by `Memory`,
/// the others work to their end, the requests of 0 are not executed, and `Memory` is answered. So it is, and no
/// request is executed, where there is no memory for the four themselves. The lines so far stay, and the seat holds
/// every number again.
///
/// ```
/// race_four(&home, rt, &mut seat, script.requests(), Policy::Return, NoGate, NoGate, NoGate, NoGate, &mut race)?;
/// ```
pub fn race_four<H, R, G1, G2, G3, G4, A>(
    home: &H,
    rt: &R,
    seat: &mut H::Seat,
    requests: &[Request],
    policy: Policy,
    gate1: G1,
    gate2: G2,
    gate3: G3,
    gate4: G4,
    race: &mut RaceFour<A>,
) -> Result<(), WorkFault>
where
    H: Home + Sync,
    R: Threads + Wait + Sync,
    G1: Gate + Drop + Send,
    G2: Gate + Drop + Send,
    G3: Gate + Drop + Send,
    G4: Gate + Drop + Send,
    A: Allocator + Copy + Send,
    requires own { H.belongs home.now seat.old }
    requires all { H.held seat.old ≡ below (H.opening home.now).requesters }
    requires five { 5 ≤ (H.opening home.now).requesters }
    requires known { All (λ q. q.src ≤ 4) requests.now }
    ensures own { H.belongs home.now seat.new }
    ensures held { H.held seat.new ≡ H.held seat.old }
    ensures race { IsRaceRun result (H.opening home.now) policy (H.limit home.now) one_to_four requests.now
        (H.seen seat.old) (H.seen seat.new) (lines_of_four race.old) (lines_of_four race.new) }
{
    let Ok(mut team) = Vec::with_capacity(*race.zero.allocator(), 4) else {
        return race_of_any::unexecuted(requests);
    };
    team.push_reserved(Racer::taking(MixedGate::One(gate1), &mut race.one));
    team.push_reserved(Racer::taking(MixedGate::Two(gate2), &mut race.two));
    team.push_reserved(Racer::taking(MixedGate::Three(gate3), &mut race.three));
    team.push_reserved(Racer::taking(MixedGate::Four(gate4), &mut race.four));
    let racers = team.as_mut_slice();
    let outcome = race_of_any::race(home, rt, seat, requests, policy, racers, &mut race.zero);
    mem::swap(&mut race.one, &mut racers[0].lines);
    mem::swap(&mut race.two, &mut racers[1].lines);
    mem::swap(&mut race.three, &mut racers[2].lines);
    mem::swap(&mut race.four, &mut racers[3].lines);
    outcome
}
