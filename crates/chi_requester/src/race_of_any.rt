//! Up to seven requesters who work at the same time, and 0 after them.

ghost use Rattle.std.specs.Prelude.{◌≡◌, ◌≢◌, ◌+◌, ◌<◌, ◌≤◌, ℕ, suc, true, List, [], length, map, All, IfErr, OnOk};
ghost use Rattle.chi_fields.specs.declared.request.Request.{Request};
ghost use Rattle.chi_history.specs.declared.entry.Entry.{Entry};
ghost use Rattle.chi_history.specs.declared.line.Line.{Line};
ghost use Rattle.chi_history.specs.NumberSets.{below, union};
ghost use Rattle.chi_requester.specs.declared.policy.Policy.{Policy};
ghost use Rattle.chi_requester.specs.Race.{IsRaceRun, lines_of_all};
ghost use Rattle.chi_requester.specs.Team.{AreReady, AreSeated, HaveRaced, HasRaced, IsReady, IsSeated, IsTeamRun, lines_in, one_to, without_to};

use crate::fault::WorkFault;
use crate::policy::Policy;
use crate::requester_work::work;
use chi_fields::Request;
use chi_history::{Gate, Home, Line, NoGate};
use std::alloc::Allocator;
use std::sync::Wait;
use std::thread::Threads;
use std::{mem, thread};

// A home has eight requesters at most, and 0 is none of those who work at the same time.
const MOST_RACERS: usize = 7;

/// A requester of a race: the gate that it works by, and the lines of its requests.
#[derive(Drop)]
pub struct Racer<S, G, A: Allocator> {
    gate: G,
    pub lines: Vec<Line, A>,
    seat: Option<S>,
    outcome: Result<(), WorkFault>,
}

impl<S, G, A: Allocator> Racer<S, G, A> {
    /// A requester by its gate and its lines so far. It takes no memory.
    ///
    /// ```
    /// let mut racers = [Racer::new(NoGate, Vec::new(rt.alloc())), Racer::new(NoGate, Vec::new(rt.alloc()))];
    /// ```
    pub fn new(gate: G, lines: Vec<Line, A>) -> Racer<S, G, A>
        ensures { result.lines ≡ lines }
    {
        Racer {
            gate,
            lines,
            seat: None,
            outcome: Ok(()),
        }
    }
}

impl<S, G, A: Allocator + Copy> Racer<S, G, A> {
    // A requester by its gate, who takes these lines so far.
    pub(crate) fn taking(gate: G, lines: &mut Vec<Line, A>) -> Racer<S, G, A>
        ensures { result.lines ≡ lines.old }
    {
        let alloc = *lines.allocator();
        Racer::new(gate, mem::replace(lines, Vec::new(alloc)))
    }
}

// What is answered where there is no memory for the racers: no request is executed.
pub(crate) fn unexecuted(requests: &[Request]) -> Result<(), WorkFault>
    ensures none { OnOk result (requests.now ≡ []) }
    ensures some { IfErr result (λ _. requests.now ≢ []) }
{
    if requests.is_empty() {
        Ok(())
    } else {
        Err(WorkFault::Memory)
    }
}

// Splits a seat off for each racer: the first is the requester 1.
fn seat_all<H: Home, R: Wait, G, A: Allocator>(
    home: &H,
    rt: &R,
    seat: &mut H::Seat,
    racers: &mut [Racer<H::Seat, G, A>],
)
    requires own { H.belongs home.now seat.old }
    requires all { H.held seat.old ≡ below (H.opening home.now).requesters }
    requires room { length racers.old + 1 ≤ (H.opening home.now).requesters }
    requires few { length racers.old < 8 }
    ensures own { H.belongs home.now seat.new }
    ensures rest { H.held seat.new ≡ without_to (length racers.old) (H.held seat.old) }
    ensures seen { H.seen seat.new ≡ H.seen seat.old }
    ensures seated { AreSeated (H.belongs home.now) H.held H.seen (H.seen seat.old) racers.new }
    ensures lines { map lines_in racers.new ≡ map lines_in racers.old }
{
    for (i, racer) in racers.iter_mut().enumerate() {
        racer.seat = Some(home.split(rt, seat, i as u8 + 1));
    }
}

// Executes the requests of the racer at this index by its seat and its gate.
fn work_racer<H: Home, R: Wait, G: Gate, A: Allocator>(
    home: &H,
    rt: &R,
    index: usize,
    racer: &mut Racer<H::Seat, G, A>,
    requests: &[Request],
    policy: Policy,
)
    requires few { index < 7 }
    requires ready { IsReady (H.belongs home.now) H.held (suc index) racer.old }
    ensures { (start : List Entry) → IsSeated (H.belongs home.now) H.held H.seen start (suc index) racer.old
        → HasRaced (H.belongs home.now) H.held H.seen (H.opening home.now) policy (H.limit home.now) requests.now start
        (suc index) racer.old.lines.items racer.new }
{
    if let Some(seat) = &mut racer.seat {
        let src = index as u8 + 1;
        let outcome = work(
            home,
            rt,
            seat,
            src,
            requests,
            policy,
            &mut racer.gate,
            &mut racer.lines,
        );
        racer.outcome = outcome;
    }
}

// Takes the seats of the racers back.
fn take_back<H: Home, R: Wait, G, A: Allocator>(
    home: &H,
    rt: &R,
    seat: &mut H::Seat,
    racers: &mut [Racer<H::Seat, G, A>],
) -> Result<(), WorkFault>
    requires own { H.belongs home.now seat.old }
    requires zero { H.held seat.old 0 ≡ true }
    requires ready { AreReady (H.belongs home.now) H.held racers.old }
    ensures own { H.belongs home.now seat.new }
    ensures held { H.held seat.new ≡ union (H.held seat.old) (one_to (length racers.old)) }
    ensures lines { map lines_in racers.new ≡ map lines_in racers.old }
    ensures team { (policy : Policy) (all : List Request) (zero : List Line) (lines : ℕ → List Line)
        → HaveRaced (H.belongs home.now) H.held H.seen (H.opening home.now) policy (H.limit home.now) all (H.seen seat.old) lines racers.old
        → IsTeamRun result (H.opening home.now) policy (H.limit home.now) all (H.held seat.old) (one_to (length racers.old)) (H.held seat.new)
        (H.seen seat.old) (H.seen seat.new) lines (lines_of_all zero racers.old) }
{
    let mut outcome = Ok(());
    for racer in racers.iter_mut() {
        if let Some(own) = racer.seat.take() {
            home.rejoin(rt, seat, own);
        }
        outcome = outcome.and(racer.outcome);
    }
    outcome
}

/// Executes the requests of 1 and up, one requester for each racer, at the same time, each by a seat and a gate of its
/// own, and then those of 0, by a seat that holds every number.
///
/// After RetryAck `Resend` sends the request again on its credit, and `Return` gives the credit back and leaves
/// the request. To 0 RetryAck never comes.
///
/// Where a thread cannot be started, its requests are executed in another's or the caller's. Where a racer stops by
/// `Memory`, the others work to their end, the requests of 0 are not executed, and `Memory` is answered. The lines so
/// far stay, and the seat holds every number again.
///
/// ```
/// race(&home, rt, &mut seat, script.requests(), Policy::Return, &mut racers, &mut zero)?;
/// ```
pub fn race<H, R, G, A>(
    home: &H,
    rt: &R,
    seat: &mut H::Seat,
    requests: &[Request],
    policy: Policy,
    racers: &mut [Racer<H::Seat, G, A>],
    zero: &mut Vec<Line, A>,
) -> Result<(), WorkFault>
where
    H: Home + Sync,
    R: Threads + Wait + Sync,
    G: Gate + Drop + Send,
    A: Allocator + Copy + Send,
    requires own { H.belongs home.now seat.old }
    requires all { H.held seat.old ≡ below (H.opening home.now).requesters }
    requires room { length racers.old + 1 ≤ (H.opening home.now).requesters }
    requires few { length racers.old < 8 }
    requires known { All (λ q. q.src ≤ length racers.old) requests.now }
    ensures own { H.belongs home.now seat.new }
    ensures held { H.held seat.new ≡ H.held seat.old }
    ensures race { IsRaceRun result (H.opening home.now) policy (H.limit home.now) (one_to (length racers.old)) requests.now
        (H.seen seat.old) (H.seen seat.new) (lines_of_all zero.old.items racers.old) (lines_of_all zero.new.items racers.new) }
{
    seat_all(home, rt, seat, racers);
    thread::for_each_mut(
        rt,
        racers,
        MOST_RACERS,
        &|index, racer: &mut Racer<H::Seat, G, A>|
            requires few { index < 7 }
            requires ready { IsReady (H.belongs home.now) H.held (suc index) racer.old }
            ensures { (start : List Entry) → IsSeated (H.belongs home.entry.now) H.held H.seen start (suc index) racer.old
                → HasRaced (H.belongs home.entry.now) H.held H.seen (H.opening home.entry.now) policy (H.limit home.entry.now) requests.entry.now start
                (suc index) racer.old.lines.items racer.new }
        { work_racer(home, rt, index, racer, requests, policy) },
    );
    take_back(home, rt, seat, racers)?;
    work(home, rt, seat, 0, requests, policy, &mut NoGate, zero)
}
