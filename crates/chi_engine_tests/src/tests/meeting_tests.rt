//! Gates that wait for one another: two, four and seven workers at once by the engine, and two and four by call.

ghost use Rattle.std.specs.Prelude.{◌≡◌, ◌<◌, ◌≤◌};
ghost use Rattle.chi_history.specs.NumberSets.{below};

use crate::tests::comparison::assert_same;
use crate::tests::scripts::{ADDS, script, stores_of};
use chi_bookstore::BookStore;
use chi_engine::{engine_race, engine_race_gated};
use chi_fields::{Region, Request};
use chi_history::{Gate, Home};
use chi_lockstore::LockStore;
use chi_requester::{Policy, Race, RaceFour, race_four, race_two};
use std::process::Abort;
use std::sync::Wait;
use std::sync::atomic::{AtomicU64, Ordering};
use std::test::Fail;
use std::thread::{Threads, sleep};
use std::time::{Clock, Duration};

// How many gates were paused for the first time, and how many of these saw all of them paused.
#[derive(Drop)]
struct Meeting {
    paused: AtomicU64,
    met: AtomicU64,
}

impl Meeting {
    fn new() -> Meeting {
        Meeting {
            paused: AtomicU64::new(0),
            met: AtomicU64::new(0),
        }
    }

    // A gate of so many.
    fn gate<'a, C: Clock>(&'a self, clock: &'a C, gates: u64) -> MeetingGate<'a, C> {
        MeetingGate {
            clock,
            meeting: self,
            gates,
            is_first: true,
        }
    }

    fn assert_met<T: Abort>(&self, rt: &T, gates: u64) {
        assert_same(
            rt,
            ("gates that met", self.met.load(Ordering::SeqCst)),
            ("gates that met", gates),
        );
    }
}

// A gate that at its first pause sleeps a millisecond a turn until all gates were paused, for ten thousand turns at
// most. Its later pauses end at once.
#[derive(Drop)]
struct MeetingGate<'a, C> {
    clock: &'a C,
    meeting: &'a Meeting,
    gates: u64,
    is_first: bool,
}

impl<C: Clock> Gate for MeetingGate<'_, C> {
    fn pause(&mut self, _try_no: u8) {
        if !self.is_first {
            return;
        }
        self.is_first = false;
        self.meeting.paused.fetch_add(1, Ordering::SeqCst);
        for _ in 0..10_000 {
            if self.meeting.paused.load(Ordering::SeqCst) >= self.gates {
                self.meeting.met.fetch_add(1, Ordering::SeqCst);
                return;
            }
            sleep(self.clock, Duration::from_millis(1));
        }
    }
}

// Races a script of one add for each worker over both stores, with the four gates of two or four workers, which wait
// for all of these.
fn assert_engine_meets<T: AllocGlobal + Abort + Clock + Threads + Wait + Sync>(
    rt: &T,
    workers: u8,
    requests: &[&str],
) -> Result<(), Fail> {
    let text = script(rt, requests)?;
    let gates = u64::from(workers);
    for options in &stores_of(rt, workers) {
        let meeting = Meeting::new();
        let mut to: Vec<u8> = Vec::new(rt.alloc());
        engine_race(
            rt,
            &mut text.as_bytes(),
            &mut to,
            options,
            meeting.gate(rt, gates),
            meeting.gate(rt, gates),
            meeting.gate(rt, gates),
            meeting.gate(rt, gates),
        )?;
        meeting.assert_met(rt, gates);
    }
    Ok(())
}

#[test]
fn gates_meet(rt: HostRuntime) -> Result<(), Fail> {
    assert_engine_meets(&rt, 2, &ADDS[..2])
}

#[test]
fn gates_meet_of_four(rt: HostRuntime) -> Result<(), Fail> {
    assert_engine_meets(&rt, 4, &ADDS[..4])
}

// Races the adds of 1 to 7 over both stores, with so many gates, which wait for all of these. The further workers have
// none, and gates past the seventh are not used.
fn assert_seven_meet<T: AllocGlobal + Abort + Clock + Threads + Wait + Sync>(
    rt: &T,
    gates: u64,
) -> Result<(), Fail> {
    let text = script(rt, &ADDS)?;
    let used = gates.min(7);
    for options in &stores_of(rt, 7) {
        let meeting = Meeting::new();
        let mut all = Vec::new(rt.alloc());
        for _ in 0..gates {
            all.push(meeting.gate(rt, used))?;
        }
        let mut to: Vec<u8> = Vec::new(rt.alloc());
        engine_race_gated(rt, &mut text.as_bytes(), &mut to, options, all)?;
        meeting.assert_met(rt, used);
    }
    Ok(())
}

#[test]
fn gates_meet_of_seven(rt: HostRuntime) -> Result<(), Fail> {
    for gates in [7, 3, 9] {
        assert_seven_meet(&rt, gates)?;
    }
    Ok(())
}

// An add of 1 to the first eight bytes.
fn add(src: u8) -> Request
    ensures { result.src ≡ src }
{
    let mut lanes = [0; 16];
    lanes[0] = 1;
    Request {
        src,
        txn: src,
        opcode: 0x28,
        size: 3,
        addr: 0x1000,
        endian: false,
        be: 0x00ff,
        lanes,
    }
}

// Two or four over a home.
fn assert_race_meets<H: Home + Sync, T: AllocGlobal + Abort + Clock + Threads + Wait + Sync>(
    rt: &T,
    home: &H,
    seat: &mut H::Seat,
    workers: u64,
) -> Result<(), Fail>
    requires own { H.belongs home.now seat.old }
    requires all { H.held seat.old ≡ below (H.opening home.now).requesters }
    requires two { 2 ≤ workers }
    requires room { workers < (H.opening home.now).requesters }
{
    let meeting = Meeting::new();
    let (gate1, gate2) = (meeting.gate(rt, workers), meeting.gate(rt, workers));
    let policy = Policy::Resend;
    if workers < 4 {
        let mut race = Race::new(rt.alloc());
        let requests = [add(1), add(2)];
        race_two(home, rt, seat, &requests, policy, gate1, gate2, &mut race)?;
    } else {
        let mut race = RaceFour::new(rt.alloc());
        let requests = [add(1), add(2), add(3), add(4)];
        let (gate3, gate4) = (meeting.gate(rt, workers), meeting.gate(rt, workers));
        race_four(
            home, rt, seat, &requests, policy, gate1, gate2, gate3, gate4, &mut race,
        )?;
    }
    meeting.assert_met(rt, workers);
    Ok(())
}

// Two or four over both stores, each of which is opened for 0 and just the workers.
fn assert_both_meet<T: AllocGlobal + Abort + Clock + Threads + Wait + Sync>(
    rt: &T,
    workers: u8,
) -> Result<(), Fail>
    requires two { 2 ≤ workers }
    requires room { workers < 8 }
{
    let region = Region::new(0x1000, 8)?;
    let requesters = workers + 1;
    let (home, mut seat) = LockStore::open(rt.alloc(), region, requesters, &[0; 8])?;
    assert_race_meets(rt, &home, &mut seat, u64::from(workers))?;
    let (home, mut seat) = BookStore::open(rt.alloc(), region, requesters, 4, &[0; 8])?;
    assert_race_meets(rt, &home, &mut seat, u64::from(workers))
}

#[test]
fn gates_meet_by_race_two(rt: HostRuntime) -> Result<(), Fail> {
    assert_both_meet(&rt, 2)
}

#[test]
fn gates_meet_by_race_four(rt: HostRuntime) -> Result<(), Fail> {
    assert_both_meet(&rt, 4)
}
