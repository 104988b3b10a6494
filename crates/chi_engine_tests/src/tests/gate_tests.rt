//! Gates that wait for each other: a RetryAck at a chosen moment.

use crate::tests::comparison::assert_same;
use crate::tests::scripts::{ADDS, SEVEN_ZEROS, script};
use chi_engine::{EngineFault, Options, Store, Workers, engine_race, engine_race_json};
use chi_history::{Gate, NoGate};
use chi_requester::Policy;
use std::alloc::AllocError;
use std::process::Abort;
use std::sync::Wait;
use std::sync::atomic::{AtomicU64, Ordering};
use std::test::Fail;
use std::thread::{Threads, sleep};
use std::time::{Clock, Duration};

// A second add by requester 2.
const SECOND_ADD_OF_TWO: &str =
    "{\"src\":2,\"txn\":3,\"op\":40,\"size\":3,\"addr\":4096,\"endian\":0,\"be\":255,\"lanes\":\"01000000000000000000000000000000\"}";

// How often each of two gates was paused, and how many of these pauses saw what they waited for.
#[derive(Drop)]
struct Pauses {
    one: AtomicU64,
    two: AtomicU64,
    met: AtomicU64,
}

impl Pauses {
    fn none() -> Pauses {
        Pauses {
            one: AtomicU64::new(0),
            two: AtomicU64::new(0),
            met: AtomicU64::new(0),
        }
    }

    // The gate of requester 1: its first pause waits for so many of the other's.
    fn gate_one<'a, C: Clock>(&'a self, clock: &'a C, first: u64) -> WaitingGate<'a, C> {
        WaitingGate {
            clock,
            own: &self.one,
            other: &self.two,
            met: &self.met,
            first,
        }
    }

    // The gate of requester 2.
    fn gate_two<'a, C: Clock>(&'a self, clock: &'a C, first: u64) -> WaitingGate<'a, C> {
        WaitingGate {
            clock,
            own: &self.two,
            other: &self.one,
            met: &self.met,
            first,
        }
    }
}

// A gate that at its first pause sleeps a millisecond a turn until the other was paused so often, for ten thousand
// turns at most. Its later pauses end at once.
#[derive(Drop)]
struct WaitingGate<'a, C> {
    clock: &'a C,
    own: &'a AtomicU64,
    other: &'a AtomicU64,
    met: &'a AtomicU64,
    first: u64,
}

impl<C: Clock> Gate for WaitingGate<'_, C> {
    fn pause(&mut self, _try_no: u8) {
        let before = self.own.fetch_add(1, Ordering::SeqCst);
        if before > 0 {
            return;
        }
        for _ in 0..10_000 {
            if self.other.load(Ordering::SeqCst) >= self.first {
                self.met.fetch_add(1, Ordering::SeqCst);
                return;
            }
            sleep(self.clock, Duration::from_millis(1));
        }
    }
}

// Races a text where the first gate waits for two pauses of the other, and tells how often a gate met its want.
fn raced_late<T: AllocGlobal + Clock + Threads + Wait + Sync>(
    rt: &T,
    store: Store,
    mut text: &[u8],
    to: &mut Vec<u8>,
) -> Result<u64, EngineFault> {
    let options = Options {
        store,
        policy: Policy::Return,
        workers: Workers::TWO,
    };
    let pauses = Pauses::none();
    let (one, two) = (pauses.gate_one(rt, 2), pauses.gate_two(rt, 1));
    engine_race(rt, &mut text, to, &options, one, two, NoGate, NoGate)?;
    Ok(pauses.met.load(Ordering::SeqCst))
}

// One add of 1 and two of 2, where the first waits at its gate until both of the others are over: the line of the first, and the
// bytes of the first granule after all three.
fn assert_late<T: AllocGlobal + Abort + Clock + Threads + Wait + Sync>(
    rt: &T,
    store: Store,
    reply: &str,
    first: &str,
) -> Result<(), Fail> {
    let text = script(rt, &[ADDS[0], ADDS[1], SECOND_ADD_OF_TWO])?;
    let want = format!(in rt.alloc();
        "1 1 28 AtomicStore.ADD 3 0000000000001000 {reply}
2 2 28 AtomicStore.ADD 3 0000000000001000 comp
2 3 28 AtomicStore.ADD 3 0000000000001000 comp
m 0000000000001000 {first}
{SEVEN_ZEROS}"
    )?;
    let mut to: Vec<u8> = Vec::new(rt.alloc());
    let met = raced_late(rt, store, text.as_bytes(), &mut to)?;
    assert_same(&rt, ("gates that met", met), ("gates that met", 2));
    assert_same(&rt, to.as_slice(), want.as_bytes());
    Ok(())
}

// Over the lock-free store the first add is lost and answered by a retry. The locked store completes all.
#[test]
fn one_retry_by_two_gates(rt: HostRuntime) -> Result<(), Fail> {
    assert_late(
        &rt,
        Store::Book { attempts: 1 },
        "retry",
        "0200000000000000",
    )?;
    assert_late(&rt, Store::Lock, "comp", "0300000000000000")
}

// The line of an add as JSON, with what became of it.
fn add_told(rt: &impl AllocGlobal, src: u8, txn: u8, outcome: &str) -> Result<String, AllocError> {
    format!(in rt.alloc();
        "{{\"addr\":4096,\"be\":255,\"endian\":0,\"lanes\":\"01000000000000000000000000000000\",\"name\":\"AtomicStore.ADD\",\
\"op\":40,{outcome},\"size\":3,\"src\":{src},\"txn\":{txn}}}"
    )
}

// What is written of these three as JSON, where the first is answered by a retry.
fn retry_told(rt: &impl AllocGlobal) -> Result<String, AllocError> {
    let first = add_told(rt, 1, 1, "\"retry\":true")?;
    let second = add_told(rt, 2, 2, "\"reply\":\"comp\"")?;
    let third = add_told(rt, 2, 3, "\"reply\":\"comp\"")?;
    let zero = "0000000000000000";
    format!(in rt.alloc();
        "{{\"base\":4096,\"final\":\"0200000000000000{zero}{zero}{zero}{zero}{zero}{zero}{zero}\",\"granules\":8,\"requests\":[{first},{second},{third}]}}"
    )
}

#[test]
fn one_retry_as_json(rt: HostRuntime) -> Result<(), Fail> {
    let text = script(&rt, &[ADDS[0], ADDS[1], SECOND_ADD_OF_TWO])?;
    let want = retry_told(&rt)?;
    let options = Options {
        store: Store::Book { attempts: 1 },
        policy: Policy::Return,
        workers: Workers::TWO,
    };
    let pauses = Pauses::none();
    let mut gates = Vec::new(rt.alloc());
    gates.push(pauses.gate_one(&rt, 2))?;
    gates.push(pauses.gate_two(&rt, 1))?;
    let mut to: Vec<u8> = Vec::new(rt.alloc());
    engine_race_json(&rt, &mut text.as_bytes(), &mut to, &options, gates)?;
    assert_same(&rt, to.as_slice(), want.as_bytes());
    Ok(())
}
