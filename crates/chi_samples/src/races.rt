//! Races of additions over a home.

ghost use Rattle.chi_samples.specs.Opened.{IsOfEight};

use crate::scripts::additions;
use chi_history::{Home, Line, NoGate};
use chi_requester::{Policy, Race, RaceFour, race_four, race_two};
use std::alloc::Allocator;
use std::sync::Wait;
use std::test::Fail;
use std::thread::Threads;

/// The opcode of an addition that answers no data.
pub const STORE_ADD: u8 = 0x28;

/// What a race did: whether all requests were worked, and the lines of 0 and of 1 to 4.
#[derive(Drop)]
pub struct Raced<A: Allocator> {
    pub is_done: bool,
    pub zero: Vec<Line, A>,
    pub workers: [Vec<Line, A>; 4],
}

/// Races so many additions by each of 1 and 2, or of 1 to 4, with the lines in this memory.
///
/// ```
/// let raced = race_adding(&rt, &home, &mut seat, true, 1000, rt.alloc())?;
/// ```
pub fn race_adding<
    H: Home + Sync,
    T: AllocGlobal + Threads + Wait + Sync,
    A: Allocator + Copy + Send,
>(
    rt: &T,
    home: &H,
    seat: &mut H::Seat,
    are_four: bool,
    each: u16,
    alloc: A,
) -> Result<Raced<A>, Fail>
    requires opened { IsOfEight (H.belongs home.now seat.old) (H.held seat.old) (H.opening home.now) }
    ensures opened { IsOfEight (H.belongs home.now seat.new) (H.held seat.new) (H.opening home.now) }
{
    let policy = Policy::Resend;
    if are_four {
        let script = additions(rt, STORE_ADD, &[1, 2, 3, 4], each, 4)?;
        let requests = script.requests();
        let mut race = RaceFour::new(alloc);
        let outcome = race_four(
            home, rt, seat, requests, policy, NoGate, NoGate, NoGate, NoGate, &mut race,
        );
        return Ok(Raced {
            is_done: outcome.is_ok(),
            zero: race.zero,
            workers: [race.one, race.two, race.three, race.four],
        });
    }
    let script = additions(rt, STORE_ADD, &[1, 2], each, 2)?;
    let requests = script.requests();
    let mut race = Race::new(alloc);
    let outcome = race_two(home, rt, seat, requests, policy, NoGate, NoGate, &mut race);
    Ok(Raced {
        is_done: outcome.is_ok(),
        zero: race.zero,
        workers: [race.one, race.two, Vec::new(alloc), Vec::new(alloc)],
    })
}
