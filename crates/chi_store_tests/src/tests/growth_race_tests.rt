//! Each growth refused in turn in a race of two or of four.

ghost use Rattle.chi_samples.specs.Opened.{IsOfEight};

use crate::tests::comparison::assert_same;
use crate::tests::growth_tests::{Call, call_in_turn};
use crate::tests::growth_work_tests::add;
use crate::tests::refusing_allocator::Refusing;
use chi_history::{Home, Line};
use chi_lanes::Reply;
use chi_samples::{STORE_ADD, race_adding};
use std::alloc::Allocator;
use std::process::Abort;
use std::sync::Wait;
use std::test::Fail;
use std::thread::Threads;

// How many requests each requester has.
const EACH: u8 = 10;

// How many of a requester's additions the lines report: the first of them, in order of their identifiers, each
// completed once, at most after a RetryAck.
fn reported(src: u8, lines: &[Line]) -> Option<u8> {
    let mut done = 0u8;
    let mut is_retried = false;
    for line in lines {
        let next = add(STORE_ADD, src, done.saturating_add(1));
        if *line == Line::Completed(next, Reply::Comp) {
            done = done.saturating_add(1);
            is_retried = false;
        } else if *line == Line::Retried(next) && !is_retried {
            is_retried = true;
        } else {
            return None;
        }
    }
    if is_retried || done > EACH {
        return None;
    }
    Some(done)
}

// How many additions each of the requesters from 1 on did, by their lines.
fn additions_done<T: Abort, A: Allocator>(rt: &T, workers: &[Vec<Line, A>; 4]) -> [u8; 4] {
    let [one, two, three, four] = workers;
    [(1, one), (2, two), (3, three), (4, four)].map(|(src, lines)| {
        reported(src, lines.as_slice()).expect(rt, "the lines report the first additions")
    })
}

// Races the additions, and answers whether a growth was refused. The words are the sum of the additions that the lines report, 0
// has no line, the seat holds all, and a growth was refused unless all were done.
pub(crate) fn race_ten<H: Home + Sync, T: AllocGlobal + Abort + Threads + Wait + Sync>(
    rt: &T,
    home: &H,
    seat: &mut H::Seat,
    are_four: bool,
    number: u64,
) -> Result<bool, Fail>
    requires opened { IsOfEight (H.belongs home.now seat.old) (H.held seat.old) (H.opening home.now) }
{
    let alloc = Refusing::new(rt.alloc(), number);
    let raced = race_adding(rt, home, seat, are_four, u16::from(EACH), &alloc)?;
    let done = additions_done(rt, &raced.workers);
    let sum = done
        .iter()
        .fold(0u64, |sum, done| sum.saturating_add(u64::from(*done)));
    let holds_all = home.holds_all(seat);
    let mut words = [0; 8];
    home.snapshot(rt, seat, &mut words);
    assert_same(
        &rt,
        (words, raced.zero.len(), holds_all),
        ([sum, 0, 0, 0, 0, 0, 0, 0], 0, true),
    );
    let more = if are_four { EACH } else { 0 };
    let has_refused = alloc.has_refused();
    assert!(rt;
        if raced.is_done {
            done == [EACH, EACH, more, more]
        } else {
            has_refused
        }
    );
    Ok(has_refused)
}

#[test]
fn growth_refused_in_race(rt: HostRuntime) -> Result<(), Fail> {
    call_in_turn(&rt, Call::RaceOfTwo)
}

#[test]
fn growth_refused_in_race_of_four(rt: HostRuntime) -> Result<(), Fail> {
    call_in_turn(&rt, Call::RaceOfFour)
}
