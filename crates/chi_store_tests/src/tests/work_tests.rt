//! Requesters' work over a store: two or four at once, one that skips the others, and all in their order.

ghost use Rattle.std.specs.Prelude.{◌≡◌};
ghost use Rattle.chi_samples.specs.Opened.{IsOfEight};

use crate::tests::both_stores::{Call, call_on_both};
use crate::tests::comparison::assert_same;
use chi_fields::Request;
use chi_history::{Home, Line, NoGate};
use chi_lanes::Reply;
use chi_requester::{Policy, run_serial, work};
use chi_samples::{plain_request, race_adding};
use std::process::Abort;
use std::sync::Wait;
use std::test::Fail;
use std::thread::Threads;

// How many of the lines are completions.
fn completed(lines: &[Line]) -> usize {
    lines
        .iter()
        .filter(|line| matches!(line, Line::Completed(_, _)))
        .count()
}

// The lines, where they are two.
pub(crate) fn pair_of(lines: &[Line]) -> Option<[Line; 2]> {
    match lines {
        [first, second] => Some([*first, *second]),
        _ => None,
    }
}

// Races a thousand adds by each of 1 and 2, or of 1 to 4, over a home: each did its own, and they have this sum.
pub(crate) fn assert_adds<H: Home + Sync, T: AllocGlobal + Abort + Threads + Wait + Sync>(
    rt: &T,
    home: &H,
    seat: &mut H::Seat,
    are_four: bool,
) -> Result<(), Fail>
    requires opened { IsOfEight (H.belongs home.now seat.old) (H.held seat.old) (H.opening home.now) }
{
    let raced = race_adding(rt, home, seat, are_four, 1000, rt.alloc())?;
    let [one, two, three, four] = &raced.workers;
    let done = [
        completed(one.as_slice()),
        completed(two.as_slice()),
        completed(three.as_slice()),
        completed(four.as_slice()),
    ];
    let holds_all = home.holds_all(seat);
    let mut words = [0; 8];
    home.snapshot(rt, seat, &mut words);
    let (more, sum) = if are_four { (1000, 4000) } else { (0, 2000) };
    assert_same(
        &rt,
        (raced.is_done, raced.zero.len(), done, holds_all, words),
        (
            true,
            0,
            [1000, 1000, more, more],
            true,
            [sum, 0, 0, 0, 0, 0, 0, 0],
        ),
    );
    Ok(())
}

#[test]
fn two_workers_add_a_thousand_each(rt: HostRuntime) -> Result<(), Fail> {
    call_on_both(&rt, &[0; 8], Call::TwoWorkers)
}

#[test]
fn four_workers(rt: HostRuntime) -> Result<(), Fail> {
    call_on_both(&rt, &[0; 8], Call::FourWorkers)
}

// A write of eight bytes at 0x1000 with these byte enables.
fn write(src: u8, be: u16) -> Request
    ensures { result.src ≡ src }
{
    let bytes = [0xa0, 0xa1, 0xa2, 0xa3, 0xa4, 0xa5, 0xa6, 0xa7];
    let mut lanes = [0; 16];
    lanes[..8].copy_from_slice(&bytes);
    Request {
        src,
        ..plain_request(0x1c, 3, 0x1000, be, lanes)
    }
}

// A write of no byte by requester 0, one by another, and one of two bytes by 0. The work of 0 skips the other's; without it all
// are executed in the order of the slice. Both requests of 0 are completed, and two bytes are written.
pub(crate) fn assert_two_bytes_written<H: Home, T: AllocGlobal + Abort + Wait>(
    rt: &T,
    home: &H,
    seat: &mut H::Seat,
    is_serial: bool,
)
    requires opened { IsOfEight (H.belongs home.now seat.old) (H.held seat.old) (H.opening home.now) }
{
    let (first, other, last) = (write(0, 0x0000), write(1, 0x00ff), write(0, 0x0042));
    let policy = Policy::Resend;
    let mut lines = Vec::new(rt.alloc());
    let outcome = if is_serial {
        run_serial(home, rt, seat, &[first, last], policy, &mut lines)
    } else {
        let requests = [first, other, last];
        work(
            home,
            rt,
            seat,
            0,
            &requests,
            policy,
            &mut NoGate,
            &mut lines,
        )
    };
    let mut words = [0; 8];
    home.snapshot(rt, seat, &mut words);
    let want = [first, last].map(|request| Line::Completed(request, Reply::Comp));
    let written = u64::from_le_bytes([0x00, 0xa1, 0, 0, 0, 0, 0xa6, 0]);
    assert_same(
        &rt,
        (outcome.is_ok(), pair_of(lines.as_slice()), words),
        (true, Some(want), [written, 0, 0, 0, 0, 0, 0, 0]),
    );
}

#[test]
fn work_skips_other_requesters(rt: HostRuntime) -> Result<(), Fail> {
    call_on_both(&rt, &[0; 8], Call::OtherSkipped)
}

#[test]
fn write_of_no_bytes_then_two_by_run_serial(rt: HostRuntime) -> Result<(), Fail> {
    call_on_both(&rt, &[0; 8], Call::TwoBytes)
}
