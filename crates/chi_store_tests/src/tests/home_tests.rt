//! Both stores by their calls: generic callers of a home, and two threads whose requests differ.

ghost use Rattle.std.specs.Prelude.{◌≡◌};
ghost use Rattle.chi_samples.specs.Opened.{IsOfEight};

use crate::tests::both_stores::{Call, call_on_both};
use crate::tests::comparison::assert_same;
use crate::tests::lockstore_tests::accepted;
use crate::tests::work_tests::pair_of;
use chi_fields::Request;
use chi_history::callers::{serve_alone, serve_apart, serve_until_done};
use chi_history::{Home, Line, NoGate};
use chi_lanes::Reply;
use chi_requester::{Policy, Race, race_two};
use chi_samples::plain_request;
use std::process::Abort;
use std::sync::Wait;
use std::test::Fail;
use std::thread::Threads;

const READ: u8 = 0x04;

const FETCH_ADD: u8 = 0x30;

const SWAP: u8 = 0x38;

// A data packet with this byte in the first lane of an operand of eight bytes there.
fn lanes_of(addr: u64, first: u8) -> [u8; 16] {
    let mut lanes = [0; 16];
    lanes[if addr % 16 < 8 { 0 } else { 8 }] = first;
    lanes
}

// A request of eight bytes, of which the first is this and the others are 0.
fn request(src: u8, opcode: u8, addr: u64, first: u8) -> Request
    ensures { result.src ≡ src }
{
    let window = if addr % 16 < 8 { 0x00ff } else { 0xff00 };
    Request {
        src,
        txn: 1,
        ..plain_request(opcode, 3, addr, window, lanes_of(addr, first))
    }
}

// Adds 5 and then 2 by requester 0, and then swaps by 1 and reads by 2, each with a seat of its own: the replies in
// this order are right, and so are the words after them.
pub(crate) fn assert_callers<H: Home, T: Abort + Wait>(rt: &T, home: &H, seat: &mut H::Seat)
    requires opened { IsOfEight (H.belongs home.now seat.old) (H.held seat.old) (H.opening home.now) }
{
    let region = home.region();
    let five = accepted(rt, &request(0, FETCH_ADD, 0x1000, 5), &region);
    let two = accepted(rt, &request(0, FETCH_ADD, 0x1000, 2), &region);
    let swap = accepted(rt, &request(1, SWAP, 0x1008, 0x11), &region);
    let read = accepted(rt, &request(2, READ, 0x1000, 0), &region);
    let first = serve_alone(home, rt, seat, 0, &five);
    let second = serve_until_done(home, rt, seat, 0, &two);
    let mut words = [0; 8];
    let (swapped, seen) = serve_apart(home, rt, seat, 1, &swap, 2, &read, &mut words);
    assert_same(
        &rt,
        ([first, second, swapped, seen], words),
        (
            [
                Reply::CompData(lanes_of(0x1000, 0)),
                Reply::CompData(lanes_of(0x1000, 5)),
                Reply::CompData(lanes_of(0x1008, 0)),
                Reply::CompData(lanes_of(0x1000, 7)),
            ],
            [7, 0x11, 0, 0, 0, 0, 0, 0],
        ),
    );
}

#[test]
fn callers_of_both_stores(rt: HostRuntime) -> Result<(), Fail> {
    call_on_both(&rt, &[0; 8], Call::Callers)
}

// The line of a request that returned this byte.
fn done(request: Request, first: u8) -> Line {
    Line::Completed(request, Reply::CompData(lanes_of(request.addr, first)))
}

// Requesters 1 and 2 each swap a value of their own into a granule of their own, at the same time, and read it
// back; 0 then reads both.
pub(crate) fn assert_own_lines<H: Home + Sync, T: AllocGlobal + Abort + Threads + Wait + Sync>(
    rt: &T,
    home: &H,
    seat: &mut H::Seat,
)
    requires opened { IsOfEight (H.belongs home.now seat.old) (H.held seat.old) (H.opening home.now) }
{
    let requests = [
        request(0, READ, 0x1000, 0),
        request(0, READ, 0x1008, 0),
        request(1, SWAP, 0x1000, 0x11),
        request(2, SWAP, 0x1008, 0x22),
        request(1, READ, 0x1000, 0),
        request(2, READ, 0x1008, 0),
    ];
    let mut race = Race::new(rt.alloc());
    let outcome = race_two(
        home,
        rt,
        seat,
        &requests,
        Policy::Resend,
        NoGate,
        NoGate,
        &mut race,
    );
    let found = [
        pair_of(race.one.as_slice()),
        pair_of(race.two.as_slice()),
        pair_of(race.zero.as_slice()),
    ];
    let want = [
        Some([done(requests[2], 0), done(requests[4], 0x11)]),
        Some([done(requests[3], 0), done(requests[5], 0x22)]),
        Some([done(requests[0], 0x11), done(requests[1], 0x22)]),
    ];
    let mut words = [0; 8];
    home.snapshot(rt, seat, &mut words);
    assert_same(
        &rt,
        (outcome.is_ok(), found, words),
        (true, want, [0x11, 0x22, 0, 0, 0, 0, 0, 0]),
    );
}

#[test]
fn two_threads_of_one_store(rt: HostRuntime) -> Result<(), Fail> {
    call_on_both(&rt, &[0; 8], Call::OwnLines)
}
