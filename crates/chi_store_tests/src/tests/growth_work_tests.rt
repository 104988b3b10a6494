//! Each growth refused in turn in work and in serial work.

ghost use Rattle.std.specs.Prelude.{◌≡◌};
ghost use Rattle.chi_samples.specs.Opened.{IsOfEight};

use crate::tests::comparison::assert_same;
use crate::tests::growth_tests::{Call, call_in_turn};
use crate::tests::refusing_allocator::Refusing;
use chi_fields::Request;
use chi_history::{Home, Line, NoGate};
use chi_lanes::Reply;
use chi_requester::{Policy, run_serial, work};
use chi_samples::{first_lane, plain_request};
use std::alloc::Allocator;
use std::process::Abort;
use std::sync::Wait;
use std::test::Fail;

pub(crate) const FETCH_ADD: u8 = 0x30;

// An addition of 1 to the first eight bytes.
pub(crate) fn add(opcode: u8, src: u8, txn: u8) -> Request
    ensures { result.src ≡ src }
{
    Request {
        src,
        txn,
        ..plain_request(opcode, 3, 0x1000, 0x00ff, first_lane(1))
    }
}

// Asserts that the lines are the first of those of three fetch-adds, that as many were done, that the seat holds all,
// and that a growth was refused unless all were done.
fn assert_first<H: Home, T: Abort + Wait>(
    rt: &T,
    home: &H,
    seat: &mut H::Seat,
    lines: &[Line],
    is_ok: bool,
    has_refused: bool,
)
    requires opened { IsOfEight (H.belongs home.now seat.old) (H.held seat.old) (H.opening home.now) }
{
    let done = |data: u8| Line::Completed(add(FETCH_ADD, 0, 1), Reply::CompData(first_lane(data)));
    let full = [done(0), done(1), done(2)];
    let holds_all = home.holds_all(seat);
    let mut words = [0; 8];
    home.snapshot(rt, seat, &mut words);
    let count = lines.len();
    assert_same(
        &rt,
        (lines, holds_all, words),
        (
            &full[..count.min(3)],
            true,
            [count as u64, 0, 0, 0, 0, 0, 0, 0],
        ),
    );
    assert!(rt; if is_ok { count == 3 } else { has_refused });
}

// Executes three fetch-adds by requester 0, as its work or serially, and answers whether all were done.
fn are_three_done<H: Home, R: Wait, A: Allocator>(
    rt: &R,
    home: &H,
    seat: &mut H::Seat,
    is_serial: bool,
    lines: &mut Vec<Line, A>,
) -> bool
    requires opened { IsOfEight (H.belongs home.now seat.old) (H.held seat.old) (H.opening home.now) }
    ensures opened { IsOfEight (H.belongs home.now seat.new) (H.held seat.new) (H.opening home.now) }
{
    let requests = [
        add(FETCH_ADD, 0, 1),
        add(FETCH_ADD, 0, 1),
        add(FETCH_ADD, 0, 1),
    ];
    let policy = Policy::Resend;
    if is_serial {
        run_serial(home, rt, seat, &requests, policy, lines).is_ok()
    } else {
        work(home, rt, seat, 0, &requests, policy, &mut NoGate, lines).is_ok()
    }
}

// Executes the three with the growth of this number refused, and answers whether there was one.
pub(crate) fn add_three<H: Home, T: AllocGlobal + Abort + Wait>(
    rt: &T,
    home: &H,
    seat: &mut H::Seat,
    is_serial: bool,
    number: u64,
) -> bool
    requires opened { IsOfEight (H.belongs home.now seat.old) (H.held seat.old) (H.opening home.now) }
{
    let alloc = Refusing::new(rt.alloc(), number);
    let mut lines = Vec::new(&alloc);
    let is_ok = are_three_done(rt, home, seat, is_serial, &mut lines);
    let has_refused = alloc.has_refused();
    assert_first(rt, home, seat, lines.as_slice(), is_ok, has_refused);
    has_refused
}

#[test]
fn growth_refused_in_work(rt: HostRuntime) -> Result<(), Fail> {
    call_in_turn(&rt, Call::Work)
}

#[test]
fn growth_refused_in_serial(rt: HostRuntime) -> Result<(), Fail> {
    call_in_turn(&rt, Call::Serial)
}
