//! What the locked store does with each operation, with seats, a gate and credits.

use super::{LOAD_ADD, SWAP, accepted, gated_reply_of, one_byte, reply_of, request, words_of};
use crate::tests::comparison::assert_same;
use chi_fields::Region;
use chi_history::{Credit, Gate, Home};
use chi_lanes::Reply;
use chi_lockstore::LockStore;
use std::process::Abort;
use std::sync::Wait;
use std::test::Fail;

const WRITE: u8 = 0x1c;

const LOAD_CLR: u8 = 0x31;

const LOAD_EOR: u8 = 0x32;

const LOAD_SET: u8 = 0x33;

const LOAD_SMAX: u8 = 0x34;

const LOAD_SMIN: u8 = 0x35;

const LOAD_UMAX: u8 = 0x36;

const LOAD_UMIN: u8 = 0x37;

const COMPARE: u8 = 0x39;

// A compare with other bytes changes nothing.
fn assert_compared<H: Home, R: Abort + Wait>(rt: &R, home: &H, seat: &mut H::Seat)
    requires { H.belongs home.now seat.old }
{
    let lanes = [1, 0, 0, 0, 0xff, 0xff, 0xff, 0xff, 0, 0, 0, 0, 0, 0, 0, 0];
    let compare = request(COMPARE, 3, 0x00ff, lanes);
    let reply = reply_of(rt, home, seat, 0, &compare);
    let words = words_of(rt, home, seat);
    assert_same(rt, (reply, words), (Reply::CompData([0; 16]), [0; 8]));
}

// Writes f0 to the first byte, serves this operation with 3c sent, and answers the word after it.
fn word_after<H: Home, R: Abort + Wait>(rt: &R, home: &H, seat: &mut H::Seat, opcode: u8) -> u64
    requires { H.belongs home.now seat.old }
    ensures { H.belongs home.now seat.new }
{
    let write = request(WRITE, 0, 0x0001, one_byte(0xf0));
    let written = reply_of(rt, home, seat, 7, &write);
    let operation = request(opcode, 0, 0x0001, one_byte(0x3c));
    let before = reply_of(rt, home, seat, 7, &operation);
    let words = words_of(rt, home, seat);
    assert_same(
        rt,
        (written, before, words),
        (
            Reply::Comp,
            Reply::CompData(one_byte(0xf0)),
            [words[0], 0, 0, 0, 0, 0, 0, 0],
        ),
    );
    words[0]
}

// Each operation leaves its own word.
fn assert_nine<H: Home, R: Abort + Wait>(rt: &R, home: &H, seat: &mut H::Seat)
    requires { H.belongs home.now seat.old }
{
    let words = [
        word_after(rt, home, seat, LOAD_ADD),
        word_after(rt, home, seat, LOAD_CLR),
        word_after(rt, home, seat, LOAD_EOR),
        word_after(rt, home, seat, LOAD_SET),
        word_after(rt, home, seat, LOAD_SMAX),
        word_after(rt, home, seat, LOAD_SMIN),
        word_after(rt, home, seat, LOAD_UMAX),
        word_after(rt, home, seat, LOAD_UMIN),
        word_after(rt, home, seat, SWAP),
    ];
    assert_same(
        rt,
        words,
        [0x2c, 0xc0, 0xcc, 0xfc, 0x3c, 0xf0, 0xf0, 0x3c, 0x3c],
    );
}

// Two seats add to the same byte in turn.
fn assert_split<H: Home, R: Abort + Wait>(rt: &R, home: &H, seat: &mut H::Seat)
    requires { H.belongs home.now seat.old }
{
    assert!(rt; home.holds(seat, 1));
    let mut other = home.split(rt, seat, 1);
    let rest = (home.holds(seat, 1), home.holds_all(seat));
    let add = request(LOAD_ADD, 0, 0x0001, one_byte(1));
    let first = reply_of(rt, home, seat, 0, &add);
    let add = request(LOAD_ADD, 0, 0x0001, one_byte(2));
    let second = reply_of(rt, home, &mut other, 1, &add);
    home.rejoin(rt, seat, other);
    let words = words_of(rt, home, seat);
    assert_same(
        rt,
        (rest, first, second, words),
        (
            (false, false),
            Reply::CompData([0; 16]),
            Reply::CompData(one_byte(1)),
            [3, 0, 0, 0, 0, 0, 0, 0],
        ),
    );
}

// How many pauses there were, and the last one's number.
#[derive(Drop)]
struct Pauses {
    count: u8,
    last: u8,
}

impl Gate for Pauses {
    fn pause(&mut self, try_no: u8) {
        self.count = self.count.saturating_add(1);
        self.last = try_no;
    }
}

// A request is paused for once.
fn assert_paused<H: Home, R: Abort + Wait>(rt: &R, home: &H, seat: &mut H::Seat)
    requires { H.belongs home.now seat.old }
{
    let swap = request(SWAP, 0, 0x0001, one_byte(5));
    let mut gate = Pauses { count: 0, last: 0 };
    let reply = gated_reply_of(rt, home, seat, 0, &swap, &mut gate);
    assert_same(
        rt,
        (reply, gate.count, gate.last),
        (Reply::CompData([0; 16]), 1, 1),
    );
}

// A credit is spent on an addition, and one is given back.
fn assert_credited<H: Home, R: Abort + Wait>(rt: &R, home: &H, seat: &mut H::Seat)
    requires { H.belongs home.now seat.old }
{
    let add = request(LOAD_ADD, 0, 0x0001, one_byte(5));
    let access = accepted(rt, &add, &home.region());
    assert!(rt; home.holds(seat, 0));
    let reply = home.serve_credited(rt, seat, Credit::issue(0), &access);
    home.return_credit(Credit::issue(0));
    let words = words_of(rt, home, seat);
    assert_same(
        rt,
        (reply, words),
        (Reply::CompData([0; 16]), [5, 0, 0, 0, 0, 0, 0, 0]),
    );
}

// What the tests assert of a store that was just opened.
#[derive(Clone, Copy)]
enum Case {
    Compared,
    Nine,
    Split,
    Paused,
    Credited,
}

// Asserts it of any home.
fn assert_of<H: Home, R: Abort + Wait>(rt: &R, home: &H, seat: &mut H::Seat, case: Case)
    requires { H.belongs home.now seat.old }
{
    match case {
        Case::Compared => assert_compared(rt, home, seat),
        Case::Nine => assert_nine(rt, home, seat),
        Case::Split => assert_split(rt, home, seat),
        Case::Paused => assert_paused(rt, home, seat),
        Case::Credited => assert_credited(rt, home, seat),
    }
}

// Asserts it of a store of so many requesters.
fn assert_case<R: AllocGlobal + Abort + Wait>(
    rt: &R,
    requesters: u8,
    case: Case,
) -> Result<(), Fail> {
    let region = Region::new(0x1000, 8)?;
    let (store, mut seat) = LockStore::open(rt.alloc(), region, requesters, &[0; 8])?;
    assert_of(rt, &store, &mut seat, case);
    Ok(())
}

#[test]
fn compare_that_differs(rt: HostRuntime) -> Result<(), Fail> {
    assert_case(&rt, 1, Case::Compared)
}

#[test]
fn nine_operations_on_one_byte(rt: HostRuntime) -> Result<(), Fail> {
    assert_case(&rt, 8, Case::Nine)
}

#[test]
fn split_and_rejoin(rt: HostRuntime) -> Result<(), Fail> {
    assert_case(&rt, 2, Case::Split)
}

#[test]
fn gate_is_paused_once(rt: HostRuntime) -> Result<(), Fail> {
    assert_case(&rt, 1, Case::Paused)
}

#[test]
fn credit_is_served_or_returned(rt: HostRuntime) -> Result<(), Fail> {
    assert_case(&rt, 1, Case::Credited)
}
