//! What no clause says: each operation once, the refusals, and two real threads.

ghost use Rattle.std.specs.Prelude.{◌≡◌, true};
ghost use Rattle.chi_history.specs.NumberLists.{has};
ghost use Rattle.chi_bookstore.specs.BookSeats.{IsSeatOf};

use crate::tests::comparison::assert_same;
use chi_bookstore::{BookSeat, BookStore};
use chi_fields::{Refusal, Region, Request, decode};
use chi_history::{Home, OpenFault, Served};
use chi_lanes::Reply;
use chi_samples::{first_lane, plain_request};
use std::alloc::Allocator;
use std::test::Fail;

mod threads;

// A request of size `2^size` at 0x1000 with this byte in lane 0.
fn request(src: u8, opcode: u8, size: u8, be: u16, first: u8) -> Request
    ensures { result.src ≡ src }
{
    Request {
        src,
        ..plain_request(opcode, size, 0x1000, be, first_lane(first))
    }
}

// The reply, where the request is accepted and an exchange wins.
fn reply_to<A: Allocator>(
    home: &BookStore<A>,
    seat: &mut BookSeat,
    request: &Request,
) -> Option<Reply>
    requires own { IsSeatOf home.now seat.old }
    requires holds { has seat.old.numbers request.now.src ≡ true }
    ensures own { IsSeatOf home.now seat.new }
    ensures held { has seat.new.numbers ≡ has seat.old.numbers }
{
    let Ok(access) = decode(request, &home.region()) else {
        return None;
    };
    match home.attempt(seat, request.src, &access) {
        Served::Done { reply, lost: _ } => Some(reply),
        Served::Retry { credit, lost: _ } => {
            home.return_credit(credit);
            None
        }
    }
}

// Returned data with this byte in lane 0.
fn one_byte(byte: u8) -> Reply {
    Reply::CompData(first_lane(byte))
}

#[test]
fn nine_operations_on_one_byte(rt: HostRuntime) -> Result<(), Fail> {
    let region = Region::new(0x1000, 8)?;
    let (home, mut seat) = BookStore::open(rt.alloc(), region, 8, 4, &[0; 8])?;
    let rows: [(u8, u64); 9] = [
        (0x30, 0x2c),
        (0x31, 0xc0),
        (0x32, 0xcc),
        (0x33, 0xfc),
        (0x34, 0x3c),
        (0x35, 0xf0),
        (0x36, 0xf0),
        (0x37, 0x3c),
        (0x38, 0x3c),
    ];
    'rows: for (opcode, after) in rows {
        let written = reply_to(&home, &mut seat, &request(0, 0x1c, 0, 1, 0xf0));
        let before = reply_to(&home, &mut seat, &request(0, opcode, 0, 1, 0x3c));
        let (holds_all, granules) = (home.holds_all(&seat), home.region().granules());
        let mut words = [0xff; 8];
        home.snapshot(&rt, &mut seat, &mut words);
        assert_same(
            &rt,
            (opcode, (written, before, holds_all, granules, words)),
            (
                opcode,
                (
                    Some(Reply::Comp),
                    Some(one_byte(0xf0)),
                    true,
                    8,
                    [after, 0, 0, 0, 0, 0, 0, 0],
                ),
            ),
        );
    }
    Ok(())
}

// The fault of an opening.
fn fault_of<T: AllocGlobal>(
    rt: &T,
    region: Region,
    requesters: u8,
    attempts: u8,
) -> Option<OpenFault>
    requires { region.granules ≡ 8 }
{
    BookStore::open(rt.alloc(), region, requesters, attempts, &[0; 8]).err()
}

#[test]
fn open_refusals(rt: HostRuntime) -> Result<(), Fail> {
    let region = Region::new(0x1000, 8)?;
    let faults = [
        fault_of(&rt, region, 9, 0),
        fault_of(&rt, region, 0, 4),
        fault_of(&rt, region, 8, 0),
        fault_of(&rt, region, 8, 17),
    ];
    assert_same(
        &rt,
        faults,
        [
            Some(OpenFault::RequesterCount),
            Some(OpenFault::RequesterCount),
            Some(OpenFault::AttemptCount),
            Some(OpenFault::AttemptCount),
        ],
    );
    let (home, seat) = BookStore::open(rt.alloc(), region, 8, 16, &[0; 8])?;
    assert_same(
        &rt,
        (
            home.holds_all(&seat),
            home.holds(&seat, 7),
            home.holds(&seat, 8),
        ),
        (true, true, false),
    );
    Ok(())
}

#[test]
fn region_of_512_granules(rt: HostRuntime) -> Result<(), Fail> {
    let region = Region::new(0x1000, 512)?;
    let (home, mut seat) = BookStore::open(rt.alloc(), region, 8, 4, &[0; 512])?;
    let mut add = request(0, 0x30, 3, 0xff00, 0);
    add.lanes[8] = 1;
    add.addr = 0x1ff8;
    let before = reply_to(&home, &mut seat, &add);
    add.addr = 0x2000;
    let refused = decode(&add, &region).err();
    let (holds_all, granules) = (home.holds_all(&seat), home.region().granules());
    let mut words = [0xff; 512];
    home.snapshot(&rt, &mut seat, &mut words);
    let mut want = [0; 512];
    want[511] = 1;
    assert_same(
        &rt,
        (before, refused, holds_all, granules, words),
        (
            Some(Reply::CompData([0; 16])),
            Some(Refusal::OutOfRegion),
            true,
            512,
            want,
        ),
    );
    Ok(())
}

#[test]
fn lent_allocator(rt: HostRuntime) -> Result<(), Fail> {
    let alloc = rt.alloc();
    let region = Region::new(0x1000, 8)?;
    let (home, mut seat) = BookStore::open(&alloc, region, 1, 1, &[0; 8])?;
    let _ = reply_to(&home, &mut seat, &request(0, 0x28, 0, 1, 0x3c));
    let read = reply_to(&home, &mut seat, &request(0, 0x04, 0, 0, 0));
    assert_same(&rt, read, Some(one_byte(0x3c)));
    Ok(())
}
