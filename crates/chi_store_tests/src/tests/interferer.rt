//! A gate that makes another requester's calls between the tries of a fetch-add, and the home where it does.

ghost use Rattle.std.specs.Prelude.{◌≡◌, IfOk, IsTrue};
ghost use Rattle.chi_fields.specs.Extent.{lies_in};

use chi_bookstore::{BookSeat, BookStore};
use chi_fields::{Access, Region, Request, decode};
use chi_history::{Gate, Home, Served};
use chi_lanes::Reply;
use chi_samples::{first_lane, plain_request};
use std::marker::Model;
use std::process::Abort;
use std::sync::Wait;
use std::test::Fail;

// A gate that makes requester 1's calls at each of its first pauses, so many. It keeps the numbers of the tries
// that it was paused before, up to 16, and counts the calls that were done.
pub(crate) struct Interferer<'a> {
    home: &'a BookStore,
    seat: BookSeat,
    first: Access,
    second: Option<Access>,
    left: u8,
    pub(crate) tries: [u8; 16],
    pub(crate) pauses: usize,
    pub(crate) done: u8,
}

impl<'a> Model for Interferer<'a> {
    ghost use Rattle.std.specs.Prelude.{ℕ};

    ghost Value = { ℕ };

    ghost view = { λ a. a.done };

    ghost invariant = { λ a. ⟦<BookStore as Home>⟧.belongs a.home.now a.seat };
}

impl<'a> Interferer<'a> {
    pub(crate) fn new(
        home: &'a BookStore,
        seat: BookSeat,
        left: u8,
        first: Access,
        second: Option<Access>,
    ) -> Interferer<'a>
        requires own { ⟦<BookStore as Home>⟧.belongs home.now seat }
    {
        Interferer {
            home,
            seat,
            first,
            second,
            left,
            tries: [0; 16],
            pauses: 0,
            done: 0,
        }
    }

    // One call of requester 1.
    fn call(&mut self, access: &Access) {
        if !self.home.holds(&self.seat, 1) || !access.fits(&self.home.region()) {
            return;
        }
        match self.home.attempt(&mut self.seat, 1, access) {
            Served::Done { reply: _, lost: _ } => self.done = self.done.saturating_add(1),
            Served::Retry { credit, lost: _ } => self.home.return_credit(credit),
        }
    }
}

impl Gate for Interferer<'_> {
    fn pause(&mut self, try_no: u8) {
        if let Some(number) = self.tries.get_mut(self.pauses) {
            *number = try_no;
        }
        self.pauses = self.pauses.saturating_add(1);
        if self.left > 0 {
            self.left -= 1;
            let (first, second) = (self.first, self.second);
            self.call(&first);
            if let Some(second) = second {
                self.call(&second);
            }
        }
    }
}

impl Drop for Interferer<'_> {
    fn drop(self) {
        let Interferer {
            home: _,
            seat: _,
            first: _,
            second: _,
            left: _,
            tries: _,
            pauses: _,
            done: _,
        } = self;
    }
}

// A request of size 8 at 0x1000, with this byte in lane 0.
pub(crate) fn request(src: u8, opcode: u8, be: u16, first: u8) -> Request
    ensures { result.src ≡ src }
{
    Request {
        src,
        txn: 1,
        ..plain_request(opcode, 3, 0x1000, be, first_lane(first))
    }
}

// An add of 1 by requester 1.
pub(crate) fn add_of_one() -> Request {
    request(1, 0x28, 0x00ff, 1)
}

// A fetch-add of 5 by requester 0.
pub(crate) fn fetch_add() -> Request
    ensures { result.src ≡ 0 }
{
    request(0, 0x30, 0x00ff, 5)
}

// A data packet with this byte in lane 0.
pub(crate) fn one_byte(byte: u8) -> Reply {
    Reply::CompData(first_lane(byte))
}

// The numbers of these tries as a gate keeps them, 0 where there is none.
pub(crate) fn kept(numbers: &[u8]) -> [u8; 16] {
    let mut tries = [0; 16];
    for (at, number) in numbers.iter().enumerate() {
        if let Some(kept) = tries.get_mut(at) {
            *kept = *number;
        }
    }
    tries
}

// The access of a request that is accepted at the region of each test.
pub(crate) fn accepted<T: Abort>(rt: &T, request: &Request) -> Access {
    let region = Region::new(0x1000, 8).ok().expect(rt, "the region is one");
    decode(request, &region)
        .ok()
        .expect(rt, "the request is accepted")
}

// A home with so many tries, its seat, a seat of requester 1, and the fetch-add of requester 0.
pub(crate) fn opened<T: AllocGlobal + Abort + Wait>(
    rt: &T,
    attempts: u8,
) -> Result<(BookStore, BookSeat, BookSeat, Access), Fail>
    ensures own { IfOk result (λ r. ⟦<BookStore as Home>⟧.belongs r.0 r.1) }
    ensures other_own { IfOk result (λ r. ⟦<BookStore as Home>⟧.belongs r.0 r.2) }
    ensures fits { IfOk result (λ r. IsTrue (lies_in r.3.addr r.3.len r.0.values.region)) }
{
    let region = Region::new(0x1000, 8)?;
    let fetch = decode(&fetch_add(), &region)?;
    let (home, mut seat) = BookStore::open(rt.alloc(), region, 2, attempts, &[0; 8])?;
    assert!(rt; home.holds(&seat, 1));
    let other = home.split(rt, &mut seat, 1);
    Ok((home, seat, other, fetch))
}

// The reply to a read of the first granule by requester 0.
pub(crate) fn first_granule<T: Abort>(rt: &T, home: &BookStore, seat: &mut BookSeat) -> Reply
    requires own { ⟦<BookStore as Home>⟧.belongs home.now seat.old }
    ensures own { ⟦<BookStore as Home>⟧.belongs home.now seat.new }
{
    let read = decode(&request(0, 0x04, 0, 0), &home.region())
        .ok()
        .expect(rt, "the read is accepted");
    assert!(rt; home.holds(seat, 0));
    match home.attempt(seat, 0, &read) {
        Served::Done { reply, lost: _ } => reply,
        Served::Retry { credit, lost: _ } => {
            home.return_credit(credit);
            panic!(rt; "a read that nobody comes between was answered by RetryAck")
        }
    }
}
