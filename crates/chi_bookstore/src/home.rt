//! The lock-free home, as a home.

use crate::seat::BookSeat;
use crate::steps::{give, read_one, take_in};
use crate::store::BookStore;
use crate::tries::try_until_done;
use chi_fields::{Access, Region};
use chi_history::{Credit, Gate, Home, Numbers, Served};
use chi_lanes::Reply;
use chi_rule::Purpose;
use std::alloc::Allocator;
use std::marker::Brand;
use std::sync::Wait;

impl<A: Allocator> Home for BookStore<A> {
    ghost use Rattle.chi_history.specs.NumberLists.{has};
    ghost use Rattle.chi_bookstore.specs.BookSeats.{IsSeatOf};

    type Seat = BookSeat;

    ghost opening = { λ home. home.values };

    ghost limit = { λ home. home.attempts };

    ghost belongs = { IsSeatOf };

    ghost held = { λ seat. has seat.numbers };

    ghost seen = { λ seat. seat.table_seat.me.0.seen };

    ghost is_opening = { λ home. home.opening };

    ghost seen_is_legal = { λ home seat own. own.opening.known.legal };

    ghost held_is_opened = { λ home seat own. own.opening.opened };

    fn region(&self) -> Region {
        self.values.region()
    }

    fn requesters(&self) -> u8 {
        self.values.requesters()
    }

    fn holds(&self, seat: &BookSeat, src: u8) -> bool {
        seat.numbers.has(src)
    }

    fn holds_all(&self, seat: &BookSeat) -> bool {
        seat.numbers.has_all(self.values.requesters())
    }

    fn serve<R: Wait, G: Gate>(
        &self,
        _rt: &R,
        seat: &mut BookSeat,
        src: u8,
        access: &Access,
        gate: &mut G,
    ) -> Served {
        self.attempt_gated(seat, src, access, gate)
    }

    fn serve_credited<R: Wait>(
        &self,
        rt: &R,
        seat: &mut BookSeat,
        credit: Credit,
        access: &Access,
    ) -> Reply {
        let purpose = Purpose {
            src: credit.spend(),
            access: *access,
        };
        try_until_done(rt, self, &mut seat.table_seat, &purpose)
    }

    fn split<R: Wait>(&self, _rt: &R, seat: &mut BookSeat, src: u8) -> BookSeat {
        let table_seat = give::<Brand, A>(&self.table, &mut seat.table_seat, src);
        let alone = Numbers::only(src);
        seat.numbers.remove(src);
        BookSeat {
            table_seat,
            numbers: alone,
        }
    }

    fn rejoin<R: Wait>(&self, _rt: &R, seat: &mut BookSeat, other: BookSeat) {
        let BookSeat {
            table_seat,
            numbers,
        } = other;
        seat.numbers.merge(numbers);
        take_in(&self.table, &mut seat.table_seat, table_seat);
    }

    fn snapshot<R: Wait>(&self, _rt: &R, seat: &mut BookSeat, words: &mut [u64]) {
        let image = self.values.image();
        for granule in 0..words.len() {
            let found = read_one(&self.table, &mut seat.table_seat, granule);
            words[granule] = found ^ image[granule];
        }
    }
}
