//! Requests without a runtime: they take no memory and wait for nobody.

ghost use Rattle.std.specs.Prelude.{◌≡◌, true, IsTrue};
ghost use Rattle.chi_fields.specs.Extent.{lies_in};
ghost use Rattle.chi_history.specs.HomeClauses.{IsServed};

use crate::seat::BookSeat;
use crate::store::BookStore;
use crate::tries::try_some;
use chi_fields::Access;
use chi_history::{Gate, Home, NoGate, Served};
use chi_rule::Purpose;
use std::alloc::Allocator;

impl<A: Allocator> BookStore<A> {
    /// Serves a request of the requester `src` by at most as many tries as the home was opened with, or answers
    /// it by RetryAck, after which no byte was changed by this call.
    ///
    /// Each try loads the granule's word and exchanges it once. A read, a compare that differs and a write of
    /// no bytes exchange the word with itself.
    pub fn attempt(&self, seat: &mut BookSeat, src: u8, access: &Access) -> Served
        requires own { ⟦<BookStore<A> as Home>⟧.belongs self.now seat.old }
        requires holds { ⟦<BookStore<A> as Home>⟧.held seat.old src ≡ true }
        requires fits { IsTrue (lies_in access.now.addr access.now.len (⟦<BookStore<A> as Home>⟧.opening self.now).region) }
        ensures own { ⟦<BookStore<A> as Home>⟧.belongs self.now seat.new }
        ensures held { ⟦<BookStore<A> as Home>⟧.held seat.new ≡ ⟦<BookStore<A> as Home>⟧.held seat.old }
        ensures served { IsServed (⟦<BookStore<A> as Home>⟧.opening self.now) (⟦<BookStore<A> as Home>⟧.limit self.now) (⟦<BookStore<A> as Home>⟧.held seat.old) (⟦<BookStore<A> as Home>⟧.seen seat.old) (⟦<BookStore<A> as Home>⟧.seen seat.new) src access.now result }
    {
        self.attempt_gated(seat, src, access, &mut NoGate)
    }

    /// The same, with a pause of the gate between the load and the exchange of each try, numbered from 1.
    pub fn attempt_gated<G: Gate>(
        &self,
        seat: &mut BookSeat,
        src: u8,
        access: &Access,
        gate: &mut G,
    ) -> Served
        requires own { ⟦<BookStore<A> as Home>⟧.belongs self.now seat.old }
        requires holds { ⟦<BookStore<A> as Home>⟧.held seat.old src ≡ true }
        requires fits { IsTrue (lies_in access.now.addr access.now.len (⟦<BookStore<A> as Home>⟧.opening self.now).region) }
        ensures own { ⟦<BookStore<A> as Home>⟧.belongs self.now seat.new }
        ensures held { ⟦<BookStore<A> as Home>⟧.held seat.new ≡ ⟦<BookStore<A> as Home>⟧.held seat.old }
        ensures served { IsServed (⟦<BookStore<A> as Home>⟧.opening self.now) (⟦<BookStore<A> as Home>⟧.limit self.now) (⟦<BookStore<A> as Home>⟧.held seat.old) (⟦<BookStore<A> as Home>⟧.seen seat.old) (⟦<BookStore<A> as Home>⟧.seen seat.new) src access.now result }
    {
        let purpose = Purpose {
            src,
            access: *access,
        };
        try_some(self, &mut seat.table_seat, &purpose, gate, self.attempts)
    }
}
