//! The opening of the lock-free home.

ghost use Rattle.std.specs.Prelude.{◌≡◌, IfErr, IfOk, length};
ghost use Rattle.chi_history.specs.Openings.{IsFirst, IsRequesterCount, opened};
ghost use Rattle.chi_bookstore.specs.BookFaults.{IsAttemptCount, IsBookFault};

use crate::seat::BookSeat;
use crate::steps::begin;
use crate::store::BookStore;
use chi_fields::Region;
use chi_history::{Home, MOST_NUMBERS, Numbers, OpenFault};
use chi_rule::OpeningValues;
use std::alloc::Allocator;

/// The greatest number of tries that a request gets before it is answered by RetryAck, which the profile sets.
pub const MOST_ATTEMPTS: u8 = 16;

impl<A: Allocator + Copy> BookStore<A> {
    /// Opens a home for so many requesters, 1 to `MOST_NUMBERS`, whose requests get at most so many tries, 1 to
    /// `MOST_ATTEMPTS`. The image is the words of the memory at the opening, one for each granule.
    ///
    /// The faults, in order: `RequesterCount`, `AttemptCount`, `Memory`.
    ///
    /// ```
    /// let (home, mut seat) = BookStore::open(rt.alloc(), region, 3, 4, &[0; 8])?;
    /// ```
    pub fn open(
        alloc: A,
        region: Region,
        requesters: u8,
        attempts: u8,
        image: &[u64],
    ) -> Result<(BookStore<A>, BookSeat), OpenFault>
        requires { length image.now ≡ region.granules }
        ensures own { IfOk result (λ r. ⟦<BookStore<A> as Home>⟧.belongs r.0 r.1) }
        ensures first { IfOk result (λ r. IsFirst (⟦<BookStore<A> as Home>⟧.opening r.0) (⟦<BookStore<A> as Home>⟧.held r.1) (⟦<BookStore<A> as Home>⟧.seen r.1)) }
        ensures opening { IfOk result (λ r. ⟦<BookStore<A> as Home>⟧.opening r.0 ≡ opened region requesters image.now) }
        ensures limit { IfOk result (λ r. ⟦<BookStore<A> as Home>⟧.limit r.0 ≡ attempts) }
        ensures counts { IfOk result (λ _. IsRequesterCount requesters × IsAttemptCount attempts) }
        ensures refused { IfErr result (IsBookFault requesters attempts) }
    {
        if requesters < 1 || requesters > MOST_NUMBERS {
            return Err(OpenFault::RequesterCount);
        }
        if attempts < 1 || attempts > MOST_ATTEMPTS {
            return Err(OpenFault::AttemptCount);
        }
        let Ok(values) = OpeningValues::new(alloc, region, requesters, image) else {
            return Err(OpenFault::Memory);
        };
        let Ok((table, table_seat)) = begin(alloc, &values) else {
            return Err(OpenFault::Memory);
        };
        let store = BookStore {
            table,
            values,
            attempts,
        };
        let numbers = Numbers::all(requesters);
        Ok((
            store,
            BookSeat {
                table_seat,
                numbers,
            },
        ))
    }
}
