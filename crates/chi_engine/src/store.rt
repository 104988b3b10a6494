//! The store of the options, opened for a script.

ghost use Rattle.std.specs.Prelude.{◌≡◌, length, IfErr, IfOk};
ghost use Rattle.chi_bookstore.specs.BookFaults as book_faults;
ghost use Rattle.chi_lockstore.specs.LockFaults as lock_faults;
ghost use Rattle.chi_engine.specs.Store.{IsFresh, Opens, OpensOn, requester_count};

use crate::options::Store;
use chi_bookstore::{BookSeat, BookStore};
use chi_history::{Home, MOST_NUMBERS, OpenFault};
use chi_lockstore::{LockSeat, LockStore};
use chi_script::Script;
use std::alloc::{AllocError, Global};

// Room for the words of so many granules.
pub(crate) fn room(alloc: Global, granules: u16) -> Result<Vec<u64>, AllocError>
    ensures { IfOk result (λ words. length words.items ≡ granules) }
{
    vec![in alloc; 0; usize::from(granules)]
}

// The locked store, on the region and the image of a script.
pub(crate) fn open_lock(
    alloc: Global,
    script: &Script,
) -> Result<(LockStore<Global>, LockSeat), OpenFault>
    ensures own { IfOk result (λ r. ⟦<LockStore<Global> as Home>⟧.belongs r.0 r.1) }
    ensures fresh { IfOk result (λ r. IsFresh (⟦<LockStore<Global> as Home>⟧.opening r.0) script.now (⟦<LockStore<Global> as Home>⟧.held r.1) (⟦<LockStore<Global> as Home>⟧.seen r.1)) }
    ensures limit { IfOk result (λ r. ⟦<LockStore<Global> as Home>⟧.limit r.0 ≡ 0) }
    ensures opens { IfOk result (λ _. OpensOn Store.Lock script.now.region.granules) }
    ensures refused { IfErr result (lock_faults.IsLockFault script.now.region.granules requester_count) }
{
    LockStore::open(alloc, script.region(), MOST_NUMBERS, script.image())
}

// The lock-free store, with so many tries, on the region and the image of a script.
pub(crate) fn open_book(
    alloc: Global,
    script: &Script,
    attempts: u8,
) -> Result<(BookStore<Global>, BookSeat), OpenFault>
    ensures own { IfOk result (λ r. ⟦<BookStore<Global> as Home>⟧.belongs r.0 r.1) }
    ensures fresh { IfOk result (λ r. IsFresh (⟦<BookStore<Global> as Home>⟧.opening r.0) script.now (⟦<BookStore<Global> as Home>⟧.held r.1) (⟦<BookStore<Global> as Home>⟧.seen r.1)) }
    ensures limit { IfOk result (λ r. ⟦<BookStore<Global> as Home>⟧.limit r.0 ≡ attempts) }
    ensures opens { IfOk result (λ _. Opens (Store.Book attempts)) }
    ensures refused { IfErr result (book_faults.IsBookFault requester_count attempts) }
{
    BookStore::open(
        alloc,
        script.region(),
        MOST_NUMBERS,
        attempts,
        script.image(),
    )
}

// Opens the store of the options for a script, and then does the work, in which these names stand for the home and
// its first seat.
macro_rules! on_store {
    ($alloc:expr, $script:expr, $options:expr, |$home:ident, $seat:ident| $work:expr) => {
        match $options.store {
            $crate::options::Store::Lock => match $crate::store::open_lock($alloc, $script) {
                Ok(($home, mut $seat)) => $work,
                Err(fault) => Err($crate::fault::EngineFault::Open(fault)),
            },
            $crate::options::Store::Book { attempts } => match $crate::store::open_book($alloc, $script, attempts) {
                Ok(($home, mut $seat)) => $work,
                Err(fault) => Err($crate::fault::EngineFault::Open(fault)),
            },
        }
    };
}

pub(crate) use on_store;
