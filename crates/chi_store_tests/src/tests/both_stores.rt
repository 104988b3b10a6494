//! Both stores, on each of which one of the generic calls of the tests is made.

ghost use Rattle.chi_samples.specs.Opened.{IsOfEight};

use crate::tests::home_tests::{assert_callers, assert_own_lines};
use crate::tests::opening_tests::assert_begins;
use crate::tests::work_tests::{assert_adds, assert_two_bytes_written};
use chi_bookstore::BookStore;
use chi_fields::Region;
use chi_history::Home;
use chi_lockstore::LockStore;
use std::process::Abort;
use std::sync::Wait;
use std::test::Fail;
use std::thread::Threads;

// The calls, by the functions that make them.
#[derive(Clone, Copy)]
pub(crate) enum Call {
    Callers,
    OwnLines,
    Begins,
    OtherSkipped,
    TwoBytes,
    TwoWorkers,
    FourWorkers,
}

// Makes the call on a home that was just opened.
fn call_on<H: Home + Sync, T: AllocGlobal + Abort + Threads + Wait + Sync>(
    rt: &T,
    home: &H,
    seat: &mut H::Seat,
    call: Call,
) -> Result<(), Fail>
    requires opened { IsOfEight (H.belongs home.now seat.old) (H.held seat.old) (H.opening home.now) }
{
    match call {
        Call::Callers => assert_callers(rt, home, seat),
        Call::OwnLines => assert_own_lines(rt, home, seat),
        Call::Begins => assert_begins(rt, home, seat),
        Call::OtherSkipped => assert_two_bytes_written(rt, home, seat, false),
        Call::TwoBytes => assert_two_bytes_written(rt, home, seat, true),
        Call::TwoWorkers => assert_adds(rt, home, seat, false)?,
        Call::FourWorkers => assert_adds(rt, home, seat, true)?,
    }
    Ok(())
}

// Makes the call on each store, of eight requesters and opened on this image.
pub(crate) fn call_on_both<T: AllocGlobal + Abort + Threads + Wait + Sync>(
    rt: &T,
    image: &[u64; 8],
    call: Call,
) -> Result<(), Fail> {
    let region = Region::new(0x1000, 8)?;
    {
        let (home, mut seat) = LockStore::open(rt.alloc(), region, 8, image)?;
        call_on(rt, &home, &mut seat, call)?;
    }
    let (home, mut seat) = BookStore::open(rt.alloc(), region, 8, 4, image)?;
    call_on(rt, &home, &mut seat, call)
}
