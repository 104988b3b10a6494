//! Each growth refused in turn: in the opening of a store, and in each call on one.

ghost use Rattle.chi_samples.specs.Opened.{IsOfEight};

use crate::tests::comparison::assert_same;
use crate::tests::growth_list_tests::add_forty;
use crate::tests::growth_race_tests::race_ten;
use crate::tests::growth_work_tests::add_three;
use crate::tests::refusing_allocator::Refusing;
use chi_bookstore::BookStore;
use chi_fields::Region;
use chi_history::{Home, OpenFault};
use chi_lockstore::LockStore;
use std::process::Abort;
use std::sync::Wait;
use std::test::Fail;
use std::thread::Threads;

// More runs than any call here has growths.
const MANY: u64 = 100;

// The calls on a store in which a growth is refused. `Forty` leaves so many lines.
#[derive(Clone, Copy)]
pub(crate) enum Call {
    Work,
    Serial,
    Forty(usize),
    RaceOfTwo,
    RaceOfFour,
}

// Runs with the growth of each number refused, until a run meets no refusal. A run answers whether it met one.
fn in_turn<T: Abort, F: Fn(u64) -> Result<bool, Fail>>(rt: &T, run: F) -> Result<(), Fail>
    requires run { F.IsAlwaysCallable run }
{
    for number in 1..MANY {
        if !run(number)? {
            assert!(rt; number > 1);
            return Ok(());
        }
    }
    panic!(rt; "each run met a refusal")
}

// Asserts that nothing was done yet.
fn assert_opened<H: Home, T: Abort + Wait>(rt: &T, home: &H, seat: &mut H::Seat)
    requires opened { IsOfEight (H.belongs home.now seat.old) (H.held seat.old) (H.opening home.now) }
{
    let (holds_all, requesters) = (home.holds_all(seat), home.requesters());
    let mut words = [1; 8];
    home.snapshot(rt, seat, &mut words);
    assert_same(&rt, (holds_all, requesters, words), (true, 8, [0; 8]));
}

// Asserts that an opening met no other fault than a growth that was refused.
fn assert_refused<T: Abort>(rt: &T, fault: OpenFault, has_refused: bool) {
    assert_same(&rt, (fault, has_refused), (OpenFault::Memory, true));
}

// Opens the locked store.
fn open_lock<T: AllocGlobal + Abort + Wait>(rt: &T, number: u64) -> Result<bool, Fail> {
    let region = Region::new(0x1000, 8)?;
    let alloc = Refusing::new(rt.alloc(), number);
    match LockStore::open(&alloc, region, 8, &[0; 8]) {
        Ok((home, mut seat)) => assert_opened(rt, &home, &mut seat),
        Err(fault) => assert_refused(rt, fault, alloc.has_refused()),
    }
    Ok(alloc.has_refused())
}

// Opens the lock-free store.
fn open_book<T: AllocGlobal + Abort + Wait>(rt: &T, number: u64) -> Result<bool, Fail> {
    let region = Region::new(0x1000, 8)?;
    let alloc = Refusing::new(rt.alloc(), number);
    match BookStore::open(&alloc, region, 8, 4, &[0; 8]) {
        Ok((home, mut seat)) => assert_opened(rt, &home, &mut seat),
        Err(fault) => assert_refused(rt, fault, alloc.has_refused()),
    }
    Ok(alloc.has_refused())
}

#[test]
fn growth_refused_in_opening(rt: HostRuntime) -> Result<(), Fail> {
    in_turn(&rt, |number| open_lock(&rt, number))?;
    in_turn(&rt, |number| open_book(&rt, number))
}

// Makes the call with the growth of this number refused, and answers whether there was one.
fn call_on<H: Home + Sync, T: AllocGlobal + Abort + Threads + Wait + Sync>(
    rt: &T,
    home: &H,
    seat: &mut H::Seat,
    call: Call,
    number: u64,
) -> Result<bool, Fail>
    requires opened { IsOfEight (H.belongs home.now seat.old) (H.held seat.old) (H.opening home.now) }
{
    match call {
        Call::Work => Ok(add_three(rt, home, seat, false, number)),
        Call::Serial => Ok(add_three(rt, home, seat, true, number)),
        Call::Forty(count) => add_forty(rt, home, seat, number, count),
        Call::RaceOfTwo => race_ten(rt, home, seat, false, number),
        Call::RaceOfFour => race_ten(rt, home, seat, true, number),
    }
}

// Makes the call on a locked store.
pub(crate) fn call_on_lock<T: AllocGlobal + Abort + Threads + Wait + Sync>(
    rt: &T,
    call: Call,
    number: u64,
) -> Result<bool, Fail> {
    let region = Region::new(0x1000, 8)?;
    let (home, mut seat) = LockStore::open(rt.alloc(), region, 8, &[0; 8])?;
    call_on(rt, &home, &mut seat, call, number)
}

// Makes the call on a lock-free store.
pub(crate) fn call_on_book<T: AllocGlobal + Abort + Threads + Wait + Sync>(
    rt: &T,
    call: Call,
    number: u64,
) -> Result<bool, Fail> {
    let region = Region::new(0x1000, 8)?;
    let (home, mut seat) = BookStore::open(rt.alloc(), region, 8, 4, &[0; 8])?;
    call_on(rt, &home, &mut seat, call, number)
}

// Makes the call on a store of each kind with each growth refused in turn.
pub(crate) fn call_in_turn<T: AllocGlobal + Abort + Threads + Wait + Sync>(
    rt: &T,
    call: Call,
) -> Result<(), Fail> {
    in_turn(rt, |number| call_on_lock(rt, call, number))?;
    in_turn(rt, |number| call_on_book(rt, call, number))
}
