//! Two threads at one store: at the same granule, and each at its own.

ghost use Rattle.std.specs.Prelude.{◌≡◌, true};
ghost use Rattle.chi_history.specs.NumberLists.{has};
ghost use Rattle.chi_bookstore.specs.BookSeats.{IsSeatOf};

use super::{reply_to, request};
use crate::tests::comparison::assert_same;
use chi_bookstore::{BookSeat, BookStore};
use chi_fields::{Region, Request};
use chi_history::Home;
use chi_lanes::Reply;
use std::process::Abort;
use std::sync::Wait;
use std::test::Fail;
use std::thread::{Threads, join};

// A thousand additions of 1 to the first granule: the seat, and how many were done.
fn add_often(home: &BookStore, mut seat: BookSeat, src: u8) -> (BookSeat, u64)
    requires own { IsSeatOf home.now seat }
    requires holds { has seat.numbers src ≡ true }
    ensures own { IsSeatOf home.now result.0 }
    ensures held { has result.0.numbers ≡ has seat.numbers }
{
    let add = request(src, 0x28, 3, 0x00ff, 1);
    let mut done: u64 = 0;
    for _ in 0..1000 {
        if reply_to(home, &mut seat, &add).is_some() {
            done = done.saturating_add(1);
        }
    }
    (seat, done)
}

// Swaps 250 values into the granule of `src`, each marked with `src`: the seat, and how many replies were the
// value before.
fn swap_in_turn(home: &BookStore, mut seat: BookSeat, src: u8) -> (BookSeat, u64)
    requires own { IsSeatOf home.now seat }
    requires holds { has seat.numbers src ≡ true }
    ensures own { IsSeatOf home.now result.0 }
    ensures held { has result.0.numbers ≡ has seat.numbers }
{
    let (addr, be, lane) = if src == 1 {
        (0x1000, 0x00ff, 0)
    } else {
        (0x1008, 0xff00, 8)
    };
    let mut before = [0; 16];
    let mut right: u64 = 0;
    'swaps: for value in 1..=250 {
        let mut lanes = [0; 16];
        lanes[lane] = value;
        lanes[lane + 1] = src;
        let swap = Request {
            addr,
            be,
            lanes,
            ..request(src, 0x38, 3, 0, 0)
        };
        if reply_to(home, &mut seat, &swap) == Some(Reply::CompData(before)) {
            right = right.saturating_add(1);
        }
        before = lanes;
    }
    (seat, right)
}

// What each of two threads does.
#[derive(Clone, Copy)]
enum Task {
    Add,
    Swap,
}

// Does the task by this seat.
fn work(home: &BookStore, seat: BookSeat, src: u8, task: Task) -> (BookSeat, u64)
    requires own { IsSeatOf home.now seat }
    requires holds { has seat.numbers src ≡ true }
    ensures own { IsSeatOf home.now result.0 }
{
    match task {
        Task::Add => add_often(home, seat, src),
        Task::Swap => swap_in_turn(home, seat, src),
    }
}

// Takes both seats back: the words then.
fn rejoined<T: Abort + Wait>(
    rt: &T,
    home: &BookStore,
    seat: &mut BookSeat,
    one: BookSeat,
    two: BookSeat,
) -> [u64; 8]
    requires own { IsSeatOf home.now seat.old }
    requires one_own { IsSeatOf home.now one }
    requires two_own { IsSeatOf home.now two }
    requires line { home.now.values.region.granules ≡ 8 }
{
    home.rejoin(rt, seat, one);
    home.rejoin(rt, seat, two);
    assert!(rt; home.holds_all(seat));
    let mut words = [0; 8];
    home.snapshot(rt, seat, &mut words);
    words
}

// Requesters 1 and 2 do the task at the same time, with so many tries: the words after it, and the counts of both.
fn raced<T: AllocGlobal + Abort + Threads + Wait + Sync>(
    rt: &T,
    attempts: u8,
    task: Task,
) -> Result<([u64; 8], u64, u64), Fail> {
    let region = Region::new(0x1000, 8)?;
    let (home, mut seat) = BookStore::open(rt.alloc(), region, 3, attempts, &[0; 8])?;
    let one = home.split(rt, &mut seat, 1);
    let two = home.split(rt, &mut seat, 2);
    let ((one, ones), (two, twos)) = join(
        rt,
        || -> (BookSeat, u64)
            requires own { IsSeatOf home one }
            requires holds { has one.numbers 1 ≡ true }
            ensures own { IsSeatOf home result.0 }
        { work(&home, one, 1, task) },
        || -> (BookSeat, u64)
            requires own { IsSeatOf home two }
            requires holds { has two.numbers 2 ≡ true }
            ensures own { IsSeatOf home result.0 }
        { work(&home, two, 2, task) },
    );
    Ok((rejoined(rt, &home, &mut seat, one, two), ones, twos))
}

#[test]
fn two_threads_attempt(rt: HostRuntime) -> Result<(), Fail> {
    let (words, ones, twos) = raced(&rt, 4, Task::Add)?;
    assert_same(
        &rt,
        (words[0], ones > 0, twos > 0),
        (ones.saturating_add(twos), true, true),
    );
    Ok(())
}

#[test]
fn two_threads_at_their_own_granules(rt: HostRuntime) -> Result<(), Fail> {
    assert_same(
        &rt,
        raced(&rt, 1, Task::Swap)?,
        ([0x01fa, 0x02fa, 0, 0, 0, 0, 0, 0], 250, 250),
    );
    Ok(())
}
