//! The locked store in two threads.

use super::{SWAP, one_byte, reply_of, request, words_of};
use crate::tests::comparison::assert_same;
use chi_fields::{Region, Request};
use chi_history::Home;
use chi_lanes::Reply;
use chi_lockstore::LockStore;
use std::process::Abort;
use std::sync::Wait;
use std::test::Fail;
use std::thread::{Threads, join};

const STORE_ADD: u8 = 0x28;

// A hundred times: adds 1 to the first word, and swaps a value of its own into this byte, where the value before
// comes back.
fn add_and_swap<H: Home, R: Abort + Wait>(
    rt: &R,
    home: &H,
    mut seat: H::Seat,
    src: u8,
    addr: u64,
) -> H::Seat
    requires { H.belongs home.now seat }
    ensures { H.belongs home.now result }
{
    let add = request(STORE_ADD, 3, 0x00ff, one_byte(1));
    let mut before = 0;
    'rounds: for round in 1..=100 {
        let added = reply_of(rt, home, &mut seat, src, &add);
        let value = 2 * round + src % 2;
        let swap = Request {
            addr,
            ..request(SWAP, 0, 0x0001, one_byte(value))
        };
        let swapped = reply_of(rt, home, &mut seat, src, &swap);
        assert_same(
            rt,
            (added, swapped),
            (Reply::Comp, Reply::CompData(one_byte(before))),
        );
        before = value;
    }
    seat
}

// Both seats serve at once, each in a thread of its own.
fn serve_in_two_threads<H: Home + Sync, R: Abort + Wait + Threads + Sync>(
    rt: &R,
    home: &H,
    zero: H::Seat,
    one: H::Seat,
) -> (H::Seat, H::Seat)
    requires zero { H.belongs home.now zero }
    requires one { H.belongs home.now one }
    ensures zero { H.belongs home.now result.0 }
    ensures one { H.belongs home.now result.1 }
{
    join(
        rt,
        move || -> H::Seat
            requires { H.belongs home.now zero }
            ensures { H.belongs home.entry.now result }
        { add_and_swap(rt, home, zero, 0, 0x1010) },
        move || -> H::Seat
            requires { H.belongs home.now one }
            ensures { H.belongs home.entry.now result }
        { add_and_swap(rt, home, one, 1, 0x1020) },
    )
}

// The words after a seat of its own for requester 1 has served beside the rest.
fn words_after<H: Home + Sync, R: Abort + Wait + Threads + Sync>(
    rt: &R,
    home: &H,
    mut zero: H::Seat,
) -> [u64; 8]
    requires { H.belongs home.now zero }
{
    assert!(rt; home.holds(&zero, 1));
    let one = home.split(rt, &mut zero, 1);
    let (mut zero, one) = serve_in_two_threads(rt, home, zero, one);
    home.rejoin(rt, &mut zero, one);
    words_of(rt, home, &mut zero)
}

#[test]
fn two_threads_serve(rt: HostRuntime) -> Result<(), Fail> {
    let (store, seat) = LockStore::open(rt.alloc(), Region::new(0x1000, 8)?, 2, &[0; 8])?;
    let words = words_after(&rt, &store, seat);
    assert_same(&rt, words, [200, 0, 200, 0, 201, 0, 0, 0]);
    Ok(())
}
