//! The locked store over allocators other than the global one.

use super::{LOAD_ADD, one_byte, reply_of, request, words_of};
use crate::tests::comparison::assert_same;
use chi_fields::Region;
use chi_history::Home;
use chi_lanes::Reply;
use chi_lockstore::LockStore;
use std::alloc::Allocator;
use std::process::Abort;
use std::sync::Wait;
use std::test::Fail;

// An addition to the first byte, and the words after it.
fn assert_adds<H: Home, R: Abort + Wait>(rt: &R, home: &H, seat: &mut H::Seat)
    requires { H.belongs home.now seat.old }
{
    let add = request(LOAD_ADD, 0, 0x0001, one_byte(0x3c));
    let reply = reply_of(rt, home, seat, 0, &add);
    let words = words_of(rt, home, seat);
    assert_same(
        rt,
        (reply, words),
        (Reply::CompData([0; 16]), [0x3c, 0, 0, 0, 0, 0, 0, 0]),
    );
}

// Opens a store of one requester over any allocator, which adds.
fn assert_opened<A: Allocator + Copy, R: Abort + Wait>(rt: &R, alloc: A) -> Result<(), Fail> {
    let (store, mut seat) = LockStore::open(alloc, Region::new(0x1000, 8)?, 1, &[0; 8])?;
    assert_adds(rt, &store, &mut seat);
    Ok(())
}

#[test]
fn any_allocator(rt: HostRuntime) -> Result<(), Fail> {
    assert_opened(&rt, rt.alloc())
}

#[test]
fn lent_allocator(rt: HostRuntime) -> Result<(), Fail> {
    let alloc = rt.alloc();
    assert_opened(&rt, &alloc)
}
