//! Two requesters at one lock-free home, each on a thread and with a seat of its own.

ghost use Rattle.std.specs.Prelude.{◌≡◌, true, IsTrue};
ghost use Rattle.chi_fields.specs.Extent.{lies_in};

use crate::alone::add_one;
use chi_bookstore::BookStore;
use chi_fields::{Access, Region, decode};
use chi_history::{Home, NoGate, Served};
use std::sync::Wait;
use std::thread::{self, Threads};

// Executes an access a thousand times. After RetryAck it is sent again on its credit, so none is left out.
fn add_often<H: Home, R: Wait>(
    rt: &R,
    home: &H,
    mut seat: H::Seat,
    src: u8,
    access: &Access,
) -> H::Seat
    requires own { H.belongs home.now seat }
    requires holds { H.held seat src ≡ true }
    requires fits { IsTrue (lies_in access.now.addr access.now.len (H.opening home.now).region) }
    ensures own { H.belongs home.now result }
    ensures held { H.held result ≡ H.held seat }
{
    'adds: for _ in 0..1000 {
        match home.serve(rt, &mut seat, src, access, &mut NoGate) {
            Served::Done { reply: _, lost: _ } => {}
            Served::Retry { credit, lost: _ } => {
                home.serve_credited(rt, &mut seat, credit, access);
            }
        }
    }
    seat
}

// Splits off a seat for 1 and one for 2, adds by both at the same time, and takes the seats back.
fn add_at_once<H: Home + Sync, R: Threads + Wait + Sync>(
    rt: &R,
    home: &H,
    seat: &mut H::Seat,
    access: &Access,
)
    requires own { H.belongs home.now seat.old }
    requires one { H.held seat.old 1 ≡ true }
    requires two { H.held seat.old 2 ≡ true }
    requires fits { IsTrue (lies_in access.now.addr access.now.len (H.opening home.now).region) }
    ensures own { H.belongs home.now seat.new }
{
    let one = home.split(rt, seat, 1);
    let two = home.split(rt, seat, 2);
    let (one, two) = thread::join(
        rt,
        move ||
            requires own { H.belongs home.now one }
            requires holds { H.held one 1 ≡ true }
            requires fits { IsTrue (lies_in access.now.addr access.now.len (H.opening home.now).region) }
        { add_often(rt, home, one, 1, access) },
        move ||
            requires own { H.belongs home.now two }
            requires holds { H.held two 2 ≡ true }
            requires fits { IsTrue (lies_in access.now.addr access.now.len (H.opening home.now).region) }
        { add_often(rt, home, two, 2, access) },
    );
    home.rejoin(rt, seat, one);
    home.rejoin(rt, seat, two);
}

// Opens a home, adds by two threads, and prints the words of the memory after them.
pub(crate) fn report<R: AllocGlobal + Print + Threads + Wait + Sync>(rt: &R) -> anyhow::Result<()> {
    let region = Region::new(0x1000, 2)?;
    let access = decode(&add_one(0x1008), &region)?;
    // Requesters 0 to 2, four tries before RetryAck, and a memory of zeros.
    let (home, mut seat) = BookStore::open(rt.alloc(), region, 3, 4, &[0; 2])?;
    add_at_once(rt, &home, &mut seat, &access);
    let mut words = [0; 2];
    // A snapshot needs a seat that holds every number.
    if home.holds_all(&seat) {
        home.snapshot(rt, &mut seat, &mut words);
    }
    println!(rt; "two threads, a thousand adds each: words {words:?}")?;
    Ok(())
}
