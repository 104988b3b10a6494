//! The locked store on outside examples.

ghost use Rattle.std.specs.Prelude.{◌≡◌, length, IsTrue};
ghost use Rattle.chi_fields.specs.Extent.{lies_in};

use crate::tests::comparison::assert_same;
use chi_fields::{Access, Region, Request, decode};
use chi_history::{Gate, Home, NoGate, OpenFault, Served};
use chi_lanes::Reply;
use chi_lockstore::LockStore;
use chi_samples::plain_request;
use std::process::Abort;
use std::sync::Wait;
use std::test::Fail;

mod allocators;
mod cases;
mod threads;

const LOAD_ADD: u8 = 0x30;

const SWAP: u8 = 0x38;

// A little-endian request of requester 0 at 0x1000.
fn request(opcode: u8, size: u8, be: u16, lanes: [u8; 16]) -> Request {
    plain_request(opcode, size, 0x1000, be, lanes)
}

// A data packet with this byte in lane 0.
fn one_byte(byte: u8) -> [u8; 16] {
    let mut lanes = [0; 16];
    lanes[0] = byte;
    lanes
}

// The access of a request that is accepted.
pub(crate) fn accepted<R: Abort>(rt: &R, request: &Request, region: &Region) -> Access
    ensures { IsTrue (lies_in result.addr result.len region.now) }
{
    decode(request, region)
        .ok()
        .expect(rt, "the request is accepted")
}

// Serves the request for this requester past a gate, and answers its reply.
fn gated_reply_of<H: Home, G: Gate, R: Abort + Wait>(
    rt: &R,
    home: &H,
    seat: &mut H::Seat,
    src: u8,
    request: &Request,
    gate: &mut G,
) -> Reply
    requires { H.belongs home.now seat.old }
    ensures { H.belongs home.now seat.new }
{
    let access = accepted(rt, request, &home.region());
    assert!(rt; home.holds(seat, src));
    match home.serve(rt, seat, src, &access, gate) {
        Served::Done { reply, lost } => {
            assert_same(&rt, lost, 0);
            reply
        }
        Served::Retry { credit, .. } => {
            home.return_credit(credit);
            panic!(rt; "a locked store never retries")
        }
    }
}

// Serves the request for this requester, and answers its reply.
fn reply_of<H: Home, R: Abort + Wait>(
    rt: &R,
    home: &H,
    seat: &mut H::Seat,
    src: u8,
    request: &Request,
) -> Reply
    requires { H.belongs home.now seat.old }
    ensures { H.belongs home.now seat.new }
{
    gated_reply_of(rt, home, seat, src, request, &mut NoGate)
}

// The words of the memory.
fn words_of<H: Home, R: Abort + Wait>(rt: &R, home: &H, seat: &mut H::Seat) -> [u64; 8]
    requires { H.belongs home.now seat.old }
    ensures { H.belongs home.now seat.new }
{
    assert!(rt; home.holds_all(seat));
    assert_eq!(rt; home.region().granules(), 8);
    let mut words = [0xff; 8];
    home.snapshot(rt, seat, &mut words);
    words
}

// The fault of an opening with this image.
fn fault_of<T: AllocGlobal>(
    rt: &T,
    region: Region,
    requesters: u8,
    image: &[u64],
) -> Option<OpenFault>
    requires { length image.now ≡ region.granules }
{
    LockStore::open(rt.alloc(), region, requesters, image).err()
}

#[test]
fn open_refusals(rt: HostRuntime) -> Result<(), Fail> {
    let region = Region::new(0x1000, 8)?;
    let longer = Region::new(0x1000, 9)?;
    let faults = [
        fault_of(&rt, region, 0, &[0; 8]),
        fault_of(&rt, region, 9, &[0; 8]),
        fault_of(&rt, longer, 8, &[0; 9]),
        fault_of(&rt, longer, 9, &[0; 9]),
    ];
    assert_same(
        &rt,
        faults,
        [
            Some(OpenFault::RequesterCount),
            Some(OpenFault::RequesterCount),
            Some(OpenFault::NotOneLine),
            Some(OpenFault::RequesterCount),
        ],
    );
    let (store, seat) = LockStore::open(rt.alloc(), region, 8, &[0; 8])?;
    assert_same(
        &rt,
        (store.holds_all(&seat), store.requesters(), store.region()),
        (true, 8, region),
    );
    Ok(())
}
