//! Tests of accesses on the words of granules, by the bytes before and after them and the answers.

use crate::comparison::assert_same;
use chi_fields::{Region, Request, decode};
use chi_lanes::{Reply, apply};
use chi_samples::plain_request;
use std::process::Abort;
use std::test::Fail;

// A request of requester 0 with little-endian data. The digits of `lanes` are the packet, lane 0 first.
fn request(opcode: u8, size: u8, addr: u64, be: u16, lanes: u128) -> Request {
    plain_request(opcode, size, addr, be, lanes.to_be_bytes())
}

// The request with big-endian data.
fn big_endian(request: Request) -> Request {
    Request {
        endian: true,
        ..request
    }
}

// A completion with data, whose digits are the packet, lane 0 first.
fn data(lanes: u128) -> Reply {
    Reply::CompData(lanes.to_be_bytes())
}

// The granule after a request in the region of 8 granules from 0x1000 on, and the answer. The digits of a
// granule are its bytes in the order of their addresses.
fn executed(granule: u64, request: Request) -> Result<(u64, Reply), Fail> {
    let access = decode(&request, &Region::new(0x1000, 8)?)?;
    let (after, reply) = apply(granule.swap_bytes(), &access);
    Ok((after.swap_bytes(), reply))
}

// Compares the granule after a request, and the answer.
fn assert_executed<R: Abort>(
    rt: &R,
    granule: u64,
    request: Request,
    after: u64,
    answer: Reply,
) -> Result<(), Fail> {
    let found = executed(granule, request)?;
    assert_same(
        rt,
        (request.opcode, found),
        (request.opcode, (after, answer)),
    );
    Ok(())
}

// The answer to a request in that region, whose granules are then as it leaves them.
fn executed_in(granules: &mut [u64; 8], request: Request) -> Result<Reply, Fail> {
    let region = Region::new(0x1000, 8)?;
    let access = decode(&request, &region)?;
    let granule = access.granule(&region);
    let (after, reply) = apply(granules[granule].swap_bytes(), &access);
    granules[granule] = after.swap_bytes();
    Ok(reply)
}

// Compares the answer to a request in that region, and its granules after it.
fn assert_executed_in<R: Abort>(
    rt: &R,
    granules: &mut [u64; 8],
    request: Request,
    answer: Reply,
    after: [u64; 8],
) -> Result<(), Fail> {
    let found = executed_in(granules, request)?;
    let opcode = request.opcode;
    assert_same(rt, (opcode, found, *granules), (opcode, answer, after));
    Ok(())
}

#[test]
fn first_fetch_add(rt: HostRuntime) -> Result<(), Fail> {
    let add = request(0x30, 3, 0x1000, 0x00ff, 0x01000000000000000000000000000000);
    let one = data(0x01000000000000000000000000000000);
    assert_executed(&rt, 0, add, 0x0100000000000000, data(0))?;
    assert_executed(&rt, 0x0100000000000000, add, 0x0200000000000000, one)
}

#[test]
fn big_endian_carry(rt: HostRuntime) -> Result<(), Fail> {
    let write = request(0x1c, 1, 0x1006, 0x00c0, 0x000000000000ffff0000000000000000);
    let add = request(0x30, 1, 0x1006, 0x00c0, 0x00000000000000010000000000000000);
    let answer = data(0x000000000000ffff0000000000000000);
    for (add, after) in [(big_endian(add), 0), (add, 0x000000000000ff00)] {
        let written = [0x000000000000ffff, 0, 0, 0, 0, 0, 0, 0];
        let added = [after, 0, 0, 0, 0, 0, 0, 0];
        let mut granules = [0; 8];
        assert_executed_in(&rt, &mut granules, write, Reply::Comp, written)?;
        assert_executed_in(&rt, &mut granules, add, answer, added)?;
    }
    Ok(())
}

#[test]
fn byte_smax_umax_add(rt: HostRuntime) -> Result<(), Fail> {
    let cases = [
        (0x2c, 0x7f000000000000000000000000000000, 0x7f00000000000000),
        (0x2e, 0x7f000000000000000000000000000000, 0x8000000000000000),
        (0x28, 0x80000000000000000000000000000000, 0x0000000000000000),
    ];
    for (opcode, lanes, after) in cases {
        let store = request(opcode, 0, 0x1000, 0x0001, lanes);
        assert_executed(&rt, 0x8000000000000000, store, after, Reply::Comp)?;
    }
    Ok(())
}

#[test]
fn smin_in_both_byte_orders(rt: HostRuntime) -> Result<(), Fail> {
    let least = request(0x35, 2, 0x1000, 0x000f, 0x00000080000000000000000000000000);
    let before = 0x8000000000000000;
    let answer = data(0x80000000000000000000000000000000);
    assert_executed(&rt, before, big_endian(least), before, answer)?;
    assert_executed(&rt, before, least, 0x0000008000000000, answer)
}

#[test]
fn compare_one_byte_upper_half(rt: HostRuntime) -> Result<(), Fail> {
    let compare = request(0x39, 1, 0x1003, 0x000c, 0x00005a00000000000000000000000000);
    assert_executed(&rt, 0, compare, 0x0000005a00000000, data(0))
}

#[test]
fn compare_eight_bytes_upper_half(rt: HostRuntime) -> Result<(), Fail> {
    let compare = request(0x39, 4, 0x1008, 0xffff, 0x11223344556677880000000000000000);
    let after = [0, 0x1122334455667788, 0, 0, 0, 0, 0, 0];
    assert_executed_in(&rt, &mut [0; 8], compare, data(0), after)
}

#[test]
fn compare_four_bytes_upper_half(rt: HostRuntime) -> Result<(), Fail> {
    let compare = request(0x39, 3, 0x1004, 0x00ff, 0xaabbccdd000000000000000000000000);
    assert_executed(&rt, 0, compare, 0x00000000aabbccdd, data(0))
}

#[test]
fn compare_that_differs(rt: HostRuntime) -> Result<(), Fail> {
    let compare = request(0x39, 3, 0x1000, 0x00ff, 0x01000000ffffffff0000000000000000);
    assert_executed(&rt, 0, compare, 0, data(0))
}

#[test]
fn write_of_no_bytes_then_two(rt: HostRuntime) -> Result<(), Fail> {
    let lanes = 0xa0a1a2a3a4a5a6a70000000000000000;
    let mut granules = [0; 8];
    for (be, after) in [(0x0000, 0), (0x0042, 0x00a100000000a600)] {
        let write = request(0x1c, 3, 0x1000, be, lanes);
        let after = [after, 0, 0, 0, 0, 0, 0, 0];
        assert_executed_in(&rt, &mut granules, write, Reply::Comp, after)?;
    }
    Ok(())
}

// The byte 3c in lane 0.
const SENT: u128 = 0x3c000000000000000000000000000000;

#[test]
fn nine_operations_on_one_byte(rt: HostRuntime) -> Result<(), Fail> {
    let operations = [
        (0x30, 0x2c00000000000000),
        (0x31, 0xc000000000000000),
        (0x32, 0xcc00000000000000),
        (0x33, 0xfc00000000000000),
        (0x34, 0x3c00000000000000),
        (0x35, 0xf000000000000000),
        (0x36, 0xf000000000000000),
        (0x37, 0x3c00000000000000),
        (0x38, 0x3c00000000000000),
    ];
    let before = 0xf0000000000000000000000000000000;
    let write = request(0x1c, 0, 0x1000, 0x0001, before);
    let written = [0xf000000000000000, 0, 0, 0, 0, 0, 0, 0];
    let mut granules = [0; 8];
    for (opcode, after) in operations {
        let load = request(opcode, 0, 0x1000, 0x0001, SENT);
        let after = [after, 0, 0, 0, 0, 0, 0, 0];
        assert_executed_in(&rt, &mut granules, write, Reply::Comp, written)?;
        assert_executed_in(&rt, &mut granules, load, data(before), after)?;
        if opcode < 0x38 {
            let store = request(opcode - 8, 0, 0x1000, 0x0001, SENT);
            assert_executed_in(&rt, &mut granules, write, Reply::Comp, written)?;
            assert_executed_in(&rt, &mut granules, store, Reply::Comp, after)?;
        }
    }
    Ok(())
}

#[test]
fn write_then_read_upper_half(rt: HostRuntime) -> Result<(), Fail> {
    let write = request(0x1c, 3, 0x1008, 0xff00, 0x00000000000000000102030405060708);
    let read = request(0x04, 2, 0x100c, 0, 0);
    let answer = data(0x00000000000000000000000005060708);
    let after = [0, 0x0102030405060708, 0, 0, 0, 0, 0, 0];
    let mut granules = [0; 8];
    assert_executed_in(&rt, &mut granules, write, Reply::Comp, after)?;
    assert_executed_in(&rt, &mut granules, read, answer, after)
}

// A swap in the middle of the upper granule leaves its neighbours and answers what stood there.
#[test]
fn swap_in_upper_half(rt: HostRuntime) -> Result<(), Fail> {
    let swap = request(0x38, 1, 0x100a, 0x0c00, 0x00000000000000000000aabb00000000);
    let answer = data(0x00000000000000000000334400000000);
    assert_executed(&rt, 0x1122334455667788, swap, 0x1122aabb55667788, answer)
}
