//! Tests of the calls, by bytes before and after them. Digits of packets and granules are bytes in the order of lanes
//! and of addresses.

use crate::comparison::assert_same;
use crate::{chi_apply, chi_decode, chi_op_name, chi_result_name, chi_serve, chi_version};
use std::test::Fail;

const BASE: u64 = 0x1000;

// What the outputs hold before each call.
const LEFT: [u8; 16] = [0xee; 16];

// Opcode, size, address, 1 for big-endian, byte enables and packet.
type Asked = (u8, u8, u64, u8, u16, u128);

// The result, whether the answer has lanes, and these, of a request served on words.
fn served(words: &mut [u64], asked: Asked) -> (u32, u8, u128) {
    let (opcode, size, addr, endian, be, lanes) = asked;
    let mut reply_lanes = LEFT;
    let mut has_lanes = 0xee;
    let result = chi_serve(
        words,
        BASE,
        opcode,
        size,
        addr,
        endian,
        be,
        &lanes.to_be_bytes(),
        &mut reply_lanes,
        &mut has_lanes,
    );
    (result, has_lanes, u128::from_be_bytes(reply_lanes))
}

// What the answer of a request that is not done leaves.
fn left(number: u32) -> (u32, u8, u128) {
    (number, 0xee, u128::from_be_bytes(LEFT))
}

// The granules that a request leaves in a region of eight of them, of which the first has these bytes and the others 0,
// and what it answers.
fn executed(first: u64, asked: Asked) -> ([u64; 8], (u32, u8, u128)) {
    let mut words = [first.swap_bytes(), 0, 0, 0, 0, 0, 0, 0];
    let answer = served(&mut words, asked);
    for word in &mut words {
        *word = word.swap_bytes();
    }
    (words, answer)
}

#[test]
fn first_fetch_add(rt: HostRuntime) {
    let one = 0x01000000000000000000000000000000;
    assert_same(
        &rt,
        executed(0, (0x30, 3, 0x1000, 0, 0x00ff, one)),
        ([0x0100000000000000, 0, 0, 0, 0, 0, 0, 0], (0, 1, 0)),
    );
}

#[test]
fn byte_smax_umax_add(rt: HostRuntime) {
    let cases = [
        (0x2c, 0x7f000000000000000000000000000000, 0x7f00000000000000),
        (0x2e, 0x7f000000000000000000000000000000, 0x8000000000000000),
        (0x28, 0x80000000000000000000000000000000, 0x0000000000000000),
    ];
    for (opcode, lanes, after) in cases {
        let found = executed(0x8000000000000000, (opcode, 0, 0x1000, 0, 0x0001, lanes));
        let wanted = ([after, 0, 0, 0, 0, 0, 0, 0], (0, 0, 0));
        assert_same(&rt, (opcode, found), (opcode, wanted));
    }
}

#[test]
fn smin_in_both_byte_orders(rt: HostRuntime) {
    let old = 0x80000000000000000000000000000000;
    let sent = 0x00000080000000000000000000000000;
    for (endian, after) in [
        (1, 0x8000000000000000),
        (255, 0x8000000000000000),
        (0, 0x0000008000000000),
    ] {
        let found = executed(0x8000000000000000, (0x35, 2, 0x1000, endian, 0x000f, sent));
        let wanted = ([after, 0, 0, 0, 0, 0, 0, 0], (0, 1, old));
        assert_same(&rt, (endian, found), (endian, wanted));
    }
}

#[test]
fn compare_in_upper_half(rt: HostRuntime) {
    let eight = 0x11223344556677880000000000000000;
    let four = 0xaabbccdd000000000000000000000000;
    assert_same(
        &rt,
        executed(0, (0x39, 4, 0x1008, 0, 0xffff, eight)),
        ([0, 0x1122334455667788, 0, 0, 0, 0, 0, 0], (0, 1, 0)),
    );
    assert_same(
        &rt,
        executed(0, (0x39, 3, 0x1004, 0, 0x00ff, four)),
        ([0x00000000aabbccdd, 0, 0, 0, 0, 0, 0, 0], (0, 1, 0)),
    );
}

#[test]
fn refusals_write_nothing(rt: HostRuntime) {
    let cases = [
        (1, (0x3a, 7, 0x0001, 0, 0, 0)),
        (2, (0x39, 7, 0x1000, 0, 0, 0)),
        (3, (0x39, 5, 0x1000, 0, 0, 0)),
        (4, (0x38, 3, 0x0ffc, 0, 0xff00, 0)),
        (5, (0x38, 3, 0x0ff8, 0, 0xff00, 0)),
        (6, (0x1c, 1, 0x1000, 0, 0x0004, 0)),
        (6, (0x28, 1, 0x1000, 0, 0x0001, 0)),
    ];
    for (result, asked) in cases {
        let found = executed(0x0102030405060708, asked);
        let wanted = ([0x0102030405060708, 0, 0, 0, 0, 0, 0, 0], left(result));
        assert_same(&rt, (result, found), (result, wanted));
    }
}

#[test]
fn faults_of_regions(rt: HostRuntime) {
    let cases = [
        (17, 4097, 0),
        (18, 4096, 0),
        (18, 4096, 65535),
        (19, 4503599627370496, 1),
    ];
    for (result, base, granules) in cases {
        let mut word = 7;
        let mut reply_lanes = LEFT;
        let mut has_lanes = 0xee;
        let lanes = [1; 16];
        let found = chi_apply(
            base,
            granules,
            0x30,
            3,
            base,
            0,
            0x00ff,
            &lanes,
            3,
            &mut word,
            &mut reply_lanes,
            &mut has_lanes,
        );
        assert_same(
            &rt,
            (base, granules, (found, word, has_lanes, reply_lanes)),
            (base, granules, (result, 7, 0xee, LEFT)),
        );
    }
    let found = served(&mut [], (0x30, 3, 0x1000, 0, 0x00ff, 0));
    assert_same(&rt, found, left(18));
}

// More words than a number of granules can say.
#[test]
fn too_many_words(rt: HostRuntime) -> Result<(), Fail> {
    let mut words = Vec::from_elem(rt.alloc(), 0, 65537)?;
    let found = served(&mut words, (0x30, 3, 0x1000, 0, 0x00ff, 1));
    assert_same(&rt, found, left(18));
    Ok(())
}

#[test]
fn decoded_requests(rt: HostRuntime) {
    let cases = [
        ((0x04, 2, 0x100c, 0x0000), (0, 8, 4, 1)),
        ((0x1c, 1, 0x1006, 0x0000), (1, 8, 2, 0)),
        ((0x2d, 0, 0x1001, 0x0002), (2, 5, 1, 0)),
        ((0x30, 3, 0x1038, 0xff00), (3, 0, 8, 7)),
        ((0x38, 2, 0x1008, 0x0f00), (4, 8, 4, 1)),
        ((0x39, 3, 0x1004, 0x00ff), (5, 8, 4, 0)),
    ];
    for ((opcode, size, addr, be), want) in cases {
        let (mut kind, mut op, mut len, mut granule) = (9, 9, 9, 9);
        let result = chi_decode(
            BASE,
            8,
            opcode,
            size,
            addr,
            be,
            &mut kind,
            &mut op,
            &mut len,
            &mut granule,
        );
        assert_same(
            &rt,
            (opcode, addr, result, (kind, op, len, granule)),
            (opcode, addr, 0, want),
        );
    }
}

#[test]
fn names_in_buffers(rt: HostRuntime) {
    let mut buffer = *b"................";
    let length = chi_op_name(0x30, &mut buffer);
    assert_same(&rt, (length, buffer), (14, *b"AtomicLoad.ADD\0."));
    let length = chi_result_name(4, &mut buffer);
    assert_same(&rt, (length, buffer), (10, *b"Misaligned\0ADD\0."));
    let length = chi_result_name(7, &mut buffer);
    assert_same(&rt, (length, buffer), (0, *b"\0isaligned\0ADD\0."));
    let length = chi_result_name(17, &mut buffer);
    assert_same(&rt, (length, buffer), (18, *b"\0isaligned\0ADD\0."));
    let length = chi_version(&mut buffer);
    assert_same(&rt, (length, buffer), (5, *b"0.1.0\0gned\0ADD\0."));
    let mut ten = *b"..........";
    let length = chi_result_name(4, &mut ten);
    assert_same(&rt, (length, ten), (10, *b".........."));
}
