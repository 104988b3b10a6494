//! Tests of what requests tell.

use crate::tests::flits::{
    COMP, COMP_DBID, COMPARE, DATA, DBID, LOAD_ADD, READ, Told, WRITE, WRITE_FULL, answer,
    assert_told, bytes, exclusive, quarter, request, response, sent,
};
use std::test::Fail;

#[test]
fn operations_of_a_wide_read(rt: HostRuntime) -> Result<(), Fail> {
    let kinds = [request(0, READ, 5, 0x1020)];
    let wanted = [
        Told::Request(0, READ, 3, 0x1020),
        Told::Request(1, READ, 3, 0x1028),
        Told::Request(2, READ, 3, 0x1030),
        Told::Request(3, READ, 3, 0x1038),
    ];
    assert_told(&rt, &kinds, &wanted)
}

#[test]
fn aligned_bytes_of_a_write(rt: HostRuntime) -> Result<(), Fail> {
    let kinds = [request(0, WRITE, 2, 0x1006), request(1, WRITE, 4, 0x102c)];
    let wanted = [
        Told::Request(0, WRITE, 2, 0x1004),
        Told::Request(8, WRITE, 3, 0x1020),
        Told::Request(9, WRITE, 3, 0x1028),
    ];
    assert_told(&rt, &kinds, &wanted)
}

#[test]
fn sizes_of_atomics(rt: HostRuntime) -> Result<(), Fail> {
    let kinds = [
        request(0, LOAD_ADD, 3, 0x1008),
        request(1, COMPARE, 4, 0x1008),
        request(2, COMPARE, 1, 0x1001),
    ];
    let wanted = [
        Told::Request(0, LOAD_ADD, 3, 0x1008),
        Told::Request(8, COMPARE, 4, 0x1008),
        Told::Request(16, COMPARE, 1, 0x1001),
    ];
    assert_told(&rt, &kinds, &wanted)
}

#[test]
fn an_atomic_is_never_exclusive(rt: HostRuntime) -> Result<(), Fail> {
    let kinds = [exclusive(0, LOAD_ADD, 3, 0x1008)];
    assert_told(&rt, &kinds, &[Told::Request(0, LOAD_ADD, 3, 0x1008)])
}

#[test]
fn requests_that_are_not_told(rt: HostRuntime) -> Result<(), Fail> {
    let kinds = [
        exclusive(0, READ, 3, 0x1000),
        exclusive(1, WRITE, 3, 0x1048),
        request(2, READ, 3, 0x1004),
        request(3, LOAD_ADD, 4, 0x1080),
        request(4, LOAD_ADD, 3, 0x10c4),
        request(5, COMPARE, 0, 0x1100),
        request(6, WRITE_FULL, 5, 0x1140),
        request(7, WRITE, 7, 0x1180),
        request(8, 0x0d, 6, 0x11c0),
        request(9, 0x18, 6, 0x1208),
    ];
    let wanted = [
        Told::Unknown(0x1040),
        Told::Unknown(0x1080),
        Told::Unknown(0x10c0),
        Told::Unknown(0x1100),
        Told::Unknown(0x1140),
        Told::Unknown(0x1180),
        Told::Unknown(0x1200),
    ];
    assert_told(&rt, &kinds, &wanted)
}

#[test]
fn what_follows_a_request_that_is_not_told(rt: HostRuntime) -> Result<(), Fail> {
    let kinds = [
        exclusive(0, WRITE, 3, 0x1000),
        response(0, COMP_DBID, 5),
        response(0, COMP, 0),
        request(0, READ, 3, 0x1000),
        sent(5, DATA, quarter(0, bytes(0xff, 1))),
        sent(5, DATA, quarter(0, bytes(0xff, 2))),
        request(1, WRITE, 3, 0x1000),
        response(1, DBID, 5),
    ];
    let wanted = [
        Told::Unknown(0x1000),
        Told::Request(24, READ, 3, 0x1000),
        Told::Request(48, WRITE, 3, 0x1000),
    ];
    assert_told(&rt, &kinds, &wanted)
}

#[test]
fn credits_and_prefetches_take_no_transaction(rt: HostRuntime) -> Result<(), Fail> {
    let kinds = [
        request(0, READ, 3, 0x1000),
        request(0, 0x05, 0, 0),
        request(0, 0x00, 0, 0),
        request(0, 0x3a, 6, 0x1000),
        answer(0, quarter(0, bytes(0, 0x11))),
    ];
    let wanted = [
        Told::Request(0, READ, 3, 0x1000),
        Told::CompData(0, 0x1111_1111_1111_1111),
    ];
    assert_told(&rt, &kinds, &wanted)
}
