//! Tests of what data to the home tell.

use crate::tests::flits::{
    CANCEL, COMP, COMP_DBID, DATA, DBID, READ, Told, WRITE, WRITE_FULL, assert_told, bytes,
    failed_sent, quarter, request, response, sent,
};
use chi_flits::Chunk;
use std::test::Fail;

#[test]
fn enabled_bytes_of_a_write(rt: HostRuntime) -> Result<(), Fail> {
    let others = Chunk {
        unknown_be: 0x0f00,
        unknown: 0xffcf,
        ..bytes(0x8030, 0x33)
    };
    let kinds = [
        request(0, WRITE, 2, 0x1004),
        response(0, COMP_DBID, 9),
        sent(9, DATA, quarter(0, others)),
    ];
    let wanted = [
        Told::Request(0, WRITE, 2, 0x1004),
        Told::Comp(0),
        Told::Data(0, 0x0030, 0x3333 << 32),
    ];
    assert_told(&rt, &kinds, &wanted)
}

#[test]
fn data_are_told_once_all_have_come(rt: HostRuntime) -> Result<(), Fail> {
    let kinds = [
        request(0, WRITE, 5, 0x1000),
        response(0, DBID, 9),
        sent(9, DATA, quarter(1, bytes(0x00ff, 0x11))),
        sent(9, DATA, quarter(0, bytes(0xff00, 0x22))),
    ];
    let wanted = [
        Told::Request(0, WRITE, 3, 0x1000),
        Told::Request(1, WRITE, 3, 0x1008),
        Told::Request(2, WRITE, 3, 0x1010),
        Told::Request(3, WRITE, 3, 0x1018),
        Told::Data(0, 0, 0),
        Told::Data(1, 0xff00, 0x2222_2222_2222_2222 << 64),
        Told::Data(2, 0x00ff, 0x1111_1111_1111_1111),
        Told::Data(3, 0, 0),
    ];
    assert_told(&rt, &kinds, &wanted)
}

#[test]
fn full_write_on_a_wide_bus(rt: HostRuntime) -> Result<(), Fail> {
    let all = [Some(bytes(0xffff, 0x11)); 4];
    let kinds = [
        request(0, WRITE_FULL, 6, 0x1000),
        response(0, DBID, 9),
        sent(9, DATA, all),
    ];
    let low = 0x1111_1111_1111_1111;
    let wanted = [
        Told::Request(0, WRITE, 3, 0x1000),
        Told::Request(1, WRITE, 3, 0x1008),
        Told::Request(2, WRITE, 3, 0x1010),
        Told::Request(3, WRITE, 3, 0x1018),
        Told::Request(4, WRITE, 3, 0x1020),
        Told::Request(5, WRITE, 3, 0x1028),
        Told::Request(6, WRITE, 3, 0x1030),
        Told::Request(7, WRITE, 3, 0x1038),
        Told::Data(0, 0x00ff, low),
        Told::Data(1, 0xff00, low << 64),
        Told::Data(2, 0x00ff, low),
        Told::Data(3, 0xff00, low << 64),
        Told::Data(4, 0x00ff, low),
        Told::Data(5, 0xff00, low << 64),
        Told::Data(6, 0x00ff, low),
        Told::Data(7, 0xff00, low << 64),
    ];
    assert_told(&rt, &kinds, &wanted)
}

#[test]
fn cancelled_before_and_after_the_completion(rt: HostRuntime) -> Result<(), Fail> {
    let kinds = [
        request(0, WRITE, 3, 0x1000),
        response(0, DBID, 9),
        sent(9, CANCEL, quarter(0, bytes(0, 0))),
        response(0, COMP, 0),
        request(0, WRITE, 3, 0x1000),
        response(0, COMP_DBID, 9),
        sent(9, CANCEL, quarter(0, bytes(0, 0))),
        request(0, READ, 3, 0x1000),
    ];
    let wanted = [
        Told::Request(0, WRITE, 3, 0x1000),
        Told::Dropped(0),
        Told::Request(32, WRITE, 3, 0x1000),
        Told::Comp(32),
        Told::Dropped(32),
        Told::Request(56, READ, 3, 0x1000),
    ];
    assert_told(&rt, &kinds, &wanted)
}

#[test]
fn data_in_error_may_have_written(rt: HostRuntime) -> Result<(), Fail> {
    let kinds = [
        request(0, WRITE, 4, 0x1010),
        response(0, COMP_DBID, 9),
        failed_sent(9, quarter(1, bytes(0xffff, 1))),
    ];
    let wanted = [
        Told::Request(0, WRITE, 3, 0x1010),
        Told::Request(1, WRITE, 3, 0x1018),
        Told::Comp(0),
        Told::Comp(1),
        Told::Unknown(0x1000),
        Told::Dropped(0),
        Told::Dropped(1),
    ];
    assert_told(&rt, &kinds, &wanted)
}
