//! Tests of what answers of the home tell.

use crate::tests::flits::{
    COMP, COMP_DBID, COMPARE, DATA, DBID, LOAD_ADD, READ, RETRY_ACK, STORE_ADD, Told, answer,
    assert_told, bytes, error, failed_answer, quarter, request, response, sent,
};
use std::test::Fail;

const EIGHT: u128 = 0x2222_2222_2222_2222;

#[test]
fn wide_read_by_its_flits(rt: HostRuntime) -> Result<(), Fail> {
    let kinds = [
        request(0, READ, 5, 0x1020),
        answer(0, quarter(3, bytes(0, 0x22))),
        failed_answer(0, quarter(2, bytes(0, 0x22))),
        request(0, READ, 0, 0x1021),
    ];
    let wanted = [
        Told::Request(0, READ, 3, 0x1020),
        Told::Request(1, READ, 3, 0x1028),
        Told::Request(2, READ, 3, 0x1030),
        Told::Request(3, READ, 3, 0x1038),
        Told::CompData(2, EIGHT),
        Told::CompData(3, EIGHT << 64),
        Told::Unseen(0),
        Told::Unseen(1),
        Told::Request(24, READ, 0, 0x1021),
    ];
    assert_told(&rt, &kinds, &wanted)
}

#[test]
fn flit_of_a_wide_bus(rt: HostRuntime) -> Result<(), Fail> {
    let mut chunks = quarter(2, bytes(0, 0x22));
    chunks[3] = Some(bytes(0, 0x33));
    let kinds = [request(0, READ, 1, 0x1032), answer(0, chunks)];
    let wanted = [
        Told::Request(0, READ, 1, 0x1032),
        Told::CompData(0, 0x3333 << 16),
    ];
    assert_told(&rt, &kinds, &wanted)
}

#[test]
fn compare_answers_its_operand(rt: HostRuntime) -> Result<(), Fail> {
    let kinds = [
        request(0, COMPARE, 4, 0x1008),
        response(0, DBID, 1),
        sent(1, DATA, quarter(0, bytes(0xffff, 0x44))),
        answer(0, quarter(0, bytes(0, 0x22))),
    ];
    let all = 0x4444_4444_4444_4444_4444_4444_4444_4444;
    let wanted = [
        Told::Request(0, COMPARE, 4, 0x1008),
        Told::Data(0, 0xffff, all),
        Told::CompData(0, EIGHT << 64),
    ];
    assert_told(&rt, &kinds, &wanted)
}

#[test]
fn completions_without_data(rt: HostRuntime) -> Result<(), Fail> {
    let kinds = [
        request(0, STORE_ADD, 3, 0x1000),
        response(0, COMP_DBID, 1),
        request(1, STORE_ADD, 3, 0x1000),
        error(1, COMP, 0),
        request(2, LOAD_ADD, 3, 0x1000),
        error(2, COMP_DBID, 2),
    ];
    let wanted = [
        Told::Request(0, STORE_ADD, 3, 0x1000),
        Told::Comp(0),
        Told::Request(16, STORE_ADD, 3, 0x1000),
        Told::Unseen(16),
        Told::Request(32, LOAD_ADD, 3, 0x1000),
        Told::Unseen(32),
    ];
    assert_told(&rt, &kinds, &wanted)
}

#[test]
fn retry_drops_the_request(rt: HostRuntime) -> Result<(), Fail> {
    let kinds = [
        request(0, READ, 4, 0x1000),
        response(0, RETRY_ACK, 0),
        request(0, READ, 3, 0x1000),
    ];
    let wanted = [
        Told::Request(0, READ, 3, 0x1000),
        Told::Request(1, READ, 3, 0x1008),
        Told::Dropped(0),
        Told::Dropped(1),
        Told::Request(16, READ, 3, 0x1000),
    ];
    assert_told(&rt, &kinds, &wanted)
}
