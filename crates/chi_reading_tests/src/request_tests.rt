//! Tests of the requests of a trace: their order, their times, what was answered, and those that were refused.

use crate::comparison::assert_same;
use crate::texts::{read, write_with};
use chi_fields::Refusal;
use chi_lanes::Reply;
use chi_reading::Recorded;
use chi_trace::Operation;
use std::process::Abort;

/// Two writes, of which the second starts first.
const TWO: &str = r#", "start": 30, "end": 40, "reply": "comp"},
          {"src": 1, "txn": 2, "op": 28, "size": 3, "addr": 4096, "endian": 0, "be": 255,
    "lanes": "04000000000000000000000000000000", "start": 10, "end": 20, "reply": null"#;

// The number, requester, transaction and times of an operation.
fn told_of(operation: Option<&Operation>) -> Option<(u64, u16, u16, u64, u64)> {
    match operation {
        Some(op) => Some((op.number, op.src, op.txn, op.start, op.end)),
        None => None,
    }
}

#[test]
fn requests_in_the_order_of_their_starts(rt: HostRuntime) {
    let recorded = read(&rt, write_with(&rt, TWO).as_str());
    let operations = recorded.trace().operations();
    let found = (told_of(operations.first()), told_of(operations.last()));
    let wanted = (Some((1, 1, 2, 10, 20)), Some((0, 1, 2, 30, 40)));
    assert_same(&rt, found, wanted);
}

// Compares when the write with these members ended, and whether its reply was seen.
fn assert_ended<R: AllocGlobal + Abort>(rt: &R, members: &str, wanted: (u64, bool)) {
    let recorded = read(rt, write_with(rt, members).as_str());
    let found = match recorded.trace().operations().first() {
        Some(op) => Some((op.end, matches!(op.reply, Some(Reply::Comp)))),
        None => None,
    };
    assert_same(rt, (members, found), (members, Some(wanted)));
}

#[test]
fn ends_and_replies(rt: HostRuntime) {
    for (members, wanted) in &[
        (r#", "start": 5, "end": 9, "reply": "comp""#, (9, true)),
        (r#", "start": 5, "end": 9, "reply": null"#, (9, false)),
        (r#", "start": 5, "reply": null"#, (u64::MAX, false)),
        (r#", "start": 5"#, (u64::MAX, false)),
    ] {
        assert_ended(&rt, members, *wanted);
    }
}

/// The first is not aligned, and no request has the opcode of the last. The one between them is the only operation.
const REFUSED: &str = r#", "addr": 4097, "start": 50, "end": 60, "refused": "Misaligned"},
          {"src": 1, "txn": 2, "op": 28, "size": 3, "addr": 4096, "endian": 0, "be": 255,
    "lanes": "04000000000000000000000000000000", "start": 30, "end": 40, "reply": "comp"},
          {"src": 1, "txn": 2, "op": 28, "size": 3, "addr": 4096, "endian": 0, "be": 255,
    "lanes": "04000000000000000000000000000000", "op": 0, "start": 10, "refused": "UnknownOpcode""#;

// Compares the refusals, and the number of operations.
fn assert_left<R: Abort>(rt: &R, recorded: &Recorded, refusals: &[Refusal], operations: usize) {
    let found = (
        recorded.refusals() == refusals,
        recorded.trace().operations().len(),
    );
    assert_same(rt, found, (true, operations));
}

// Compares the number of the first operation.
fn assert_first<R: Abort>(rt: &R, recorded: &Recorded, number: u64) {
    match recorded.trace().operations().first() {
        Some(first) => assert_same(rt, first.number, number),
        None => panic!(*rt; "no operations"),
    }
}

#[test]
fn refused_requests(rt: HostRuntime) {
    let recorded = read(&rt, write_with(&rt, REFUSED).as_str());
    let refusals = [Refusal::Misaligned, Refusal::UnknownOpcode];
    assert_left(&rt, &recorded, &refusals, 1);
    assert_first(&rt, &recorded, 1);
    match recorded.cut(rt.alloc(), 45) {
        Ok(cut) => assert_left(&rt, &cut, &[], 1),
        Err(_) => panic!(rt; "memory"),
    }
}

const TWO_GRANULES: &str = r#"{"final": [{"addr": 4096, "bytes": "0100000000000000"},
          {"addr": 4104, "bytes": "0200000000000000"}],
          "requests": [{"src": 1, "txn": 2, "op": 28, "size": 3, "addr": 4096, "endian": 0, "be": 255,
    "lanes": "04000000000000000000000000000000", "start": 30, "end": 40, "reply": "comp"},
          {"src": 1, "txn": 2, "op": 28, "size": 3, "addr": 4096, "endian": 0, "be": 255,
    "lanes": "04000000000000000000000000000000", "addr": 4104, "be": 65280, "start": 50, "end": 60, "reply": "comp"}]}"#;

// Of a write to each of two granules one is left, with its word at the end.
#[test]
fn one_granule_alone(rt: HostRuntime) {
    match read(&rt, TWO_GRANULES).alone(rt.alloc(), 513) {
        Ok(part) => {
            assert_left(&rt, &part, &[], 1);
            assert_first(&rt, &part, 1);
            let words = (part.final_words().get(513), part.final_words().get(512));
            assert_same(&rt, words, (Some(2), None));
        }
        Err(_) => panic!(rt; "memory"),
    }
}
