//! Texts of traces for the tests, and what is read of them.

use crate::comparison::assert_same;
use chi_reading::{Recorded, read_trace};
use std::process::Abort;

/// A trace of all addresses up to the members of its request: a write of 4 to the eight bytes at 0x1000, without its times and reply.
const OPENING: &str =
    r#"{"requests": [{"src": 1, "txn": 2, "op": 28, "size": 3, "addr": 4096, "endian": 0, "be": 255,
    "lanes": "04000000000000000000000000000000""#;

fn enclosed<R: AllocGlobal + Abort>(rt: &R, before: &str, members: &str, after: &str) -> String {
    format!(in rt.alloc(); "{before}{members}{after}").expect(rt, "memory")
}

/// A trace without requests, with these members besides.
pub(crate) fn without_requests<R: AllocGlobal + Abort>(rt: &R, members: &str) -> String {
    enclosed(rt, "{", members, "\"requests\": []}")
}

/// A trace of all addresses, of one write with these members besides.
pub(crate) fn write_with<R: AllocGlobal + Abort>(rt: &R, members: &str) -> String {
    enclosed(rt, OPENING, members, "}]}")
}

/// The trace that a text is.
pub(crate) fn read<R: AllocGlobal + Abort>(rt: &R, text: &str) -> Recorded {
    match read_trace(rt.alloc(), text.as_bytes()) {
        Ok(recorded) => recorded,
        Err(_) => panic!(*rt; "{text}"),
    }
}

/// Compares the text of the fault of a trace; it is empty where it has none.
pub(crate) fn assert_fault<R: AllocGlobal + Abort>(rt: &R, text: &str, wanted: &str) {
    match read_trace(rt.alloc(), text.as_bytes()) {
        Ok(_) => assert_same(rt, (text, ""), (text, wanted)),
        Err(fault) => {
            let found = format!(in rt.alloc(); "{fault}").expect(rt, "memory");
            assert_same(rt, (text, found.as_str()), (text, wanted));
        }
    }
}
