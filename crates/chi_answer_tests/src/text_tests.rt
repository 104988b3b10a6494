//! Tests of what is said of traces that are not explained, or not decided.

use crate::answers::text;
use crate::comparison::assert_same;
use std::test::Fail;

// Two adds of 1 that are both told 0, and a write that was still open.
const LOST_UPDATE: &str = r#"{"requests": [
    {"src": 65535, "txn": 256, "op": 48, "size": 3, "addr": 4096, "endian": 0, "be": 255,
     "lanes": "01000000000000000000000000000000", "start": 10, "end": 20, "reply": "00000000000000000000000000000000"},
    {"src": 2, "txn": 7, "op": 48, "size": 3, "addr": 4096, "endian": 0, "be": 255,
     "lanes": "01000000000000000000000000000000", "start": 30, "end": 40, "reply": "00000000000000000000000000000000"},
    {"src": 3, "txn": 8, "op": 28, "size": 3, "addr": 4096, "endian": 0, "be": 255,
     "lanes": "05000000000000000000000000000000", "start": 35}]}"#;

// A write of 6 after one of 4, and 4 at the end.
const FINAL_WORD: &str = r#"{"final": [{"addr": 8, "bytes": "0400000000000000"}], "requests": [
    {"src": 1, "txn": 1, "op": 28, "size": 3, "addr": 8, "endian": 0, "be": 65280,
     "lanes": "00000000000000000400000000000000", "start": 1, "end": 2, "reply": "comp"},
    {"src": 1, "txn": 2, "op": 28, "size": 3, "addr": 8, "endian": 0, "be": 65280,
     "lanes": "00000000000000000600000000000000", "start": 3, "end": 4, "reply": "comp"}]}"#;

// Four writes of a granule, of which the third starts as the first ends, and one beside them of the granule after it.
const FOUR_WRITES: &str = r#"{"requests": [
    {"src": 1, "txn": 1, "op": 28, "size": 3, "addr": 8, "endian": 0, "be": 65280,
     "lanes": "00000000000000000100000000000000", "start": 10, "end": 20, "reply": "comp"},
    {"src": 2, "txn": 1, "op": 28, "size": 3, "addr": 8, "endian": 0, "be": 65280,
     "lanes": "00000000000000000200000000000000", "start": 15, "end": 22, "reply": "comp"},
    {"src": 3, "txn": 1, "op": 28, "size": 3, "addr": 16, "endian": 0, "be": 255,
     "lanes": "03000000000000000000000000000000", "start": 16, "end": 29, "reply": "comp"},
    {"src": 4, "txn": 1, "op": 28, "size": 3, "addr": 8, "endian": 0, "be": 65280,
     "lanes": "00000000000000000400000000000000", "start": 20, "end": 25, "reply": "comp"},
    {"src": 5, "txn": 1, "op": 28, "size": 3, "addr": 8, "endian": 0, "be": 65280,
     "lanes": "00000000000000000500000000000000", "start": 26, "end": 40, "reply": "comp"}]}"#;

#[test]
fn lost_update_beside_an_open_write(rt: HostRuntime) -> Result<(), Fail> {
    let found = text(rt.alloc(), LOST_UPDATE, 1000, false)?;
    let wanted = "not explained: granule 0000000000001000
at 40: 2 7 30 AtomicLoad.ADD 3 0000000000001000 answered
";
    assert_same(&rt, found.starts_with(wanted), true);
    let open = "  open from 30 to 40: 2 7 30 AtomicLoad.ADD 3 0000000000001000 answered
  open from 35 on: 3 8 1c WriteNoSnpPtl 3 0000000000001000 no reply
  explained up to 39 (operations: ";
    assert_same(&rt, found.contains(open), true);
    Ok(())
}

#[test]
fn only_the_end_is_wrong(rt: HostRuntime) -> Result<(), Fail> {
    let found = text(rt.alloc(), FINAL_WORD, 1000, false)?;
    let wanted = "not explained: granule 0000000000000008
at the end: 0400000000000000
  the granule can hold 0600000000000000
";
    assert_same(&rt, found.as_str(), wanted);
    Ok(())
}

// Within one state; within two, where an operation without an end is open; and where all is explained but the last of four.
#[test]
fn undecided_within_so_many_states(rt: HostRuntime) -> Result<(), Fail> {
    for (trace, states, wanted) in &[
        (
            FINAL_WORD,
            1,
            "undecided: granule 0000000000000008 after 1 states
  operations open at most: 1
",
        ),
        (
            LOST_UPDATE,
            2,
            "undecided: granule 0000000000001000 after 2 states
  explained up to 20
  operations open at most: 2
",
        ),
        (
            FOUR_WRITES,
            4,
            "undecided: granule 0000000000000008 after 4 states
  explained up to 25
  operations open at most: 3
",
        ),
    ] {
        let found = text(rt.alloc(), trace, *states, false)?;
        assert_same(&rt, found.as_str(), *wanted);
    }
    Ok(())
}

#[test]
fn explained_in_one_line(rt: HostRuntime) -> Result<(), Fail> {
    let found = text(rt.alloc(), r#"{"requests": []}"#, 0, false)?;
    assert_same(&rt, found.as_str(), "explained\n");
    Ok(())
}

// Two adds of 1 that are both told 0, after which the granule has this word.
static LEFT: [(&str, &str); 2] = [
    (
        r#"{"final": [{"addr": 4096, "bytes": "0200000000000000"}], "requests": [
    {"src": 1, "txn": 1, "op": 48, "size": 3, "addr": 4096, "endian": 0, "be": 255,
     "lanes": "01000000000000000000000000000000", "start": 10, "end": 20, "reply": "00000000000000000000000000000000"},
    {"src": 2, "txn": 7, "op": 48, "size": 3, "addr": 4096, "endian": 0, "be": 255,
     "lanes": "01000000000000000000000000000000", "start": 30, "end": 40, "reply": "00000000000000000000000000000000"}]}"#,
        "  explained up to 39 (operations: 2)
  a legal response of request 1 explains the granule to its end
",
    ),
    (
        r#"{"final": [{"addr": 4096, "bytes": "0100000000000000"}], "requests": [
    {"src": 1, "txn": 1, "op": 48, "size": 3, "addr": 4096, "endian": 0, "be": 255,
     "lanes": "01000000000000000000000000000000", "start": 10, "end": 20, "reply": "00000000000000000000000000000000"},
    {"src": 2, "txn": 7, "op": 48, "size": 3, "addr": 4096, "endian": 0, "be": 255,
     "lanes": "01000000000000000000000000000000", "start": 30, "end": 40, "reply": "00000000000000000000000000000000"}]}"#,
        "  explained up to 39 (operations: 2)
  no legal response of request 1 explains the granule to its end
",
    ),
];

#[test]
fn legal_responses_to_the_end(rt: HostRuntime) -> Result<(), Fail> {
    for (trace, wanted) in &LEFT {
        let found = text(rt.alloc(), trace, 1000, false)?;
        assert_same(&rt, found.ends_with(wanted), true);
    }
    Ok(())
}

// Two adds of 1 that are both told 0, on two granules of a line of 64 bytes and on one of the next line; and one add between them.
const LINES: &str = r#"{"requests": [
    {"src": 1, "txn": 1, "op": 48, "size": 3, "addr": 4096, "endian": 0, "be": 255,
     "lanes": "01000000000000000000000000000000", "start": 10, "end": 20, "reply": "00000000000000000000000000000000"},
    {"src": 2, "txn": 1, "op": 48, "size": 3, "addr": 4096, "endian": 0, "be": 255,
     "lanes": "01000000000000000000000000000000", "start": 30, "end": 40, "reply": "00000000000000000000000000000000"},
    {"src": 1, "txn": 2, "op": 48, "size": 3, "addr": 4104, "endian": 0, "be": 65280,
     "lanes": "00000000000000000100000000000000", "start": 50, "end": 60, "reply": "00000000000000000000000000000000"},
    {"src": 2, "txn": 2, "op": 48, "size": 3, "addr": 4104, "endian": 0, "be": 65280,
     "lanes": "00000000000000000100000000000000", "start": 70, "end": 80, "reply": "00000000000000000000000000000000"},
    {"src": 1, "txn": 3, "op": 48, "size": 3, "addr": 4112, "endian": 0, "be": 255,
     "lanes": "01000000000000000000000000000000", "start": 90, "end": 100, "reply": "00000000000000000000000000000000"},
    {"src": 1, "txn": 4, "op": 48, "size": 3, "addr": 4160, "endian": 0, "be": 255,
     "lanes": "01000000000000000000000000000000", "start": 110, "end": 120, "reply": "00000000000000000000000000000000"},
    {"src": 2, "txn": 4, "op": 48, "size": 3, "addr": 4160, "endian": 0, "be": 255,
     "lanes": "01000000000000000000000000000000", "start": 130, "end": 140, "reply": "00000000000000000000000000000000"}]}"#;

#[test]
fn other_granules_of_the_line(rt: HostRuntime) -> Result<(), Fail> {
    let found = text(rt.alloc(), LINES, 1000, false)?;
    let wanted = "  a legal response of request 1 explains the granule to its end
  also not explained in this line of 64 bytes: 0000000000001008
";
    assert_same(&rt, found.ends_with(wanted), true);
    Ok(())
}
