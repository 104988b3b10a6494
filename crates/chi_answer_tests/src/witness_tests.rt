//! Tests of the lines of an order that was found, and of the memory after it.

use crate::answers::text;
use crate::comparison::assert_same;
use std::test::Fail;

// A read of 2 at the last granule, where 1 was told at the opening and an add of 1 has no answer; another word is told.
const UNSEEN_ADD: &str =
    r#"{"image": [{"addr": 4503599627370488, "bytes": "0100000000000000"}, {"addr": 16, "bytes": "00000000000000ff"}],
 "requests": [
    {"src": 1, "txn": 2, "op": 4, "size": 3, "addr": 4503599627370488, "endian": 0, "be": 0,
     "lanes": "00000000000000000000000000000000", "start": 30, "end": 40, "reply": "00000000000000000200000000000000"},
    {"src": 300, "txn": 1000, "op": 48, "size": 3, "addr": 4503599627370488, "endian": 0, "be": 65280,
     "lanes": "00000000000000000100000000000000", "start": 10, "end": 20, "reply": null}]}"#;

// A region of two granules, of which one is written.
const REGION: &str =
    r#"{"base": 4096, "granules": 2, "image": "05000000000000000700000000000000", "requests": [
    {"src": 1, "txn": 1, "op": 28, "size": 3, "addr": 4096, "endian": 0, "be": 255,
     "lanes": "04000000000000000000000000000000", "start": 1, "end": 2, "reply": "comp"}]}"#;

#[test]
fn answer_that_was_not_seen(rt: HostRuntime) -> Result<(), Fail> {
    let found = text(rt.alloc(), UNSEEN_ADD, 1000, true)?;
    let wanted = "explained
300 1000 30 AtomicLoad.ADD 3 000ffffffffffff8 data 00000000000000000100000000000000
1 2 04 ReadNoSnp 3 000ffffffffffff8 data 00000000000000000200000000000000
m 0000000000000010 00000000000000ff
m 000ffffffffffff8 0200000000000000
";
    assert_same(&rt, found.as_str(), wanted);
    Ok(())
}

#[test]
fn memory_of_a_region(rt: HostRuntime) -> Result<(), Fail> {
    let found = text(rt.alloc(), REGION, 1000, true)?;
    let wanted = "explained
1 1 1c WriteNoSnpPtl 3 0000000000001000 comp
m 0000000000001000 0400000000000000
m 0000000000001008 0700000000000000
";
    assert_same(&rt, found.as_str(), wanted);
    Ok(())
}
