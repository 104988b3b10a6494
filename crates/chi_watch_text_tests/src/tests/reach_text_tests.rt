//! The texts of how far a granule can be explained.

use crate::tests::comparison::assert_same;
use crate::tests::events::{FIVE, READ, STOPPING, WRITE, answer, watched, without_lines};
use chi_judge::Reach;
use chi_watch_text::{FoundGranule, WatchOptions};
use std::alloc::Global;
use std::test::Fail;

// A read of address 4096 at time 0 that tells 7.
const SEVEN_AT_0: &str =
    "{\"time\":0,\"event\":\"request\",\"id\":2,\"src\":0,\"txn\":2,\"op\":4,\"size\":3,\"addr\":4096,\"endian\":0}
{\"time\":0,\"event\":\"reply\",\"id\":2,\"reply\":\"07000000000000000000000000000000\"}
";

// A write of 6 that is not completed.
const OPEN_WRITE: &str =
    "{\"time\":1,\"event\":\"request\",\"id\":9,\"src\":3,\"txn\":77,\"op\":28,\"size\":0,\"addr\":4096,\"endian\":0,\"be\":1,\"lanes\":\"06000000000000000000000000000000\"}
";

// Before time 0 there is none, so no words are told, and no time up to which it is explained. The granule holds 0 then.
#[test]
fn time_0(rt: HostRuntime) -> Result<(), Fail> {
    let text = answer(rt.alloc(), &[SEVEN_AT_0], &STOPPING)?;
    assert_same(
        &rt,
        text.as_str(),
        "not explained: granule 0000000000001000
at 0: 0 2 04 ReadNoSnp 3 0000000000001000 answered
  open from 0 to 0: 0 2 04 ReadNoSnp 3 0000000000001000 answered
  the last operations of the granule, from time 0 to 0:
  > line 1 |#                                       |  0 to 0  ReadNoSnp  +0 L8  returned 0700000000000000  requester 0 txn 2
    legal would be:  returned 0000000000000000
    unlike each of these: +0 is 07
  at line 2
  operations that ended: 1
  requests outstanding: 0
  granules: 1
  granules not judged: 0
",
    );
    Ok(())
}

// A read of address 4096 from 5 to 6 that tells 0.
const ZERO_AT_6: &str =
    "{\"time\":5,\"event\":\"request\",\"id\":3,\"src\":0,\"txn\":3,\"op\":4,\"size\":3,\"addr\":4096,\"endian\":0}
{\"time\":6,\"event\":\"reply\",\"id\":3,\"reply\":\"00000000000000000000000000000000\"}
";

// Of a write and a read that ended before the one that is blamed the read is shown, and of the order up to then one operation at most.
// Neither is the write, so no line tells who wrote the wrong byte last.
#[test]
fn one_operation_before(rt: HostRuntime) -> Result<(), Fail> {
    let texts = [WRITE, READ, FIVE, ZERO_AT_6];
    let options = WatchOptions {
        around: 1,
        ..STOPPING
    };
    let text = answer(rt.alloc(), &texts, &options)?;
    assert_same(
        &rt,
        text.as_str(),
        "not explained: granule 0000000000001000
at 6: 0 3 04 ReadNoSnp 3 0000000000001000 answered
  the granule can hold 0500000000000000
  open from 5 to 6: 0 3 04 ReadNoSnp 3 0000000000001000 answered
  explained up to 5
  the last operations of the granule, from time 3 to 6:
    line 3 |==============                          |  3 to 4  ReadNoSnp  +0 L8  returned 0500000000000000  requester 0 txn 2
  > line 5 |                          ##############|  5 to 6  ReadNoSnp  +0 L8  returned 0000000000000000  requester 0 txn 3
    legal would be:  returned 0500000000000000
    unlike each of these: +0 is 00
  at line 6
  operations that ended: 3
  requests outstanding: 0
  granules: 1
  granules not judged: 0
",
    );
    let watched = watched(rt.alloc(), &texts, &options)?;
    let order = match watched.found.first() {
        Some(
            FoundGranule {
                reach: Reach::Stops(stop),
                ..
            },
        ) => stop.order.len(),
        _ => usize::MAX,
    };
    assert_same(&rt, order <= 1, true);
    Ok(())
}

/// What is said of a read that tells 5 while a write of 6 is open, where the words that can be there are told in this order.
fn told_of_five(alloc: Global, first: &str, second: &str) -> Result<String, Fail> {
    let text = format!(in alloc;
        "not explained: granule 0000000000001000
at 4: 0 2 04 ReadNoSnp 3 0000000000001000 answered
  the granule can hold {first}
  the granule can hold {second}
  open from 1 on: 3 77 1c WriteNoSnpPtl 0 0000000000001000 no reply
  open from 3 to 4: 0 2 04 ReadNoSnp 3 0000000000001000 answered
  explained up to 3
  the last operations of the granule, from time 1 to 4:
  > line 2 |                          ##############|  3 to 4  ReadNoSnp      +0 L8  returned 0500000000000000  requester 0 txn 2
    legal would be:  returned {first}
    legal would be:  returned {second}
    unlike each of these: +0 is 05
    line 1 |========================================|  1 on    WriteNoSnpPtl  +0 L1  sent 06  no reply  requester 3 txn 77
  at the end
  operations that ended: 1
  requests outstanding: 1
    line 1 since 1: 3 77 1c WriteNoSnpPtl 0 0000000000001000 waits for its reply
  granules: 1
  granules not judged: 0
"
    )?;
    Ok(text)
}

// The read tells 5, and the write that is open could have left 6 or nothing: it stands in the order before the read, or it does not.
#[test]
fn an_operation_that_stays_open(rt: HostRuntime) -> Result<(), Fail> {
    let alloc = rt.alloc();
    let text = answer(alloc, &[OPEN_WRITE, READ, FIVE], &STOPPING)?;
    let text = without_lines(alloc, &text, "    last written by ")?;
    let one = told_of_five(alloc, "0000000000000000", "0600000000000000")?;
    let other = told_of_five(alloc, "0600000000000000", "0000000000000000")?;
    assert_same(
        &rt,
        text.as_str() == one.as_str() || text.as_str() == other.as_str(),
        true,
    );
    Ok(())
}
