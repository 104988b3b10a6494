//! The requests that are outstanding where the input ends, and what each waits for.

use crate::tests::comparison::assert_same;
use crate::tests::events::{GOING, STOPPING, answer, watched};
use crate::tests::flits::FLITS;
use chi_watch_text::WatchOptions;
use std::test::Fail;

// An AtomicStore ADD whose data are not told; a read; and a write with its data.
const HANGING: &str =
    r#"{"time":5,"event":"request","id":1,"src":9,"txn":300,"op":40,"size":2,"addr":4100,"endian":0}
{"time":6,"event":"request","id":0,"src":10,"txn":7,"op":4,"size":3,"addr":4096,"endian":0}
{"time":6,"event":"request","id":3,"src":11,"txn":1,"op":28,"size":0,"addr":4104,"endian":0,"be":256,"lanes":"00000000000000000500000000000000"}
"#;

// The reply to the AtomicStore, whose data are still to come; and the data of the write once more, whose reply is.
const REPLY: &str = r#"{"time":7,"event":"reply","id":1,"reply":"comp"}
"#;

// That memory held 6, though it was 5 at first: a read of it that is found.
const FOUND: &str =
    r#"{"time":8,"event":"request","id":4,"src":0,"txn":0,"op":4,"size":3,"addr":4112,"endian":0}
{"time":9,"event":"reply","id":4,"reply":"06000000000000000000000000000000"}
{"time":10,"event":"word","addr":8192,"bytes":"0000000000000000"}
"#;

// What is said of the three.
const THREE: &str =
    "    line 1 since 5: 9 300 28 AtomicStore.ADD 2 0000000000001004 waits for its data
    line 2 since 6: 10 7 04 ReadNoSnp 3 0000000000001000 waits for its reply
    line 3 since 6: 11 1 1c WriteNoSnpPtl 0 0000000000001008 waits for its reply
";

// The end of an answer, from how many operations ended on.
fn assert_end<R: AllocGlobal + std::process::Abort>(
    rt: &R,
    texts: &[&str],
    options: &WatchOptions,
    waiting: &str,
    (ended, outstanding, granules): (u64, u64, u64),
) -> Result<(), Fail> {
    let text = answer(rt.alloc(), texts, options)?;
    let wanted = format!(in rt.alloc();
        "  operations that ended: {ended}
  requests outstanding: {outstanding}
{waiting}  granules: {granules}
  granules not judged: 0
"
    )?;
    let end = match text.as_str().find("  operations that ended: ") {
        Some(at) => &text.as_str()[at..],
        None => "",
    };
    assert_same(rt, end, wanted.as_str());
    Ok(())
}

#[test]
fn events(rt: HostRuntime) -> Result<(), Fail> {
    assert_end(&rt, &[HANGING], &STOPPING, THREE, (0, 3, 2))?;
    assert_end(&rt, &[HANGING, REPLY], &STOPPING, THREE, (0, 3, 2))
}

// Where it stops at a granule the lines do not end there, so what is outstanding may be answered.
#[test]
fn where_it_stops(rt: HostRuntime) -> Result<(), Fail> {
    assert_end(&rt, &[HANGING, FOUND], &STOPPING, "", (1, 3, 3))?;
    assert_end(&rt, &[HANGING, FOUND], &GOING, THREE, (1, 3, 4))
}

// Four writes of 16 bytes and a read: the first has no DBID; the second has one, and no data; the third has its data, and no Comp; the
// fourth is answered, and its TxnID taken again by the read. A write of 16 bytes is two operations.
const PORT: &str =
    r#"{"time":1,"channel":"REQ","src":"03","txn":"01","opcode":"1c","size":"3","addr":"0000000001000"}
{"time":2,"channel":"REQ","src":"03","txn":"02","opcode":"1c","size":"3","addr":"0000000001008"}
{"time":3,"channel":"REQ","src":"03","txn":"03","opcode":"1c","size":"4","addr":"0000000001010"}
{"time":4,"channel":"REQ","src":"03","txn":"04","opcode":"1c","size":"3","addr":"0000000001020"}
{"time":5,"channel":"RSP","tgt":"03","txn":"02","opcode":"6","resp_err":"0","dbid":"00"}
{"time":5,"channel":"RSP","tgt":"03","txn":"03","opcode":"6","resp_err":"0","dbid":"01"}
{"time":6,"channel":"RSP","tgt":"03","txn":"04","opcode":"5","resp_err":"0","dbid":"02"}
{"time":7,"channel":"REQ","src":"03","txn":"04","opcode":"04","size":"3","addr":"0000000001020"}
{"time":8,"channel":"WDAT","src":"03","txn":"01","opcode":"3","data_id":"1","be":"ffff","data":"00000000000000000000000000000000"}
{"time":9,"event":"end"}
"#;

#[test]
fn flits(rt: HostRuntime) -> Result<(), Fail> {
    let waiting = "    line 1 since 1: 3 1 1c WriteNoSnpPtl 3 0000000000001000 waits for its DBID
    line 2 since 2: 3 2 1c WriteNoSnpPtl 3 0000000000001008 waits for its data
    line 3 since 3: 3 3 1c WriteNoSnpPtl 3 0000000000001010 waits for its reply
    line 3 since 3: 3 3 1c WriteNoSnpPtl 3 0000000000001018 waits for its reply
    line 4 since 4: 3 4 1c WriteNoSnpPtl 3 0000000000001020 waits for its data
    line 8 since 7: 3 4 04 ReadNoSnp 3 0000000000001020 waits for its reply
";
    assert_end(&rt, &[PORT], &FLITS, waiting, (0, 6, 5))
}

// Of 17 requests that are outstanding the first 16 are listed.
#[test]
fn sixteen(rt: HostRuntime) -> Result<(), Fail> {
    let mut text = String::new(rt.alloc());
    for number in 0..17u64 {
        text.push_str(format!(in rt.alloc();
            "{{\"time\":{number},\"event\":\"request\",\"id\":{number},\"src\":0,\"txn\":0,\"op\":4,\"size\":3,\"addr\":4096,\"endian\":0}}\n"
        )?.as_str())?;
    }
    let watched = watched(rt.alloc(), &[text.as_str()], &STOPPING)?;
    let last = watched
        .waiting
        .last()
        .map(|it| (it.fields.number, it.since));
    assert_same(
        &rt,
        (watched.counts.outstanding, watched.waiting.len(), last),
        (17, 16, Some((16, 15))),
    );
    Ok(())
}
