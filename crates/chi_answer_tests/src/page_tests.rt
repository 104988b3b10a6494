//! The data of a small page, worked by hand, and what of a trace reaches a page.

use crate::comparison::assert_same;
use chi_judge::{Standing, Stop};
use chi_lanes::Reply;
use chi_page::{Drawn, add_page, are_of_trace};
use chi_reading::read_trace;
use chi_search::Words;
use chi_trace::Operation;
use chi_verdict::Blame;
use std::alloc::{AllocError, Global};
use std::test::Fail;

// Two adds of 1 to the granule at 0x1008 that are both told 0, the second line of them first, and a write that was still open.
const LOST_UPDATE: &str = r#"{"image": [{"addr": 4104, "bytes": "0000000000000000"}], "requests": [
    {"src": 2, "txn": 7, "op": 48, "size": 3, "addr": 4104, "endian": 0, "be": 65280,
     "lanes": "00000000000000000100000000000000", "start": 30, "end": 40, "reply": "00000000000000000000000000000000"},
    {"src": 1, "txn": 1, "op": 48, "size": 3, "addr": 4104, "endian": 0, "be": 65280,
     "lanes": "00000000000000000100000000000000", "start": 10, "end": 20, "reply": "00000000000000000000000000000000"},
    {"src": 3, "txn": 8, "op": 28, "size": 1, "addr": 4110, "endian": 1, "be": 49152,
     "lanes": "00000000000000000000000000000506", "start": 35}]}"#;

// The addition that is blamed, and the write.
const SECOND: &str =
    r#"{"request":0,"src":2,"txn":7,"op":48,"name":"AtomicLoad.ADD","size":3,"addr":"0000000000001008","endian":0,"be":65280,"lanes":"00000000000000000100000000000000","start":"30","end":"40","reply":"00000000000000000000000000000000"}"#;

const OPEN: &str =
    r#"{"request":2,"src":3,"txn":8,"op":28,"name":"WriteNoSnpPtl","size":1,"addr":"000000000000100e","endian":1,"be":49152,"lanes":"00000000000000000000000000000506","start":"35","end":null,"reply":null}"#;

// What follows where the trace stops being explained.
const DATA: &str = r#",
"granules":[{"granule":"0000000000001008","finding":"not explained","opening":"0000000000000000","final":null,"steps":[[0,"0000000000000000","0100000000000000"],
[2,"0100000000000000","0100000000000506"]]},
{"granule":"0000000000002000","finding":"undecided","opening":"0000000000000000","final":null,"steps":[]}],
"operations":[[1,1,1,48,"AtomicLoad.ADD",3,"0000000000001008",0,65280,"00000000000000000100000000000000",8,"10","20","00000000000000000000000000000000"],
[0,2,7,48,"AtomicLoad.ADD",3,"0000000000001008",0,65280,"00000000000000000100000000000000",8,"30","40","00000000000000000000000000000000"],
[2,3,8,28,"WriteNoSnpPtl",1,"000000000000100e",1,49152,"00000000000000000000000000000506",2,"35",null,null]]}
"#;

// A trace with a member that no script has, and whose text would be markup in a page.
const HOSTILE: &str = r#"{"x-</script><img src=x onerror=alert(1)>": "</script><b>", "requests": [
    {"src": 1, "txn": 1, "op": 4, "size": 3, "addr": 4104, "endian": 0, "be": 0, "x-</script>": "<b>",
     "lanes": "00000000000000000000000000000000", "start": 10, "end": 20, "reply": "00000000000000000000000000000000"}]}"#;

// The granule at 0x1008 after the first addition and the write, and one that was not decided.
fn granules(alloc: Global) -> Result<Vec<Drawn>, AllocError> {
    let mut granules = Vec::new(alloc);
    granules.push(Drawn {
        granule: 0x1008 / 8,
        finding: Standing::Unexplained,
        order: Vec::from_slice(alloc, &[0, 2])?,
    })?;
    granules.push(Drawn {
        granule: 0x2000 / 8,
        finding: Standing::Undecided,
        order: Vec::new(alloc),
    })?;
    Ok(granules)
}

// The second addition is blamed, which is the first request of the text.
fn blame(alloc: Global, ops: &[Operation]) -> Result<Blame, Fail> {
    let [_, second, open] = ops else {
        return Err(Fail::new("the trace has not three operations"));
    };
    Ok(Blame {
        granule: 0x1008 / 8,
        stop: Stop {
            time: 40,
            op: *second,
            suspects: Vec::from_slice(alloc, &[*second])?,
            overlapping: Vec::from_slice(alloc, &[*second, *open])?,
            words: Words::Each(Vec::from_slice(alloc, &[1, 0x0605_0000_0000_0001])?),
            before: Vec::new(alloc),
            order: Vec::new(alloc),
            legal: Vec::from_slice(alloc, &[Reply::Comp])?,
        },
        order: Vec::from_slice(alloc, &[0, 2])?,
    })
}

// Where the trace stops being explained, as the page has it.
fn blame_told(alloc: Global) -> Result<String, AllocError> {
    let (second, open) = (SECOND, OPEN);
    format!(in alloc;
        "{{\"blame\":{{\"granule\":\"0000000000001008\",\"time\":\"40\",\"blamed\":{second},\"suspects\":[0],\"open\":[{second},{open}],\
\"words\":[\"0100000000000000\",\"0100000000000506\"],\"legal\":[\"comp\"]}}"
    )
}

#[test]
fn data_of_a_lost_update(rt: HostRuntime) -> Result<(), Fail> {
    let alloc = rt.alloc();
    let recorded = read_trace(alloc, LOST_UPDATE.as_bytes())?;
    let granules = granules(alloc)?;
    if !are_of_trace(&recorded, &granules) {
        return Err(Fail::new("the trace has fewer than three operations"));
    }
    let blame = blame(alloc, recorded.trace().operations())?;
    let mut page = Vec::new(alloc);
    add_page(&mut page, &recorded, &granules, Some(&blame))?;
    let page = String::from_utf8(page)?;
    let told = blame_told(alloc)?;
    assert_same(&rt, page.contains(told.as_str()), true);
    assert_same(&rt, page.contains(DATA), true);
    assert_same(&rt, page.starts_with("<!DOCTYPE html>\n"), true);
    assert_same(&rt, page.ends_with("</html>\n"), true);
    Ok(())
}

#[test]
fn no_text_of_a_trace_reaches_its_page(rt: HostRuntime) -> Result<(), Fail> {
    let alloc = rt.alloc();
    let recorded = read_trace(alloc, HOSTILE.as_bytes())?;
    let mut page = Vec::new(alloc);
    add_page(&mut page, &recorded, &[], None)?;
    let page = String::from_utf8(page)?;
    assert_same(&rt, page.contains("x-<"), false);
    assert_same(&rt, page.contains("<img"), false);
    assert_same(&rt, page.contains("onerror"), false);
    assert_same(&rt, page.matches("</script>").count(), 2);
    Ok(())
}
