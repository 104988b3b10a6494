//! Transcripts as JSON, worked by hand.

use crate::tests::answers::{Engine, assert_written_by_each, refusal_of};
use crate::tests::comparison::assert_same;
use crate::tests::scripts::{BOOK, STORES, joined, script_of};
use chi_script::ScriptFault;
use std::process::Abort;
use std::sync::Wait;
use std::test::Fail;
use std::thread::Threads;

// A read by requester 2 of what 1 adds to, which comes first in the script; an add of 1; and a swap of 1 that is misaligned.
const READ_OF_TWO: &str =
    "{\"src\":2,\"txn\":7,\"op\":4,\"size\":3,\"addr\":4104,\"endian\":0,\"be\":0,\"lanes\":\"00000000000000000000000000000000\"}";

const STORE_OF_ONE: &str =
    "{\"src\":1,\"txn\":8,\"op\":40,\"size\":3,\"addr\":4096,\"endian\":0,\"be\":255,\"lanes\":\"01000000000000000000000000000000\"}";

const SWAP_OF_ONE: &str =
    "{\"src\":1,\"txn\":9,\"op\":56,\"size\":3,\"addr\":4092,\"endian\":1,\"be\":255,\"lanes\":\"00000000000000000000000000000000\"}";

// The lines of these: the members stand in the order of their names.
const READ: &str =
    "{\"addr\":4104,\"be\":0,\"endian\":0,\"lanes\":\"00000000000000000000000000000000\",\"name\":\"ReadNoSnp\",\"op\":4,\
\"reply\":\"00000000000000000000000000000000\",\"size\":3,\"src\":2,\"txn\":7}";

const STORED: &str =
    "{\"addr\":4096,\"be\":255,\"endian\":0,\"lanes\":\"01000000000000000000000000000000\",\"name\":\"AtomicStore.ADD\",\"op\":40,\
\"reply\":\"comp\",\"size\":3,\"src\":1,\"txn\":8}";

const REFUSED: &str =
    "{\"addr\":4092,\"be\":255,\"endian\":1,\"lanes\":\"00000000000000000000000000000000\",\"name\":\"AtomicSwap\",\"op\":56,\
\"refused\":\"Misaligned\",\"size\":3,\"src\":1,\"txn\":9}";

// Over both stores the script of these three is executed with these lines, and leaves 1 in the first of two granules.
fn assert_lines<T: AllocGlobal + Abort + Threads + Wait + Sync>(
    rt: &T,
    engine: Engine,
    lines: [&str; 3],
) -> Result<(), Fail> {
    let script = script_of(rt, "2", &[READ_OF_TWO, STORE_OF_ONE, SWAP_OF_ONE])?;
    let listed = joined(rt, &lines, ",")?;
    let want = format!(in rt.alloc();
        "{{\"base\":4096,\"final\":\"01000000000000000000000000000000\",\"granules\":2,\"requests\":[{listed}]}}"
    )?;
    assert_written_by_each(rt, engine, &STORES, script.as_str(), want.as_str())
}

#[test]
fn run_of_three_requests_as_json(rt: HostRuntime) -> Result<(), Fail> {
    assert_lines(&rt, Engine::RunJson, [READ, STORED, REFUSED])
}

// The lines of 1 come before that of 2.
#[test]
fn race_of_three_requests_as_json(rt: HostRuntime) -> Result<(), Fail> {
    assert_lines(&rt, Engine::RaceJson, [STORED, REFUSED, READ])
}

#[test]
fn json_of_no_script(rt: HostRuntime) -> Result<(), Fail> {
    for engine in [Engine::RunJson, Engine::RaceJson] {
        let fault = refusal_of(&rt, engine, &BOOK, b"[]");
        assert_same(&rt, fault, Some(ScriptFault::NotObject));
    }
    Ok(())
}
