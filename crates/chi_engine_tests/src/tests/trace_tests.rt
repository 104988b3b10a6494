//! The trace of a small script, worked by hand.

use crate::tests::answers::{Engine, refusal_of, written};
use crate::tests::comparison::assert_same;
use crate::tests::scripts::{BOOK, FETCH_ADD, STORES, script_of};
use chi_script::ScriptFault;
use std::test::Fail;

// A swap whose address is no multiple of eight, and a store of the second granule.
const SWAP_AND_STORE: &str =
    "{\"src\":2,\"txn\":3,\"op\":56,\"size\":3,\"addr\":4092,\"endian\":0,\"be\":255,\"lanes\":\"00000000000000000000000000000000\"},\
{\"src\":1,\"txn\":4,\"op\":43,\"size\":0,\"addr\":4104,\"endian\":1,\"be\":256,\"lanes\":\"00000000000000008000000000000000\"}";

// What is wanted of an add of 1, these two, and the add again: the members stand in the order of their names.
const WANTED: &str =
    "{\"base\":4096,\"final\":\"02000000000000008000000000000000\",\"granules\":2,\"image\":\"00000000000000000000000000000000\",\"requests\":[\
{\"addr\":4096,\"be\":255,\"end\":0,\"endian\":0,\"lanes\":\"01000000000000000000000000000000\",\"op\":48,\"reply\":\"00000000000000000000000000000000\",\"size\":3,\"src\":0,\"start\":0,\"txn\":1},\
{\"addr\":4092,\"be\":255,\"end\":1,\"endian\":0,\"lanes\":\"00000000000000000000000000000000\",\"op\":56,\"refused\":\"Misaligned\",\"size\":3,\"src\":2,\"start\":1,\"txn\":3},\
{\"addr\":4104,\"be\":256,\"end\":2,\"endian\":1,\"lanes\":\"00000000000000008000000000000000\",\"op\":43,\"reply\":\"comp\",\"size\":0,\"src\":1,\"start\":2,\"txn\":4},\
{\"addr\":4096,\"be\":255,\"end\":3,\"endian\":0,\"lanes\":\"01000000000000000000000000000000\",\"op\":48,\"reply\":\"01000000000000000000000000000000\",\"size\":3,\"src\":0,\"start\":3,\"txn\":1}]}";

#[test]
fn trace_of_four_requests(rt: HostRuntime) -> Result<(), Fail> {
    let text = script_of(&rt, "2", &[FETCH_ADD, SWAP_AND_STORE, FETCH_ADD])?;
    for options in &STORES {
        let found = written(&rt, Engine::Trace, options, text.as_bytes())?;
        assert_same(&rt, found.as_slice(), WANTED.as_bytes());
    }
    Ok(())
}

// A granule whose bytes are told.
const IMAGE: &str = "{\"base\":4096,\"granules\":1,\"image\":\"0123456789abcdef\",\"requests\":[]}";

const IMAGE_TRACE: &str =
    "{\"base\":4096,\"final\":\"0123456789abcdef\",\"granules\":1,\"image\":\"0123456789abcdef\",\"requests\":[]}";

#[test]
fn trace_of_no_requests(rt: HostRuntime) -> Result<(), Fail> {
    let found = written(&rt, Engine::Trace, &BOOK, IMAGE.as_bytes())?;
    assert_same(&rt, found.as_slice(), IMAGE_TRACE.as_bytes());
    Ok(())
}

#[test]
fn trace_of_no_script(rt: HostRuntime) -> Result<(), Fail> {
    let fault = refusal_of(&rt, Engine::Trace, &BOOK, b"[]");
    assert_same(&rt, fault, Some(ScriptFault::NotObject));
    Ok(())
}
