//! Scripts that are broken: each is refused by the fault's name, by reading and by both engines.

use crate::tests::answers::{
    ENGINES, Engine, assert_length, assert_told, assert_written, fault_of, refusal_of,
};
use crate::tests::comparison::assert_same;
use crate::tests::scripts::{
    BOOK, FETCH_ADD, FETCH_ADD_SCRIPT, FETCH_ADD_TRANSCRIPT, LOCK, joined, script_of,
};
use chi_script::{Member, ScriptFault, read_script};
use std::alloc::AllocError;
use std::process::Abort;
use std::sync::Wait;
use std::test::Fail;
use std::thread::Threads;

// A well-formed request of requester 0, and one whose size is past its bound.
const READ: &str =
    "{\"src\":0,\"txn\":0,\"op\":4,\"size\":3,\"addr\":4096,\"endian\":0,\"be\":0,\"lanes\":\"00000000000000000000000000000000\"}";

const READ_OF_SIZE_EIGHT: &str =
    "{\"src\":0,\"txn\":0,\"op\":4,\"size\":8,\"addr\":4096,\"endian\":0,\"be\":0,\"lanes\":\"00000000000000000000000000000000\"}";

// Reading these bytes, a run and a race of them all answer this fault.
fn assert_refused<T: AllocGlobal + Abort + Threads + Wait + Sync>(
    rt: &T,
    text: &[u8],
    want: ScriptFault,
    what: &str,
) {
    let read = read_script(rt.alloc(), text, 7).err();
    let [run, race] = ENGINES;
    let run = refusal_of(rt, run, &BOOK, text);
    let race = refusal_of(rt, race, &BOOK, text);
    assert_same(rt, (what, [read, run, race]), (what, [Some(want); 3]));
}

// The first fetch-add's script with one part exchanged for another.
fn exchanged<T: AllocGlobal + Abort>(
    rt: &T,
    part: &str,
    other: &str,
) -> Result<String, AllocError> {
    let (before, after) = FETCH_ADD_SCRIPT
        .split_once(part)
        .expect(rt, "the script has the part");
    joined(rt, &[before, after], other)
}

// This part exchanged for the other is not as stated for this member.
fn assert_bad<T: AllocGlobal + Abort + Threads + Wait + Sync>(
    rt: &T,
    part: &str,
    other: &str,
    member: Member,
) -> Result<(), Fail> {
    let text = exchanged(rt, part, other)?;
    assert_refused(rt, text.as_bytes(), ScriptFault::BadMember(member), other);
    Ok(())
}

// The first fetch-add with one part exchanged for another is executed as it was.
fn assert_accepted<T: AllocGlobal + Abort + Threads + Wait + Sync>(
    rt: &T,
    part: &str,
    other: &str,
) -> Result<(), Fail> {
    let text = exchanged(rt, part, other)?;
    for (engine, options) in &[(Engine::Run, BOOK), (Engine::Race, LOCK)] {
        assert_written(rt, *engine, options, text.as_str(), FETCH_ADD_TRANSCRIPT)?;
    }
    Ok(())
}

#[test]
fn hostile_scripts(rt: HostRuntime) -> Result<(), Fail> {
    let text = FETCH_ADD_SCRIPT.as_bytes();
    for length in 0..text.len() {
        let prefix = &text[..length];
        assert_refused(&rt, prefix, ScriptFault::NotJson, "a proper prefix");
    }
    let mut bytes = text.to_vec(rt.alloc())?;
    if let Some(digit) = bytes.get_mut(text.len().saturating_sub(10)) {
        *digit = 0xff;
    }
    let what = "a byte ff in a text";
    assert_refused(&rt, bytes.as_slice(), ScriptFault::NotJson, what);
    Ok(())
}

#[test]
fn hostile_scripts_of_many_levels(rt: HostRuntime) -> Result<(), Fail> {
    let mut nested = [b']'; 256];
    nested[..128].fill(b'[');
    assert_refused(&rt, &nested, ScriptFault::NotJson, "128 deep");
    assert_refused(&rt, &nested[1..255], ScriptFault::NotObject, "127 deep");
    Ok(())
}

const BASE: &str = "\"base\":4096";

const LANES: &str = "\"01000000000000000000000000000000\"";

// Parts of the first fetch-add's script, what each is exchanged for, and the member that is not as stated then.
const EXCHANGED: [(&str, &str, Member); 13] = [
    (BASE, "\"base\":4096.5", Member::Base),
    (BASE, "\"base\":-1", Member::Base),
    (BASE, "\"base\":null", Member::Base),
    ("\"txn\":1", "\"txn\":256", Member::Txn),
    ("\"op\":48", "\"op\":256", Member::Opcode),
    ("\"size\":3", "\"size\":8", Member::Size),
    ("\"endian\":0", "\"endian\":2", Member::Endian),
    ("\"endian\":0", "\"endian\":true", Member::Endian),
    ("\"be\":255", "\"be\":65536", Member::Be),
    (LANES, "\"0100000000000000000000000000000\"", Member::Lanes),
    (
        LANES,
        "\"010000000000000000000000000000000\"",
        Member::Lanes,
    ),
    (LANES, "\"0100000000000000000000000000000g\"", Member::Lanes),
    (FETCH_ADD, "7", Member::Requests),
];

#[test]
fn hostile_scripts_by_one_member(rt: HostRuntime) -> Result<(), Fail> {
    for (part, other, member) in &EXCHANGED {
        assert_bad(&rt, part, other, *member)?;
    }
    assert_accepted(&rt, LANES, "\"010000000000000000ABCDEF00000000\"")?;
    assert_accepted(&rt, BASE, "\"x\":[],\"base\":4096")
}

#[test]
fn hostile_scripts_too_long(rt: HostRuntime) -> Result<(), Fail> {
    let mut text = script_of(&rt, "8", &[])?.into_bytes();
    text.resize(40 + 4_194_265, b' ')?;
    let (most, _) = text.as_slice().split_at(40 + 4_194_264);
    for engine in &ENGINES {
        assert_length(&rt, *engine, most, 288)?;
        let fault = fault_of(&rt, *engine, &BOOK, text.as_slice());
        assert_told(&rt, &fault, "script is over 4194304 bytes", 3)?;
    }
    Ok(())
}

#[test]
fn hostile_scripts_of_too_many_requests(rt: HostRuntime) -> Result<(), Fail> {
    let mut requests = [READ; 4_097];
    let many = script_of(&rt, "65535", &requests)?;
    let refused = ScriptFault::TooManyRequests;
    assert_refused(&rt, many.as_bytes(), refused, "4,097 requests");
    requests[4_096] = READ_OF_SIZE_EIGHT;
    let text = script_of(&rt, "65535", &requests)?;
    let refused = ScriptFault::BadMember(Member::Size);
    let what = "4,097 requests and a bad one";
    assert_refused(&rt, text.as_bytes(), refused, what);
    Ok(())
}
