//! The faults of scripts, and the texts and statuses of all.

use crate::tests::answers::{
    ENGINES, Engine, assert_length, assert_told, fault_of, script_fault, written,
};
use crate::tests::comparison::assert_same;
use crate::tests::scripts::{BOOK, script};
use chi_engine::EngineFault;
use chi_fields::RegionFault;
use chi_history::OpenFault;
use chi_requester::WorkFault;
use chi_script::{Member, ScriptFault, WriteFault};
use std::process::Abort;
use std::sync::Wait;
use std::test::Fail;
use std::thread::Threads;

// A request of requester 3 that reads the first eight bytes.
const READ_OF_THREE: &str =
    "{\"src\":3,\"txn\":0,\"op\":4,\"size\":3,\"addr\":4096,\"endian\":0,\"be\":0,\"lanes\":\"00000000000000000000000000000000\"}";

// The text is refused by this fault of the script, which is reported by this text with status 3.
fn assert_refused<T: AllocGlobal + Abort + Threads + Wait + Sync>(
    rt: &T,
    engine: Engine,
    script: &str,
    want: ScriptFault,
    text: &str,
) -> Result<(), Fail> {
    let fault = fault_of(rt, engine, &BOOK, script.as_bytes());
    assert_same(&rt, script_fault(&fault), Some(want));
    assert_told(rt, &fault, text, 3)
}

const NOT_JSON: &str = "script is not JSON";

const PAST_ADDRESSES: &str = "script region is refused: EndPastAddresses";

// Scripts that are refused, by which fault, and its text.
const REFUSED: [(&str, ScriptFault, &str); 9] = [
    (
        "{\"base\":4096,\"granules\":8,\"requests\":[]",
        ScriptFault::NotJson,
        NOT_JSON,
    ),
    ("", ScriptFault::NotJson, NOT_JSON),
    ("[]", ScriptFault::NotObject, "script is not an object"),
    (
        "{}",
        ScriptFault::Missing(Member::Base),
        "script member base is missing",
    ),
    (
        "{\"base\":\"4096\",\"granules\":8,\"requests\":[]}",
        ScriptFault::BadMember(Member::Base),
        "script member base is not as stated",
    ),
    (
        "{\"base\":4096,\"granules\":513,\"requests\":[]}",
        ScriptFault::RegionRefused(RegionFault::GranuleCount),
        "script region is refused: GranuleCount",
    ),
    (
        "{\"base\":4097,\"granules\":0,\"requests\":[]}",
        ScriptFault::RegionRefused(RegionFault::BaseNotLineAligned),
        "script region is refused: BaseNotLineAligned",
    ),
    (
        "{\"base\":4503599627370496,\"granules\":1,\"requests\":[]}",
        ScriptFault::RegionRefused(RegionFault::EndPastAddresses),
        PAST_ADDRESSES,
    ),
    (
        "{\"base\":4503599627370432,\"granules\":9,\"requests\":[]}",
        ScriptFault::RegionRefused(RegionFault::EndPastAddresses),
        PAST_ADDRESSES,
    ),
];

#[test]
fn script_faults(rt: HostRuntime) -> Result<(), Fail> {
    for (script, want, text) in &REFUSED {
        for engine in &ENGINES {
            assert_refused(&rt, *engine, script, *want, text)?;
        }
    }
    Ok(())
}

#[test]
fn script_faults_of_the_last_line(rt: HostRuntime) -> Result<(), Fail> {
    let last = "{\"base\":4503599627370432,\"granules\":8,\"requests\":[]}";
    assert_length(&rt, Engine::Run, last.as_bytes(), 288)
}

#[test]
fn script_faults_of_a_third_requester(rt: HostRuntime) -> Result<(), Fail> {
    let text = script(&rt, &[READ_OF_THREE])?;
    written(&rt, Engine::Run, &BOOK, text.as_bytes())?;
    assert_refused(
        &rt,
        Engine::Race,
        text.as_str(),
        ScriptFault::BadMember(Member::Src),
        "script member src is not as stated",
    )
}

#[test]
fn script_faults_of_too_many_requests(rt: HostRuntime) -> Result<(), Fail> {
    let requests = [READ_OF_THREE; 4_097];
    let most = script(&rt, &requests[..4_096])?;
    written(&rt, Engine::Run, &BOOK, most.as_bytes())?;
    let more = script(&rt, &requests)?;
    assert_refused(
        &rt,
        Engine::Run,
        more.as_str(),
        ScriptFault::TooManyRequests,
        "script has over 4096 requests",
    )
}

#[test]
fn fault_texts_and_statuses(rt: HostRuntime) -> Result<(), Fail> {
    let no_memory = "no memory";
    let unwritten = "output could not be written";
    let faults = [
        (EngineFault::Read, "input could not be read", 5),
        (EngineFault::TooLong, "script is over 4194304 bytes", 3),
        (EngineFault::Memory, no_memory, 4),
        (EngineFault::Script(ScriptFault::Memory), no_memory, 4),
        (
            EngineFault::Open(OpenFault::RequesterCount),
            "requester count is refused",
            3,
        ),
        (
            EngineFault::Open(OpenFault::AttemptCount),
            "attempt count is refused",
            3,
        ),
        (
            EngineFault::Open(OpenFault::NotOneLine),
            "region is over one line",
            3,
        ),
        (EngineFault::Open(OpenFault::Memory), no_memory, 4),
        (EngineFault::Work(WorkFault::Memory), no_memory, 4),
        (EngineFault::Write(WriteFault::Failed), unwritten, 5),
        (EngineFault::Write(WriteFault::Stuck), unwritten, 5),
    ];
    for (fault, text, status) in &faults {
        assert_told(&rt, fault, text, *status)?;
    }
    Ok(())
}
