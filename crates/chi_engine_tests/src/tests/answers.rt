//! The engine executed on texts, and what it answers to them.

use crate::tests::comparison::assert_same;
use crate::tests::scripts::{BOOK, joined, script};
use chi_engine::{
    EngineFault, Options, engine_race, engine_race_json, engine_run, engine_run_json, engine_trace,
    status_of,
};
use chi_history::NoGate;
use chi_script::ScriptFault;
use std::io::{Read, Write};
use std::process::Abort;
use std::sync::Wait;
use std::test::Fail;
use std::thread::Threads;

// How a script is executed.
#[derive(Clone, Copy)]
pub(crate) enum Engine {
    Run,
    Race,
    RunJson,
    RaceJson,
    Trace,
}

// Those that write transcripts as text.
pub(crate) const ENGINES: [Engine; 2] = [Engine::Run, Engine::Race];

// A run with its transcript or with its trace, or a race without gates.
pub(crate) fn execute<T: AllocGlobal + Threads + Wait + Sync, R: Read, W: Write>(
    rt: &T,
    engine: Engine,
    options: &Options,
    from: &mut R,
    to: &mut W,
) -> Result<(), EngineFault> {
    match engine {
        Engine::Run => engine_run(rt, from, to, options),
        Engine::Race => engine_race(rt, from, to, options, NoGate, NoGate, NoGate, NoGate),
        Engine::RunJson => engine_run_json(rt, from, to, options),
        Engine::RaceJson => {
            let gates: Vec<NoGate> = Vec::new(rt.alloc());
            engine_race_json(rt, from, to, options, gates)
        }
        Engine::Trace => engine_trace(rt, from, to, options),
    }
}

// What is written for a text.
pub(crate) fn written<T: AllocGlobal + Threads + Wait + Sync>(
    rt: &T,
    engine: Engine,
    options: &Options,
    mut text: &[u8],
) -> Result<Vec<u8>, EngineFault> {
    let mut to: Vec<u8> = Vec::new(rt.alloc());
    execute(rt, engine, options, &mut text, &mut to)?;
    Ok(to)
}

// So many bytes are written for a text.
pub(crate) fn assert_length<T: AllocGlobal + Abort + Threads + Wait + Sync>(
    rt: &T,
    engine: Engine,
    text: &[u8],
    length: usize,
) -> Result<(), Fail> {
    let found = written(rt, engine, &BOOK, text)?;
    assert_same(rt, found.len(), length);
    Ok(())
}

// The fault that a text is refused by, with nothing written.
pub(crate) fn fault_of<T: AllocGlobal + Abort + Threads + Wait + Sync>(
    rt: &T,
    engine: Engine,
    options: &Options,
    mut text: &[u8],
) -> EngineFault {
    let mut to: Vec<u8> = Vec::new(rt.alloc());
    let outcome = execute(rt, engine, options, &mut text, &mut to);
    assert_same(rt, ("written", to.len()), ("written", 0));
    outcome.err().expect(rt, "a fault")
}

// The script's own fault.
pub(crate) fn script_fault(fault: &EngineFault) -> Option<ScriptFault> {
    match fault {
        EngineFault::Script(found) => Some(*found),
        _ => None,
    }
}

// The fault of the script that a text is refused by, with nothing written.
pub(crate) fn refusal_of<T: AllocGlobal + Abort + Threads + Wait + Sync>(
    rt: &T,
    engine: Engine,
    options: &Options,
    text: &[u8],
) -> Option<ScriptFault> {
    script_fault(&fault_of(rt, engine, options, text))
}

// The fault is reported by this text, with this status.
pub(crate) fn assert_told<T: AllocGlobal + Abort>(
    rt: &T,
    fault: &EngineFault,
    text: &str,
    status: u8,
) -> Result<(), Fail> {
    let told = format!(in rt.alloc(); "{fault}")?;
    assert_same(&rt, (told.as_str(), status_of(fault)), (text, status));
    Ok(())
}

// This transcript is written for the script.
pub(crate) fn assert_written<T: AllocGlobal + Abort + Threads + Wait + Sync>(
    rt: &T,
    engine: Engine,
    options: &Options,
    script: &str,
    want: &str,
) -> Result<(), Fail> {
    let found = written(rt, engine, options, script.as_bytes())?;
    assert_same(rt, found.as_slice(), want.as_bytes());
    Ok(())
}

// This transcript is written for the script with each of the options.
pub(crate) fn assert_written_by_each<T: AllocGlobal + Abort + Threads + Wait + Sync>(
    rt: &T,
    engine: Engine,
    all: &[Options],
    script: &str,
    want: &str,
) -> Result<(), Fail> {
    for options in all {
        assert_written(rt, engine, options, script, want)?;
    }
    Ok(())
}

// These lines are written for a script of these requests with each of the options.
pub(crate) fn assert_executed<T: AllocGlobal + Abort + Threads + Wait + Sync>(
    rt: &T,
    engine: Engine,
    all: &[Options],
    requests: &[&str],
    want: &[&str],
) -> Result<(), Fail> {
    let text = script(rt, requests)?;
    let want = joined(rt, want, "")?;
    assert_written_by_each(rt, engine, all, text.as_str(), want.as_str())
}
