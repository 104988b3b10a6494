//! Readers and writers that fail at each of their calls, and those of one byte a call.

use crate::tests::answers::{Engine, execute};
use crate::tests::comparison::assert_same;
use crate::tests::devices::{End, ShortReader, ShortWriter, assert_cut, assert_never_read};
use crate::tests::scripts::{FETCH_ADD_SCRIPT, FETCH_ADD_TRANSCRIPT, STORES};
use chi_engine::Options;
use chi_script::WriteFault;
use std::process::Abort;
use std::sync::Wait;
use std::test::Fail;
use std::thread::Threads;

// Devices of one byte a call do as well as any.
fn assert_by_bytes<T: AllocGlobal + Abort + Threads + Wait + Sync>(
    rt: &T,
    engine: Engine,
    options: &Options,
) -> Result<(), Fail> {
    let mut to = ShortWriter {
        taken: Vec::new(rt.alloc()),
        room: usize::MAX,
        at_once: 1,
        end: End::Fault,
    };
    let mut from = ShortReader {
        text: FETCH_ADD_SCRIPT.as_bytes(),
        left: usize::MAX,
        at_once: 1,
    };
    execute(rt, engine, options, &mut from, &mut to)?;
    assert_same(&rt, to.taken.as_slice(), FETCH_ADD_TRANSCRIPT.as_bytes());
    Ok(())
}

// Each writer that ends early, by a fault or by taking no byte.
fn assert_each_cut<T: AllocGlobal + Abort + Threads + Wait + Sync>(
    rt: &T,
    engine: Engine,
    options: &Options,
) {
    let whole = FETCH_ADD_TRANSCRIPT.as_bytes();
    for room in 0..whole.len() {
        let bytes = &whole[..room];
        let (fails, sticks) = (
            (End::Fault, WriteFault::Failed),
            (End::Stuck, WriteFault::Stuck),
        );
        assert_cut(rt, engine, options, fails, bytes);
        assert_cut(rt, engine, options, sticks, bytes);
    }
}

// Every device, by a run or a race.
fn assert_devices<T: AllocGlobal + Abort + Threads + Wait + Sync>(
    rt: &T,
    engine: Engine,
) -> Result<(), Fail> {
    assert_same(&rt, FETCH_ADD_TRANSCRIPT.len(), 367);
    for options in &STORES {
        assert_each_cut(rt, engine, options);
        assert_never_read(rt, engine, options, 1);
        assert_by_bytes(rt, engine, options)?;
    }
    Ok(())
}

#[test]
fn hostile_devices(rt: HostRuntime) -> Result<(), Fail> {
    assert_devices(&rt, Engine::Run)
}

#[test]
fn hostile_devices_of_a_race(rt: HostRuntime) -> Result<(), Fail> {
    assert_devices(&rt, Engine::Race)
}
