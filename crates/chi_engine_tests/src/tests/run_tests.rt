//! Runs of worked examples.

use crate::tests::answers::{Engine, assert_executed};
use crate::tests::comparison::assert_same;
use crate::tests::scripts::{
    FETCH_ADD, FETCH_ADD_TRANSCRIPT, SEVEN_ZEROS, SIX_ZEROS, STORES, script,
};
use std::process::Abort;
use std::sync::Wait;
use std::test::Fail;
use std::thread::Threads;

#[test]
fn first_fetch_add(rt: HostRuntime) -> Result<(), Fail> {
    let want = [FETCH_ADD_TRANSCRIPT];
    assert_executed(&rt, Engine::Run, &STORES, &[FETCH_ADD], &want)
}

#[test]
fn empty_script(rt: HostRuntime) -> Result<(), Fail> {
    let want = ["m 0000000000001000 0000000000000000\n", SEVEN_ZEROS];
    let lengths = (script(&rt, &[])?.len(), want[0].len() + want[1].len());
    assert_same(&rt, lengths, (40, 288));
    assert_executed(&rt, Engine::Run, &STORES, &[], &want)
}

// By either store these two lines are written for the script of two requests, and then the granules, of which the first has these
// bytes and the others 0.
fn assert_two_executed<T: AllocGlobal + Abort + Threads + Wait + Sync>(
    rt: &T,
    requests: [&str; 2],
    lines: [&str; 2],
    first: &str,
) -> Result<(), Fail> {
    let granule = format!(in rt.alloc(); "m 0000000000001000 {first}\n")?;
    let want = [lines[0], lines[1], granule.as_str(), SEVEN_ZEROS];
    assert_executed(rt, Engine::Run, &STORES, &requests, &want)
}

#[test]
fn same_transaction_twice(rt: HostRuntime) -> Result<(), Fail> {
    let lines = [
        "0 1 30 AtomicLoad.ADD 3 0000000000001000 data 00000000000000000000000000000000\n",
        "0 1 30 AtomicLoad.ADD 3 0000000000001000 data 01000000000000000000000000000000\n",
    ];
    assert_two_executed(&rt, [FETCH_ADD, FETCH_ADD], lines, "0200000000000000")
}

#[test]
fn write_of_no_bytes_then_two(rt: HostRuntime) -> Result<(), Fail> {
    let requests = [
        "{\"src\":0,\"txn\":1,\"op\":28,\"size\":3,\"addr\":4096,\"endian\":0,\"be\":0,\"lanes\":\"a0a1a2a3a4a5a6a70000000000000000\"}",
        "{\"src\":0,\"txn\":2,\"op\":28,\"size\":3,\"addr\":4096,\"endian\":0,\"be\":66,\"lanes\":\"a0a1a2a3a4a5a6a70000000000000000\"}",
    ];
    let lines = [
        "0 1 1c WriteNoSnpPtl 3 0000000000001000 comp\n",
        "0 2 1c WriteNoSnpPtl 3 0000000000001000 comp\n",
    ];
    assert_two_executed(&rt, requests, lines, "00a100000000a600")
}

// Byte enables outside the window or not all of it; an address that is not a multiple of the length, and one outside the region.
#[test]
fn refused_requests(rt: HostRuntime) -> Result<(), Fail> {
    for (requests, lines) in [
        (
            [
                "{\"src\":0,\"txn\":1,\"op\":28,\"size\":1,\"addr\":4096,\"endian\":0,\"be\":4,\"lanes\":\"11223344556677889900aabbccddeeff\"}",
                "{\"src\":0,\"txn\":2,\"op\":40,\"size\":1,\"addr\":4096,\"endian\":0,\"be\":1,\"lanes\":\"11223344556677889900aabbccddeeff\"}",
            ],
            [
                "0 1 1c WriteNoSnpPtl 1 0000000000001000 refused BadByteEnable\n",
                "0 2 28 AtomicStore.ADD 1 0000000000001000 refused BadByteEnable\n",
            ],
        ),
        (
            [
                "{\"src\":0,\"txn\":5,\"op\":56,\"size\":3,\"addr\":4092,\"endian\":0,\"be\":255,\"lanes\":\"11223344556677889900aabbccddeeff\"}",
                "{\"src\":0,\"txn\":6,\"op\":56,\"size\":3,\"addr\":4088,\"endian\":0,\"be\":65280,\"lanes\":\"11223344556677889900aabbccddeeff\"}",
            ],
            [
                "0 5 38 AtomicSwap 3 0000000000000ffc refused Misaligned\n",
                "0 6 38 AtomicSwap 3 0000000000000ff8 refused OutOfRegion\n",
            ],
        ),
    ] {
        assert_two_executed(&rt, requests, lines, "0000000000000000")?;
    }
    Ok(())
}

#[test]
fn compare_eight_bytes_upper_half(rt: HostRuntime) -> Result<(), Fail> {
    let requests = [
        "{\"src\":7,\"txn\":9,\"op\":57,\"size\":4,\"addr\":4104,\"endian\":0,\"be\":65535,\"lanes\":\"11223344556677880000000000000000\"}",
    ];
    let want = [
        "7 9 39 AtomicCompare 4 0000000000001008 data 00000000000000000000000000000000\n",
        "m 0000000000001000 0000000000000000\n",
        "m 0000000000001008 1122334455667788\n",
        SIX_ZEROS,
    ];
    assert_executed(&rt, Engine::Run, &STORES, &requests, &want)
}
