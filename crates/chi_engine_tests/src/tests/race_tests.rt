//! Races of worked examples.

use crate::tests::answers::{Engine, assert_executed};
use crate::tests::scripts::{SEVEN_ZEROS, SIX_ZEROS, stores_of};
use std::process::Abort;
use std::sync::Wait;
use std::test::Fail;
use std::thread::Threads;

// A swap of 1, an add of 2 elsewhere, and a read of 0 of what 1 wrote.
const THREE_REQUESTERS: [&str; 3] = [
    "{\"src\":1,\"txn\":1,\"op\":56,\"size\":3,\"addr\":4096,\"endian\":0,\"be\":255,\"lanes\":\"11223344556677880000000000000000\"}",
    "{\"src\":2,\"txn\":2,\"op\":40,\"size\":3,\"addr\":4104,\"endian\":0,\"be\":65280,\"lanes\":\"00000000000000000100000000000000\"}",
    "{\"src\":0,\"txn\":3,\"op\":4,\"size\":3,\"addr\":4096,\"endian\":0,\"be\":0,\"lanes\":\"00000000000000000000000000000000\"}",
];

// What every schedule of them writes.
const THREE_TOLD: [&str; 6] = [
    "1 1 38 AtomicSwap 3 0000000000001000 data 00000000000000000000000000000000\n",
    "2 2 28 AtomicStore.ADD 3 0000000000001008 comp\n",
    "0 3 04 ReadNoSnp 3 0000000000001000 data 11223344556677880000000000000000\n",
    "m 0000000000001000 1122334455667788\n",
    "m 0000000000001008 0100000000000000\n",
    SIX_ZEROS,
];

// A swap of each of 1 to 4, on a granule of its own, and a read of 0 of what 4 wrote.
const FIVE_REQUESTERS: [&str; 5] = [
    "{\"src\":1,\"txn\":1,\"op\":56,\"size\":3,\"addr\":4096,\"endian\":0,\"be\":255,\"lanes\":\"01000000000000000000000000000000\"}",
    "{\"src\":2,\"txn\":2,\"op\":56,\"size\":3,\"addr\":4104,\"endian\":0,\"be\":65280,\"lanes\":\"00000000000000000200000000000000\"}",
    "{\"src\":3,\"txn\":3,\"op\":56,\"size\":3,\"addr\":4112,\"endian\":0,\"be\":255,\"lanes\":\"03000000000000000000000000000000\"}",
    "{\"src\":4,\"txn\":4,\"op\":56,\"size\":3,\"addr\":4120,\"endian\":0,\"be\":65280,\"lanes\":\"00000000000000000400000000000000\"}",
    "{\"src\":0,\"txn\":5,\"op\":4,\"size\":3,\"addr\":4120,\"endian\":0,\"be\":0,\"lanes\":\"00000000000000000000000000000000\"}",
];

// What every schedule of them writes.
const FIVE_TOLD: [&str; 13] = [
    "1 1 38 AtomicSwap 3 0000000000001000 data 00000000000000000000000000000000\n",
    "2 2 38 AtomicSwap 3 0000000000001008 data 00000000000000000000000000000000\n",
    "3 3 38 AtomicSwap 3 0000000000001010 data 00000000000000000000000000000000\n",
    "4 4 38 AtomicSwap 3 0000000000001018 data 00000000000000000000000000000000\n",
    "0 5 04 ReadNoSnp 3 0000000000001018 data 00000000000000000400000000000000\n",
    "m 0000000000001000 0100000000000000\n",
    "m 0000000000001008 0200000000000000\n",
    "m 0000000000001010 0300000000000000\n",
    "m 0000000000001018 0400000000000000\n",
    "m 0000000000001020 0000000000000000\n",
    "m 0000000000001028 0000000000000000\n",
    "m 0000000000001030 0000000000000000\n",
    "m 0000000000001038 0000000000000000\n",
];

// The same of 1 to 7, of whom the last come first in the script, and a read of 0 of what 7 wrote.
const EIGHT_REQUESTERS: [&str; 8] = [
    "{\"src\":7,\"txn\":7,\"op\":56,\"size\":3,\"addr\":4144,\"endian\":0,\"be\":255,\"lanes\":\"07000000000000000000000000000000\"}",
    "{\"src\":6,\"txn\":6,\"op\":56,\"size\":3,\"addr\":4136,\"endian\":0,\"be\":65280,\"lanes\":\"00000000000000000600000000000000\"}",
    "{\"src\":5,\"txn\":5,\"op\":56,\"size\":3,\"addr\":4128,\"endian\":0,\"be\":255,\"lanes\":\"05000000000000000000000000000000\"}",
    "{\"src\":4,\"txn\":4,\"op\":56,\"size\":3,\"addr\":4120,\"endian\":0,\"be\":65280,\"lanes\":\"00000000000000000400000000000000\"}",
    "{\"src\":3,\"txn\":3,\"op\":56,\"size\":3,\"addr\":4112,\"endian\":0,\"be\":255,\"lanes\":\"03000000000000000000000000000000\"}",
    "{\"src\":2,\"txn\":2,\"op\":56,\"size\":3,\"addr\":4104,\"endian\":0,\"be\":65280,\"lanes\":\"00000000000000000200000000000000\"}",
    "{\"src\":1,\"txn\":1,\"op\":56,\"size\":3,\"addr\":4096,\"endian\":0,\"be\":255,\"lanes\":\"01000000000000000000000000000000\"}",
    "{\"src\":0,\"txn\":8,\"op\":4,\"size\":3,\"addr\":4144,\"endian\":0,\"be\":0,\"lanes\":\"00000000000000000000000000000000\"}",
];

const EIGHT_TOLD: [&str; 16] = [
    "1 1 38 AtomicSwap 3 0000000000001000 data 00000000000000000000000000000000\n",
    "2 2 38 AtomicSwap 3 0000000000001008 data 00000000000000000000000000000000\n",
    "3 3 38 AtomicSwap 3 0000000000001010 data 00000000000000000000000000000000\n",
    "4 4 38 AtomicSwap 3 0000000000001018 data 00000000000000000000000000000000\n",
    "5 5 38 AtomicSwap 3 0000000000001020 data 00000000000000000000000000000000\n",
    "6 6 38 AtomicSwap 3 0000000000001028 data 00000000000000000000000000000000\n",
    "7 7 38 AtomicSwap 3 0000000000001030 data 00000000000000000000000000000000\n",
    "0 8 04 ReadNoSnp 3 0000000000001030 data 07000000000000000000000000000000\n",
    "m 0000000000001000 0100000000000000\n",
    "m 0000000000001008 0200000000000000\n",
    "m 0000000000001010 0300000000000000\n",
    "m 0000000000001018 0400000000000000\n",
    "m 0000000000001020 0500000000000000\n",
    "m 0000000000001028 0600000000000000\n",
    "m 0000000000001030 0700000000000000\n",
    "m 0000000000001038 0000000000000000\n",
];

// Each script under so many workers, and under more: these have no requests, and no lines.
fn assert_raced<T: AllocGlobal + Abort + Threads + Wait + Sync>(
    rt: &T,
    workers: &[u8],
    requests: &[&str],
    want: &[&str],
) -> Result<(), Fail> {
    for count in workers {
        let all = stores_of(rt, *count);
        assert_executed(rt, Engine::Race, &all, requests, want)?;
    }
    Ok(())
}

#[test]
fn race_of_three_requesters(rt: HostRuntime) -> Result<(), Fail> {
    assert_raced(&rt, &[2, 3, 4, 7], &THREE_REQUESTERS, &THREE_TOLD)
}

// The swap of 1 and the read of 0, with no 2.
#[test]
fn one_worker(rt: HostRuntime) -> Result<(), Fail> {
    let [swap, _, read] = THREE_REQUESTERS;
    let [swapped, _, read_of_it, changed, _, _] = THREE_TOLD;
    let want = [swapped, read_of_it, changed, SEVEN_ZEROS];
    assert_raced(&rt, &[1, 2], &[swap, read], &want)
}

#[test]
fn four_workers(rt: HostRuntime) -> Result<(), Fail> {
    assert_raced(&rt, &[4, 5], &FIVE_REQUESTERS, &FIVE_TOLD)
}

#[test]
fn seven_workers(rt: HostRuntime) -> Result<(), Fail> {
    assert_raced(&rt, &[7], &EIGHT_REQUESTERS, &EIGHT_TOLD)
}
