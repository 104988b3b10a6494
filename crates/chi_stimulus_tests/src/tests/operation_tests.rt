//! Tests that each operation comes.

use crate::tests::comparison::assert_same;
use crate::tests::counts::Counts;
use crate::tests::executed::{number, operations_of, power, script_of, stimulus};
use chi_fields::Kind;
use chi_stimulus::{Mix, Stimulus};
use std::test::Fail;

/// All of 20 kinds and operations, two byte orders, and 16, 8, 4 and 2 lanes of 1, 2, 4 and 8 bytes.
#[test]
fn each_operation_comes(rt: HostRuntime) -> Result<(), Fail> {
    let alloc = rt.alloc();
    for seed in 1..9 {
        let script = script_of(alloc, &stimulus(seed)?)?;
        let mut came = Counts::new(alloc, 256 * 2 * 4 * 16)?;
        for it in operations_of(alloc, &script)? {
            let order = usize::from(it.access.endian());
            let operation = usize::from(it.opcode) * 2 + order;
            let length = operation * 4 + usize::from(power(&it.access));
            came.add(length * 16 + it.access.lane() % 16);
        }
        assert_same(&rt, (seed, came.came()), (seed, 20 * 2 * 30));
    }
    Ok(())
}

/// Writes enable none of their bytes, some and all; with one byte there are no some.
#[test]
fn writes_enable_none_some_and_all(rt: HostRuntime) -> Result<(), Fail> {
    let alloc = rt.alloc();
    let script = script_of(alloc, &stimulus(1)?)?;
    let mut came = Counts::new(alloc, 4 * 3)?;
    for it in operations_of(alloc, &script)? {
        if let Kind::Write = it.access.kind() {
            let enabled = it.access.enables().count_ones() as usize;
            let which = if enabled == 0 {
                0
            } else if enabled < it.access.len() {
                1
            } else {
                2
            };
            came.add(usize::from(power(&it.access)) * 3 + which);
        }
    }
    assert_same(&rt, (came.came(), came.count(1)), (11, 0));
    Ok(())
}

/// Compare values stand in both halves of the window, and are found there in four of ten cases to six.
#[test]
fn compares_match_about_as_often_as_not(rt: HostRuntime) -> Result<(), Fail> {
    let alloc = rt.alloc();
    let script = script_of(alloc, &stimulus(1)?)?;
    let mut came = Counts::new(alloc, 4 * 2 * 2)?;
    for it in operations_of(alloc, &script)? {
        if let Kind::Compare = it.access.kind() {
            let lane = it.access.lane();
            let half = usize::from(lane & it.access.len() != 0);
            let is_found = number(&it.access, it.access.lanes(), lane) == it.found;
            came.add((usize::from(power(&it.access)) * 2 + half) * 2 + usize::from(is_found));
        }
    }
    assert_same(&rt, came.came(), 16);
    let mut matched = 0u64;
    let mut failed = 0u64;
    for place in 0..8 {
        failed = failed.wrapping_add(came.count(2 * place));
        matched = matched.wrapping_add(came.count(2 * place + 1));
    }
    let all = matched.wrapping_add(failed);
    assert_same(
        &rt,
        all / 10 * 4 <= matched && matched <= all / 10 * 6,
        true,
    );
    Ok(())
}

/// Where all are hot each is of the first granule; where only reads are drawn each is one.
#[test]
fn hot_requests_and_mixes(rt: HostRuntime) -> Result<(), Fail> {
    let alloc = rt.alloc();
    let reads = Stimulus {
        hot: 100,
        mix: Mix::named("read=1")?,
        ..stimulus(1)?
    };
    let script = script_of(alloc, &reads)?;
    for it in operations_of(alloc, &script)? {
        assert_same(&rt, (it.access.addr() / 8, it.opcode), (0x1000 / 8, 0x04));
    }
    Ok(())
}
