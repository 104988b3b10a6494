//! The text of a table.

use crate::tests::comparison::assert_same;
use crate::tests::operations::{add, covered_by, covered_twice, read, small_trace};
use chi_cover::{Covered, Plan, add_table};
use std::alloc::Global;
use std::process::Abort;
use std::test::Fail;

// The lines of a table that are wanted at these places, counted from 0; after the last line there is nothing.
const WANTED: [(usize, &str); 34] = [
    (0, "operations: 2 of 1200"),
    (1, "ReadNoSnp little 1: 0 0 0 0 0 0 0 0 0 0 0 0 0 0 0 0"),
    (8, "ReadNoSnp big 8: 0 0"),
    (15, "WriteNoSnpPtl big 4: 0 1 0 0"),
    (16, "WriteNoSnpPtl big 8: 0 0"),
    (82, "AtomicLoad.ADD little 2: 0 0 1 0 0 0 0 0"),
    (160, "AtomicCompare big 8: 0 0"),
    (161, "compares: 0 of 16"),
    (
        162,
        "AtomicCompare 1: lower matched 0, lower failed 0, upper matched 0, upper failed 0",
    ),
    (
        165,
        "AtomicCompare 8: lower matched 0, lower failed 0, upper matched 0, upper failed 0",
    ),
    (166, "writes: 1 of 11"),
    (167, "WriteNoSnpPtl 1: none 0, all 0"),
    (169, "WriteNoSnpPtl 4: none 0, some 1, all 0"),
    (171, "results: 2 of 68"),
    (173, "AtomicLoad.ADD 2: kept 0, changed sign 1, wrapped 1"),
    (203, "AtomicLoad.UMIN 8: kept 0, changed sign 0"),
    (204, "open at once: 2 of 5"),
    (205, "open 1: 1"),
    (206, "open 2: 1"),
    (207, "open 3 to 4: 0"),
    (209, "open more than 8: 0"),
    (210, "overlaps: 1 of 36"),
    (230, "WriteNoSnpPtl while AtomicLoad was open: 1"),
    (247, "requesters: 1 of 2"),
    (248, "of the same requester: 0"),
    (249, "of another requester: 1"),
    (250, "sequences: 0 of 36"),
    (252, "WriteNoSnpPtl after ReadNoSnp: 0"),
    (287, "line sequences: 0 of 36"),
    (289, "WriteNoSnpPtl after ReadNoSnp on the line: 0"),
    (324, "covered: 9 of 1410 (0%)"),
    (325, "missing: ReadNoSnp, little-endian, 1 byte, lane 0"),
    (
        1653,
        "missing: an overlap with an earlier operation of the same requester",
    ),
    (1726, ""),
];

fn table(alloc: Global, covered: &Covered, goal: u64) -> Result<Vec<u8>, Fail> {
    let mut text = Vec::new(alloc);
    let plan = Plan::of_goal(alloc, goal)?;
    add_table(alloc, &mut text, covered, &plan)?;
    Ok(text)
}

// Ends the test where a text has another line at one of these places, or no line there.
fn assert_lines<R: Abort>(rt: &R, text: &[u8], wanted: &[(usize, &str)]) {
    let mut seen: usize = 0;
    for (place, line) in text.split(|byte| *byte == b'\n').enumerate() {
        for (wanted_place, wanted_line) in wanted {
            if place == *wanted_place {
                assert_same(rt, line, wanted_line.as_bytes());
                seen = seen.saturating_add(1);
            }
        }
    }
    assert_same(rt, seen, wanted.len());
}

#[test]
fn the_table_of_a_small_trace(rt: HostRuntime) -> Result<(), Fail> {
    let alloc = rt.alloc();
    let covered = covered_by(alloc, &small_trace()?)?;
    let text = table(alloc, &covered, 1)?;
    assert_lines(&rt, text.as_slice(), &WANTED);
    Ok(())
}

// Bins that count nothing, by their place among those that count nothing in an empty table.
const MISSING: [(usize, &str); 10] = [
    (324, "covered: 0 of 1410 (0%)"),
    (
        325 + 719,
        "missing: AtomicLoad.CLR, big-endian, 8 bytes, lane 8",
    ),
    (
        325 + 1200,
        "missing: AtomicCompare, 1 byte, compare value in the lower half, matched",
    ),
    (
        325 + 1219,
        "missing: WriteNoSnpPtl, 2 bytes, byte enables: some",
    ),
    (325 + 1227, "missing: AtomicLoad.ADD, 1 byte, kept"),
    (325 + 1294, "missing: AtomicLoad.ADD, 8 bytes, wrapped"),
    (325 + 1299, "missing: open more than 8"),
    (
        325 + 1301,
        "missing: WriteNoSnpPtl while ReadNoSnp was open",
    ),
    (325 + 1338, "missing: ReadNoSnp after ReadNoSnp"),
    (
        325 + 1375,
        "missing: WriteNoSnpPtl after ReadNoSnp on the line",
    ),
];

#[test]
fn the_bins_that_an_empty_table_misses(rt: HostRuntime) -> Result<(), Fail> {
    let alloc = rt.alloc();
    let covered = Covered::new(alloc)?;
    let plan = Plan::of_goal(alloc, 1)?;
    assert_same(&rt, covered.covered(&plan), 0);
    assert_same(&rt, Covered::bins(), 1410);
    assert_same(&rt, covered.percent(&plan), 0);
    let text = table(alloc, &covered, 1)?;
    assert_lines(&rt, text.as_slice(), &MISSING);
    Ok(())
}

// The lines at a goal of two operations, where four bins have counted two and five have counted one: bins that are covered have no
// line `missing`, and those that have counted one say so.
const AT_TWO: [(usize, &str); 23] = [
    (0, "operations: 1 of 1200"),
    (82, "AtomicLoad.ADD little 2: 0 0 2 0 0 0 0 0"),
    (161, "compares: 0 of 16"),
    (166, "writes: 0 of 11"),
    (169, "WriteNoSnpPtl 4: none 0, some 1, all 0"),
    (171, "results: 2 of 68"),
    (173, "AtomicLoad.ADD 2: kept 0, changed sign 2, wrapped 2"),
    (204, "open at once: 1 of 5"),
    (205, "open 1: 2"),
    (206, "open 2: 1"),
    (210, "overlaps: 0 of 36"),
    (247, "requesters: 0 of 2"),
    (250, "sequences: 0 of 36"),
    (287, "line sequences: 0 of 36"),
    (324, "covered: 4 of 1410 (0%), each at least 2"),
    (325, "missing: ReadNoSnp, little-endian, 1 byte, lane 0"),
    (
        325 + 115,
        "missing: WriteNoSnpPtl, big-endian, 4 bytes, lane 4: 1 of 2",
    ),
    (
        325 + 617,
        "missing: AtomicLoad.ADD, little-endian, 2 bytes, lane 2",
    ),
    (
        325 + 618,
        "missing: AtomicLoad.ADD, little-endian, 2 bytes, lane 6",
    ),
    (
        325 + 1221,
        "missing: WriteNoSnpPtl, 4 bytes, byte enables: some: 1 of 2",
    ),
    (325 + 1292, "missing: open 2: 1 of 2"),
    (
        325 + 1333,
        "missing: an overlap with an earlier operation of another requester: 1 of 2",
    ),
    (325 + 1406, ""),
];

#[test]
fn the_table_at_a_goal_of_two_operations(rt: HostRuntime) -> Result<(), Fail> {
    let alloc = rt.alloc();
    let covered = covered_twice(alloc)?;
    let text = table(alloc, &covered, 2)?;
    assert_lines(&rt, text.as_slice(), &AT_TWO);
    Ok(())
}

// Each bin has counted 0 operations and more.
const AT_NOTHING: [(usize, &str); 5] = [
    (0, "operations: 1200 of 1200"),
    (161, "compares: 16 of 16"),
    (205, "open 1: 0"),
    (324, "covered: 1410 of 1410 (100%), each at least 0"),
    (325, ""),
];

#[test]
fn the_table_at_a_goal_of_no_operation(rt: HostRuntime) -> Result<(), Fail> {
    let alloc = rt.alloc();
    let text = table(alloc, &Covered::new(alloc)?, 0)?;
    assert_lines(&rt, text.as_slice(), &AT_NOTHING);
    Ok(())
}

// Reads of one byte, each by itself: two of each of 13 lanes and one of the next. So 15 bins have counted an operation, 14 of them
// two, and one operation was open 27 times. The bins that are 1 percent of 1,410 are 14.1.
#[test]
fn bins_and_percent_at_a_goal(rt: HostRuntime) -> Result<(), Fail> {
    let alloc = rt.alloc();
    let mut covered = Covered::new(alloc)?;
    for lane in 0..13 {
        add(alloc, &mut covered, &[read(0x1000 + lane, 0)?])?;
        add(alloc, &mut covered, &[read(0x1000 + lane, 0)?])?;
    }
    add(alloc, &mut covered, &[read(0x100d, 0)?])?;
    for (goal, bins, percent) in [
        (0, 1410, 100),
        (1, 15, 1),
        (2, 14, 0),
        (3, 1, 0),
        (27, 1, 0),
        (28, 0, 0),
        (u64::MAX, 0, 0),
    ] {
        let plan = Plan::of_goal(alloc, goal)?;
        assert_same(&rt, (goal, covered.covered(&plan)), (goal, bins));
        assert_same(&rt, (goal, covered.percent(&plan)), (goal, percent));
    }
    Ok(())
}
