//! The bins of operations among the others of their granules, worked by hand.

use crate::tests::comparison::assert_same;
use crate::tests::operations::{covered_by, of_requester, read, write};
use chi_cover::{Bin, Depth, Transaction};
use chi_trace::Operation;
use std::process::Abort;
use std::test::Fail;

// Compares the counts of the five depths.
fn assert_depths<R: AllocGlobal + Abort>(
    rt: &R,
    ops: &[Operation],
    wanted: [u64; 5],
) -> Result<(), Fail> {
    let covered = covered_by(rt.alloc(), ops)?;
    let depths = [
        covered.count(Bin::Open(Depth::One)),
        covered.count(Bin::Open(Depth::Two)),
        covered.count(Bin::Open(Depth::UpToFour)),
        covered.count(Bin::Open(Depth::UpToEight)),
        covered.count(Bin::Open(Depth::More)),
    ];
    assert_same(rt, depths, wanted);
    Ok(())
}

// Ten reads of one granule that are all open at their starts: 1, 2, 3, 4, 5 to 8, 9 and 10 of them.
#[test]
fn ten_operations_of_one_granule_are_open(rt: HostRuntime) -> Result<(), Fail> {
    let mut ops = Vec::new(rt.alloc());
    for start in 0..10 {
        ops.push(of_requester(read(0x1000, 3)?, 1, start, 100))?;
    }
    assert_depths(&rt, &ops, [1, 1, 2, 4, 2])
}

// The second starts as the first ends, which is an overlap; the third after both have ended; the last is of another granule.
#[test]
fn an_operation_is_open_up_to_its_end(rt: HostRuntime) -> Result<(), Fail> {
    let ops = [
        of_requester(read(0x1000, 3)?, 1, 0, 5),
        of_requester(read(0x1000, 3)?, 1, 5, 6),
        of_requester(read(0x1000, 3)?, 1, 7, 9),
        of_requester(read(0x1008, 3)?, 1, 8, 9),
    ];
    assert_depths(&rt, &ops, [3, 1, 0, 0, 0])
}

// Compares how often an operation of the first kind was open when one of the second started, and how many overlaps are of one
// requester, and of two.
fn assert_overlaps<R: AllocGlobal + Abort>(
    rt: &R,
    ops: &[Operation],
    wanted: &[(Transaction, Transaction, u64)],
    (same, other): (u64, u64),
) -> Result<(), Fail> {
    let covered = covered_by(rt.alloc(), ops)?;
    for (earlier, later, count) in wanted {
        let (earlier, later) = (*earlier, *later);
        assert_same(rt, covered.count(Bin::Overlap { earlier, later }), *count);
    }
    assert_same(rt, covered.count(Bin::Requester { same: true }), same);
    assert_same(rt, covered.count(Bin::Requester { same: false }), other);
    Ok(())
}

// The read of the whole granule is open when the write of bytes 6 and 7 starts, and both writes are when the reads of byte 1 and
// of byte 2 start.
#[test]
fn operands_overlap_where_they_have_a_byte_in_common(rt: HostRuntime) -> Result<(), Fail> {
    let ops = [
        of_requester(read(0x1000, 3)?, 1, 0, 3),
        of_requester(write(0x1006, 1)?, 1, 1, 20),
        of_requester(write(0x1000, 1)?, 2, 4, 20),
        of_requester(read(0x1001, 0)?, 1, 5, 20),
        of_requester(read(0x1002, 0)?, 1, 6, 20),
    ];
    let wanted = [
        (Transaction::ReadNoSnp, Transaction::WriteNoSnpPtl, 1),
        (Transaction::WriteNoSnpPtl, Transaction::ReadNoSnp, 1),
        (Transaction::ReadNoSnp, Transaction::ReadNoSnp, 0),
        (Transaction::WriteNoSnpPtl, Transaction::WriteNoSnpPtl, 0),
    ];
    assert_overlaps(&rt, &ops, &wanted, (1, 1))
}

// An operation counts once for a transaction, however many of it were open.
#[test]
fn an_operation_counts_once_in_a_bin(rt: HostRuntime) -> Result<(), Fail> {
    let ops = [
        of_requester(write(0x1000, 3)?, 1, 0, 20),
        of_requester(write(0x1000, 3)?, 2, 30, 50),
        of_requester(write(0x1000, 3)?, 1, 31, 50),
        of_requester(read(0x1000, 3)?, 1, 32, 50),
    ];
    let wanted = [(Transaction::WriteNoSnpPtl, Transaction::ReadNoSnp, 1)];
    assert_overlaps(&rt, &ops, &wanted, (1, 2))
}
