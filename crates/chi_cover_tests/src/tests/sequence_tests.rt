//! The bins of operations and those before them on their granules and lines, worked by hand.

use crate::tests::comparison::assert_same;
use crate::tests::operations::{covered_by, observed, of_requester, read, write};
use chi_cover::{Bin, Transaction};
use chi_trace::Operation;
use std::process::Abort;
use std::test::Fail;

const TRANSACTIONS: [Transaction; 6] = [
    Transaction::ReadNoSnp,
    Transaction::WriteNoSnpPtl,
    Transaction::AtomicStore,
    Transaction::AtomicLoad,
    Transaction::AtomicSwap,
    Transaction::AtomicCompare,
];

// An earlier transaction, and a later one.
type Pair = (Transaction, Transaction);

// A write, and a read after it; and the other way round.
const READ_AFTER_WRITE: Pair = (Transaction::WriteNoSnpPtl, Transaction::ReadNoSnp);

const WRITE_AFTER_READ: Pair = (Transaction::ReadNoSnp, Transaction::WriteNoSnpPtl);

fn times_in(pairs: &[Pair], earlier: Transaction, later: Transaction) -> u64 {
    let mut times: u64 = 0;
    for pair in pairs {
        if pair.0 == earlier && pair.1 == later {
            times = times.saturating_add(1);
        }
    }
    times
}

// Ends the test where the sequences of granules or of lines are others than these.
fn assert_sequences<R: AllocGlobal + Abort>(
    rt: &R,
    ops: &[Operation],
    of_granules: &[Pair],
    of_lines: &[Pair],
) -> Result<(), Fail> {
    let covered = covered_by(rt.alloc(), ops)?;
    for earlier in TRANSACTIONS {
        for later in TRANSACTIONS {
            let of_granule = covered.count(Bin::Sequence { earlier, later });
            assert_same(rt, of_granule, times_in(of_granules, earlier, later));
            let of_line = covered.count(Bin::LineSequence { earlier, later });
            assert_same(rt, of_line, times_in(of_lines, earlier, later));
        }
    }
    Ok(())
}

// The first operation has none before it, and the one before the read on the line is of its own granule.
#[test]
fn a_read_follows_a_write_of_its_granule(rt: HostRuntime) -> Result<(), Fail> {
    let ops = [
        of_requester(write(0x1000, 3)?, 1, 0, 3),
        of_requester(read(0x1004, 2)?, 2, 4, 6),
    ];
    assert_sequences(&rt, &ops, &[READ_AFTER_WRITE], &[])
}

#[test]
fn a_write_follows_a_read_of_another_granule_of_the_line(rt: HostRuntime) -> Result<(), Fail> {
    let ops = [
        of_requester(read(0x1008, 3)?, 1, 0, 3),
        of_requester(write(0x1010, 3)?, 1, 4, 6),
    ];
    assert_sequences(&rt, &ops, &[], &[WRITE_AFTER_READ])
}

#[test]
fn operations_that_overlap_are_no_sequence(rt: HostRuntime) -> Result<(), Fail> {
    let ops = [
        of_requester(write(0x1000, 3)?, 1, 0, 5),
        of_requester(read(0x1000, 3)?, 2, 3, 8),
        of_requester(write(0x1008, 3)?, 3, 4, 9),
    ];
    assert_sequences(&rt, &ops, &[], &[])
}

// One that ends at the time when the next one starts is still open then, and one that ends before is not.
#[test]
fn an_operation_is_open_at_its_end(rt: HostRuntime) -> Result<(), Fail> {
    let still_open = [
        of_requester(write(0x1000, 3)?, 1, 0, 5),
        of_requester(read(0x1000, 3)?, 1, 5, 7),
        of_requester(write(0x1008, 3)?, 1, 7, 9),
    ];
    assert_sequences(&rt, &still_open, &[], &[])?;
    let ended = [
        of_requester(write(0x1000, 3)?, 1, 0, 4),
        of_requester(read(0x1000, 3)?, 1, 5, 6),
        of_requester(write(0x1008, 3)?, 1, 7, 9),
    ];
    assert_sequences(&rt, &ended, &[READ_AFTER_WRITE], &[WRITE_AFTER_READ])
}

// The line of 0x1000 reaches up to 0x103f: the last read is of it, and comes after the write there.
#[test]
fn operations_64_bytes_apart_share_no_line(rt: HostRuntime) -> Result<(), Fail> {
    let ops = [
        of_requester(write(0x1000, 3)?, 1, 0, 1),
        of_requester(read(0x1040, 3)?, 1, 2, 3),
        of_requester(read(0x1038, 3)?, 1, 4, 5),
    ];
    assert_sequences(&rt, &ops, &[], &[READ_AFTER_WRITE])
}

// The one before the last write is the read, which is open: that the first write had ended does not count.
#[test]
fn only_the_operation_before_counts(rt: HostRuntime) -> Result<(), Fail> {
    let ops = [
        of_requester(write(0x1000, 3)?, 1, 0, 1),
        of_requester(read(0x1000, 3)?, 1, 2, 9),
        of_requester(write(0x1000, 3)?, 2, 5, 20),
    ];
    assert_sequences(&rt, &ops, &[READ_AFTER_WRITE], &[])
}

// Each operation comes after the one of its granule, and on the line after one of the other granule.
#[test]
fn operations_of_two_granules_take_turns(rt: HostRuntime) -> Result<(), Fail> {
    let swap = observed(0x38, 3, 0x1008, false, 0xff00, [0; 16], None)?;
    let load = observed(0x30, 3, 0x1008, false, 0xff00, [0; 16], None)?;
    let ops = [
        of_requester(write(0x1000, 3)?, 1, 0, 0),
        of_requester(swap, 2, 1, 1),
        of_requester(read(0x1000, 3)?, 1, 2, 2),
        of_requester(load, 2, 3, 3),
    ];
    let of_granules = [
        READ_AFTER_WRITE,
        (Transaction::AtomicSwap, Transaction::AtomicLoad),
    ];
    let of_lines = [
        (Transaction::WriteNoSnpPtl, Transaction::AtomicSwap),
        (Transaction::AtomicSwap, Transaction::ReadNoSnp),
        (Transaction::ReadNoSnp, Transaction::AtomicLoad),
    ];
    assert_sequences(&rt, &ops, &of_granules, &of_lines)
}
