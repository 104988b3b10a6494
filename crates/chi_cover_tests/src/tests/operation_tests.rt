//! The bins of operations by themselves, worked by hand.

use crate::tests::comparison::assert_same;
use crate::tests::operations::{add, covered_by, lanes, observed};
use chi_cover::{Bin, Covered, Enabled};
use chi_fields::{Kind, Op};
use chi_lanes::Reply;
use chi_trace::Operation;
use std::test::Fail;

// An AtomicLoad.ADD of two bytes at 0x1004, which found `old` and was sent `sent`.
fn addition(endian: bool, old: [u8; 2], sent: [u8; 2]) -> Result<Operation, Fail> {
    let reply = Reply::CompData(lanes(4, &old));
    observed(0x30, 1, 0x1004, endian, 0x30, lanes(4, &sent), Some(reply))
}

#[test]
fn an_operation_is_of_its_kind_order_length_and_lane(rt: HostRuntime) -> Result<(), Fail> {
    let alloc = rt.alloc();
    let read = observed(0x04, 3, 0x1008, true, 0, [0; 16], None)?;
    let covered = covered_by(alloc, &[addition(false, [1, 0], [2, 0])?, read])?;
    let kind = Kind::Load(Op::Add);
    let cases = [
        (kind, false, 2, 4, 1),
        (kind, true, 2, 4, 0),
        (kind, false, 4, 4, 0),
        (kind, false, 2, 6, 0),
        (Kind::Store(Op::Add), false, 2, 4, 0),
        (Kind::Read, true, 8, 8, 1),
    ];
    for (kind, endian, len, lane, wanted) in cases {
        let bin = Bin::Operand {
            kind,
            endian,
            len,
            lane,
        };
        assert_same(&rt, covered.count(bin), wanted);
    }
    Ok(())
}

// An AtomicCompare of four bytes at an address, whose compare value is 1, 2, 3, 4 and whose swap value is 9, 9, 9, 9.
fn comparison(addr: u64, reply: Option<Reply>) -> Result<Operation, Fail> {
    let sent = if addr % 8 == 0 {
        lanes(0, &[1, 2, 3, 4, 9, 9, 9, 9])
    } else {
        lanes(0, &[9, 9, 9, 9, 1, 2, 3, 4])
    };
    observed(0x39, 3, addr, false, 0xff, sent, reply)
}

#[test]
fn an_atomic_compare_has_matched_or_failed(rt: HostRuntime) -> Result<(), Fail> {
    let alloc = rt.alloc();
    let found = Reply::CompData(lanes(0, &[1, 2, 3, 4]));
    let other = Reply::CompData(lanes(4, &[1, 2, 3, 5]));
    let covered = covered_by(
        alloc,
        &[
            comparison(0x1000, Some(found))?,
            comparison(0x1000, None)?,
            comparison(0x1004, Some(other))?,
            comparison(0x1004, Some(other))?,
        ],
    )?;
    for (upper, matched, wanted) in [
        (false, true, 1),
        (false, false, 0),
        (true, true, 0),
        (true, false, 2),
    ] {
        let bin = Bin::Comparison {
            len: 4,
            upper,
            matched,
        };
        assert_same(&rt, covered.count(bin), wanted);
    }
    Ok(())
}

#[test]
fn a_write_has_no_some_or_all_byte_enables(rt: HostRuntime) -> Result<(), Fail> {
    let alloc = rt.alloc();
    let mut covered = Covered::new(alloc)?;
    for (size, enables) in [(2, 0xf0), (2, 0x70), (2, 0x10), (2, 0), (0, 0x10), (0, 0)] {
        let write = observed(0x1c, size, 0x1004, false, enables, [0; 16], None)?;
        add(alloc, &mut covered, &[write])?;
    }
    for (len, enabled, wanted) in [
        (4, Enabled::NoLane, 1),
        (4, Enabled::SomeLanes, 2),
        (4, Enabled::AllLanes, 1),
        (1, Enabled::NoLane, 1),
        (1, Enabled::AllLanes, 1),
        (8, Enabled::NoLane, 0),
    ] {
        assert_same(&rt, covered.count(Bin::Enables { len, enabled }), wanted);
    }
    Ok(())
}

// How many operations kept the value, changed its sign and wrapped, of ADD at a length.
fn additions(covered: &Covered, len: u8) -> (u64, u64, u64) {
    (
        covered.count(Bin::Kept { op: Op::Add, len }),
        covered.count(Bin::ChangedSign { op: Op::Add, len }),
        covered.count(Bin::Wrapped { len }),
    )
}

// Little-endian 0xff00 + 0x0100 is 2^16, which leaves 0: the sign changes from - to +. Big-endian 0x00ff + 0x0001 is 0x0100.
#[test]
fn an_addition_has_results_in_its_byte_order(rt: HostRuntime) -> Result<(), Fail> {
    let alloc = rt.alloc();
    let little = covered_by(alloc, &[addition(false, [0x00, 0xff], [0x00, 0x01])?])?;
    assert_same(&rt, additions(&little, 2), (0, 1, 1));
    let big = covered_by(alloc, &[addition(true, [0x00, 0xff], [0x00, 0x01])?])?;
    assert_same(&rt, additions(&big, 2), (0, 0, 0));
    let nothing = covered_by(alloc, &[addition(true, [0x80, 0xff], [0, 0])?])?;
    assert_same(&rt, additions(&nothing, 2), (1, 0, 0));
    Ok(())
}

// An AtomicLoad of one byte at 0x1007 that found `old` and was sent `sent`, by its opcode.
fn byte_load(opcode: u8, old: u8, sent: u8) -> Result<Operation, Fail> {
    let reply = Reply::CompData(lanes(7, &[old]));
    observed(
        opcode,
        0,
        0x1007,
        false,
        0x80,
        lanes(7, &[sent]),
        Some(reply),
    )
}

// By the definitions of the operations: 0x81 without 0x80 is 1; 0x81 with either of 0x80 is 0x01; the greater of -127 and 1 is 1;
// and the greater of 0x81 and 0x01 without a sign is 0x81.
#[test]
fn other_operations_have_results(rt: HostRuntime) -> Result<(), Fail> {
    let alloc = rt.alloc();
    for (opcode, op, sent, kept, changed) in [
        (0x31, Op::Clr, 0x80, 0, 1),
        (0x32, Op::Eor, 0x80, 0, 1),
        (0x33, Op::Set, 0x80, 1, 0),
        (0x34, Op::SMax, 0x01, 0, 1),
        (0x35, Op::SMin, 0x01, 1, 0),
        (0x36, Op::UMax, 0x01, 1, 0),
        (0x37, Op::UMin, 0x01, 0, 1),
    ] {
        let covered = covered_by(alloc, &[byte_load(opcode, 0x81, sent)?])?;
        assert_same(&rt, covered.count(Bin::Kept { op, len: 1 }), kept);
        assert_same(&rt, covered.count(Bin::ChangedSign { op, len: 1 }), changed);
        assert_same(&rt, covered.count(Bin::Wrapped { len: 1 }), 0);
    }
    Ok(())
}

// A store answers nothing, and of a load whose answer was not seen nothing is known.
#[test]
fn only_data_that_were_returned_show_a_result(rt: HostRuntime) -> Result<(), Fail> {
    let alloc = rt.alloc();
    let store = observed(0x28, 0, 0x1007, false, 0x80, [0; 16], Some(Reply::Comp))?;
    let unseen = observed(0x30, 0, 0x1007, false, 0x80, [0; 16], None)?;
    let covered = covered_by(alloc, &[store, unseen])?;
    assert_same(&rt, additions(&covered, 1), (0, 0, 0));
    Ok(())
}

#[test]
fn two_traces_add_up(rt: HostRuntime) -> Result<(), Fail> {
    let alloc = rt.alloc();
    let mut covered = covered_by(alloc, &[byte_load(0x30, 0xff, 1)?])?;
    add(
        alloc,
        &mut covered,
        &[byte_load(0x30, 0xfe, 2)?, byte_load(0x30, 1, 1)?],
    )?;
    assert_same(&rt, additions(&covered, 1), (0, 2, 2));
    Ok(())
}
