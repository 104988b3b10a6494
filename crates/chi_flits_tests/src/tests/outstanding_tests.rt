//! Tests of which granules have an outstanding operation.

use crate::tests::comparison::assert_same;
use crate::tests::flits::{
    CANCEL, COMP, COMP_DBID, DATA, DBID, LOAD_ADD, READ, RETRY_ACK, WRITE, answer, bytes,
    exclusive, quarter, request, response, sent,
};
use chi_flits::{Flit, FlitKind, Port};
use std::alloc::Global;
use std::process::Abort;
use std::test::Fail;

/// The granules from 0x200 to 0x203, and so the 32 bytes from 0x1000 on, that have one after these flits.
fn outstanding_after(alloc: Global, kinds: &[FlitKind]) -> Result<[bool; 4], Fail> {
    let mut port = Port::new(alloc);
    for kind in kinds {
        let flit = Flit {
            time: 7,
            kind: *kind,
        };
        port.take(alloc, &flit)?;
    }
    Ok([
        port.has_outstanding(0x200),
        port.has_outstanding(0x201),
        port.has_outstanding(0x202),
        port.has_outstanding(0x203),
    ])
}

fn assert_outstanding<R: AllocGlobal + Abort>(
    rt: &R,
    kinds: &[FlitKind],
    wanted: [bool; 4],
) -> Result<(), Fail> {
    let found = outstanding_after(rt.alloc(), kinds)?;
    assert_same(rt, found, wanted);
    Ok(())
}

#[test]
fn granules_of_a_read(rt: HostRuntime) -> Result<(), Fail> {
    let asked = request(0, READ, 5, 0x1000);
    assert_outstanding(&rt, &[asked], [true, true, true, true])?;
    let high = answer(0, quarter(1, bytes(0, 0x22)));
    assert_outstanding(&rt, &[asked, high], [true, true, false, false])?;
    let low = answer(0, quarter(0, bytes(0, 0x22)));
    assert_outstanding(&rt, &[asked, high, low], [false; 4])?;
    let one = request(0, READ, 0, 0x100f);
    assert_outstanding(&rt, &[one], [false, true, false, false])
}

#[test]
fn write_whose_data_have_not_come(rt: HostRuntime) -> Result<(), Fail> {
    let asked = request(0, WRITE, 5, 0x1000);
    let given = response(0, COMP_DBID, 9);
    let other = request(0, READ, 3, 0x2000);
    assert_outstanding(&rt, &[asked, given, other], [true; 4])?;
    let low = sent(9, DATA, quarter(0, bytes(0xffff, 0x22)));
    assert_outstanding(&rt, &[asked, given, other, low], [true; 4])?;
    let high = sent(9, DATA, quarter(1, bytes(0xffff, 0x22)));
    assert_outstanding(&rt, &[asked, given, other, low, high], [false; 4])
}

#[test]
fn write_without_its_completion_or_its_dbid(rt: HostRuntime) -> Result<(), Fail> {
    let asked = request(0, WRITE, 3, 0x1008);
    let given = response(0, DBID, 9);
    let whole = sent(9, DATA, quarter(0, bytes(0xff00, 0x22)));
    let waits = [false, true, false, false];
    assert_outstanding(&rt, &[asked, given, whole], waits)?;
    let completed = response(0, COMP, 0);
    assert_outstanding(&rt, &[asked, completed], waits)?;
    assert_outstanding(&rt, &[asked, completed, given], waits)?;
    assert_outstanding(&rt, &[asked, completed, given, whole], [false; 4])
}

#[test]
fn atomic_answered_before_its_data(rt: HostRuntime) -> Result<(), Fail> {
    let asked = request(0, LOAD_ADD, 3, 0x1018);
    let old = answer(0, quarter(1, bytes(0, 0x22)));
    let waits = [false, false, false, true];
    assert_outstanding(&rt, &[asked, old], waits)?;
    let given = response(0, DBID, 9);
    assert_outstanding(&rt, &[asked, old, given], waits)?;
    let operand = sent(9, DATA, quarter(1, bytes(0xff00, 0x22)));
    assert_outstanding(&rt, &[asked, old, given, operand], [false; 4])
}

#[test]
fn requests_that_wait_for_nothing(rt: HostRuntime) -> Result<(), Fail> {
    let read = request(0, READ, 5, 0x1000);
    let retried = response(0, RETRY_ACK, 0);
    assert_outstanding(&rt, &[read, retried], [false; 4])?;
    let write = request(0, WRITE, 5, 0x1000);
    let given = response(0, DBID, 9);
    let cancelled = sent(9, CANCEL, quarter(1, bytes(0, 0)));
    assert_outstanding(&rt, &[write, given, cancelled], [false; 4])?;
    assert_outstanding(&rt, &[exclusive(0, READ, 5, 0x1000)], [false; 4])?;
    assert_outstanding(&rt, &[], [false; 4])
}
