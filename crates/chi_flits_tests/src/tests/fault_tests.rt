//! Tests of flits that cannot come next.

use crate::tests::comparison::assert_same;
use crate::tests::flits::{
    CANCEL, COMP, COMP_DBID, DATA, DBID, LOAD_ADD, READ, RETRY_ACK, STORE_ADD, Told, WRITE,
    WRITE_FULL, answer, assert_told, bytes, quarter, request, response, sent,
};
use chi_flits::{Chunk, Flit, FlitFault, FlitKind, Port};
use std::process::Abort;
use std::test::Fail;

/// A read of eight bytes, and then a flit with this fault.
fn read_then<R: AllocGlobal + Abort>(rt: &R, next: FlitKind, fault: FlitFault) -> Result<(), Fail> {
    let wanted = [Told::Request(0, READ, 3, 0x1008), Told::Fault(fault)];
    assert_told(rt, &[request(0, READ, 3, 0x1008), next], &wanted)
}

#[test]
fn answers_that_a_read_does_not_have(rt: HostRuntime) -> Result<(), Fail> {
    read_then(&rt, request(0, READ, 3, 0x1008), FlitFault::TakesOpen)?;
    read_then(&rt, request(0, 0x18, 6, 0x1008), FlitFault::TakesOpen)?;
    read_then(&rt, response(1, COMP, 0), FlitFault::NotOpen)?;
    read_then(&rt, response(0, COMP, 0), FlitFault::NoData)?;
    read_then(&rt, response(0, DBID, 0), FlitFault::SecondDbid)?;
    read_then(&rt, answer(1, quarter(0, bytes(0, 0))), FlitFault::NotOpen)?;
    read_then(
        &rt,
        answer(0, quarter(1, bytes(0, 0))),
        FlitFault::OtherData,
    )?;
    read_then(
        &rt,
        sent(0, DATA, quarter(0, bytes(0, 0))),
        FlitFault::NotGiven,
    )?;
    let unknown = Chunk {
        unknown: 0x0100,
        ..bytes(0, 0)
    };
    read_then(&rt, answer(0, quarter(0, unknown)), FlitFault::UnknownLane)
}

/// A write of eight bytes that was given DBID 9, and then a flit with this fault.
fn write_then<R: AllocGlobal + Abort>(
    rt: &R,
    next: FlitKind,
    fault: FlitFault,
) -> Result<(), Fail> {
    let kinds = [request(0, WRITE, 3, 0x1008), response(0, DBID, 9), next];
    let wanted = [Told::Request(0, WRITE, 3, 0x1008), Told::Fault(fault)];
    assert_told(rt, &kinds, &wanted)
}

#[test]
fn flits_that_a_write_does_not_have(rt: HostRuntime) -> Result<(), Fail> {
    write_then(&rt, request(0, READ, 3, 0x1008), FlitFault::TakesOpen)?;
    write_then(&rt, response(0, COMP_DBID, 8), FlitFault::SecondDbid)?;
    write_then(&rt, response(0, RETRY_ACK, 0), FlitFault::RetryLate)?;
    write_then(
        &rt,
        answer(0, quarter(0, bytes(0, 0))),
        FlitFault::DataUnasked,
    )?;
    write_then(
        &rt,
        sent(8, DATA, quarter(0, bytes(0, 0))),
        FlitFault::NotGiven,
    )?;
    write_then(
        &rt,
        sent(9, DATA, quarter(2, bytes(0, 0))),
        FlitFault::OtherData,
    )?;
    let unknown = Chunk {
        unknown_be: 0x8000,
        ..bytes(0, 0)
    };
    write_then(
        &rt,
        sent(9, DATA, quarter(0, unknown)),
        FlitFault::UnknownEnable,
    )?;
    let unknown = Chunk {
        unknown: 0x8000,
        ..bytes(0xff00, 0)
    };
    write_then(
        &rt,
        sent(9, DATA, quarter(0, unknown)),
        FlitFault::UnknownSent,
    )
}

#[test]
fn dbid_that_is_still_held(rt: HostRuntime) -> Result<(), Fail> {
    let kinds = [
        request(0, WRITE, 3, 0x1000),
        response(0, COMP_DBID, 9),
        request(1, STORE_ADD, 3, 0x1000),
        response(1, COMP_DBID, 9),
    ];
    let wanted = [
        Told::Request(0, WRITE, 3, 0x1000),
        Told::Comp(0),
        Told::Request(16, STORE_ADD, 3, 0x1000),
        Told::Fault(FlitFault::DbidTaken),
    ];
    assert_told(&rt, &kinds, &wanted)
}

/// WriteUniquePtl, which is not told, is given the DBID of a write of which no data came.
#[test]
fn dbid_that_a_request_that_is_not_told_takes_over(rt: HostRuntime) -> Result<(), Fail> {
    let kinds = [
        request(0, WRITE, 3, 0x1000),
        response(0, DBID, 5),
        request(1, 0x18, 3, 0x2008),
        response(1, DBID, 5),
    ];
    let wanted = [
        Told::Request(0, WRITE, 3, 0x1000),
        Told::Unknown(0x2000),
        Told::Fault(FlitFault::DbidTaken),
    ];
    assert_told(&rt, &kinds, &wanted)
}

#[test]
fn second_completion(rt: HostRuntime) -> Result<(), Fail> {
    let kinds = [
        request(0, WRITE, 3, 0x1000),
        response(0, COMP, 0),
        response(0, COMP_DBID, 9),
    ];
    let wanted = [
        Told::Request(0, WRITE, 3, 0x1000),
        Told::Comp(0),
        Told::Fault(FlitFault::CompletedTwice),
    ];
    assert_told(&rt, &kinds, &wanted)
}

#[test]
fn completion_of_an_atomic_with_data(rt: HostRuntime) -> Result<(), Fail> {
    let kinds = [request(0, LOAD_ADD, 3, 0x1000), response(0, COMP_DBID, 9)];
    let wanted = [
        Told::Request(0, LOAD_ADD, 3, 0x1000),
        Told::Fault(FlitFault::NoData),
    ];
    assert_told(&rt, &kinds, &wanted)
}

/// A write that was given DBID 9, and then data of which the last have this fault.
fn last_data<R: AllocGlobal + Abort>(
    rt: &R,
    asked: FlitKind,
    data: &[FlitKind],
    fault: FlitFault,
) -> Result<(), Fail> {
    let mut port = Port::new(rt.alloc());
    let mut found = None;
    for kind in [asked, response(0, DBID, 9)] {
        found = port.take(rt.alloc(), &Flit { time: 7, kind }).err();
        assert_same(rt, found, None);
    }
    for kind in data {
        let flit = Flit {
            time: 7,
            kind: *kind,
        };
        found = port.take(rt.alloc(), &flit).err();
    }
    assert_same(rt, found, Some(fault));
    Ok(())
}

#[test]
fn data_that_are_not_those_of_the_request(rt: HostRuntime) -> Result<(), Fail> {
    let wide = request(0, WRITE, 5, 0x1000);
    let first = sent(9, DATA, quarter(0, bytes(0xff, 0)));
    let cancel = sent(9, CANCEL, quarter(1, bytes(0, 0)));
    last_data(&rt, wide, &[first, first], FlitFault::OtherData)?;
    last_data(&rt, wide, &[first, cancel], FlitFault::CancelsSome)?;
    last_data(&rt, wide, &[cancel, first], FlitFault::CancelsSome)?;
    let full = request(0, WRITE_FULL, 6, 0x1000);
    let cancelled = sent(9, CANCEL, quarter(0, bytes(0, 0)));
    last_data(&rt, full, &[cancelled], FlitFault::CancelsOther)?;
    let part = sent(9, DATA, quarter(0, bytes(0xfffe, 0)));
    last_data(&rt, full, &[part], FlitFault::NotFull)
}

#[test]
fn times_that_fall(rt: HostRuntime) -> Result<(), Fail> {
    let mut port = Port::new(rt.alloc());
    let kind = request(0, READ, 3, 0x1000);
    let late = port.take(rt.alloc(), &Flit { time: 7, kind }).err();
    assert_same(&rt, late, None);
    let kind = request(1, READ, 3, 0x1000);
    let early = port.take(rt.alloc(), &Flit { time: 6, kind }).err();
    assert_same(&rt, early, Some(FlitFault::TimeFalls));
    Ok(())
}
