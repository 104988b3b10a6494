//! What is found of flits where requests have points, and which lines are refused.

use crate::tests::comparison::assert_same;
use crate::tests::events::{END, joined, places, watched};
use crate::tests::flits::{FIVE, FLITS, READ, WORD};
use chi_flit_text::{FlitLineFault, FlitMember};
use chi_flits::FlitFault;
use chi_points::PointFault;
use chi_watch_text::{
    ErrorEffect, LineFormat, LinesFault, TellingFault, WatchOptions, read_operations,
};
use std::test::Fail;

// Flits and points are watched, up to the first granule that is found.
const POINTED: WatchOptions = WatchOptions {
    format: LineFormat::PointedFlits {
        errors: ErrorEffect::Unknown,
    },
    ..FLITS
};

// A write of the eight bytes at address 4096 with TxnID 1, a read of them with TxnID 2 while it is open, and the write's completion,
// which gives it DBID 9.
const BEGUN: &str =
    r#"{"time":1,"channel":"REQ","src":"03","txn":"01","opcode":"1c","size":"3","addr":"0000000001000"}
{"time":2,"channel":"REQ","src":"03","txn":"02","opcode":"04","size":"3","addr":"0000000001000"}
{"time":3,"channel":"RSP","tgt":"03","txn":"01","opcode":"5","resp_err":"0","dbid":"09"}
"#;

// The points of both: that of the read first, or that of the write.
const READ_FIRST: &str = r#"{"time":4,"channel":"POINT","src":"03","txn":"02"}
{"time":5,"channel":"POINT","src":"03","txn":"01"}
"#;

const WRITE_FIRST: &str = r#"{"time":4,"channel":"POINT","src":"03","txn":"01"}
{"time":5,"channel":"POINT","src":"03","txn":"02"}
"#;

// The read tells 6, and the write sends 6.
const DONE: &str =
    r#"{"time":6,"channel":"RDAT","tgt":"03","txn":"02","opcode":"4","resp_err":"0","data_id":"0","data":"00000000000000000000000000000006"}
{"time":7,"channel":"WDAT","src":"03","txn":"09","opcode":"3","data_id":"0","be":"00ff","data":"00000000000000000000000000000006"}
"#;

// The point of the write once more, and of a request with TxnID 4.
const AGAIN: &str = r#"{"time":5,"channel":"POINT","src":"03","txn":"01"}
"#;

const OF_FOUR: &str = r#"{"time":4,"channel":"POINT","src":"03","txn":"04"}
"#;

// A point of whose requester a digit is not known.
const UNKNOWN_SRC: &str = r#"{"time":4,"channel":"POINT","src":"0x","txn":"04"}
"#;

// RetryAck to the request with TxnID 4, and another one that takes that TxnID.
const RETRY: &str =
    r#"{"time":5,"channel":"RSP","tgt":"03","txn":"04","opcode":"3","resp_err":"0","dbid":"00"}
"#;

const OTHER: &str =
    r#"{"time":6,"channel":"REQ","src":"03","txn":"04","opcode":"04","size":"3","addr":"0000000001000"}
"#;

// Lines with how they are read, the granules that are found by lines, and how many requests are outstanding.
type OrderCase = (
    WatchOptions,
    &'static [&'static str],
    &'static [(u64, u64)],
    usize,
);

static ORDER: [OrderCase; 6] = [
    (FLITS, &[WORD, BEGUN, DONE, END], &[], 0),
    (POINTED, &[WORD, BEGUN, WRITE_FIRST, DONE, END], &[], 0),
    (
        POINTED,
        &[WORD, BEGUN, READ_FIRST, DONE, END],
        &[(512, 7)],
        0,
    ),
    (POINTED, &[WORD, BEGUN, READ_FIRST, END], &[], 2),
    (POINTED, &[WORD, BEGUN, END], &[], 2),
    (POINTED, &[WORD, READ, RETRY, OTHER, END], &[], 1),
];

// The read overlaps the write, so without points either order is legal. By its point it is before the write, and then it may not
// tell what is written: its answer is line 7.
#[test]
fn order_of_points(rt: HostRuntime) -> Result<(), Fail> {
    for (options, texts, wanted, outstanding) in &ORDER {
        let watched = watched(rt.alloc(), texts, options)?;
        let places = places(rt.alloc(), &watched)?;
        assert_same(
            &rt,
            (texts.len(), places.as_slice(), watched.counts.outstanding),
            (texts.len(), *wanted, *outstanding),
        );
    }
    Ok(())
}

// Each request is told at its point, and has the number of its line.
#[test]
fn operations_at_their_points(rt: HostRuntime) -> Result<(), Fail> {
    let text = joined(rt.alloc(), &[BEGUN, WRITE_FIRST, DONE, END])?;
    let mut from = text.as_slice();
    let told = read_operations(
        rt.alloc(),
        &mut from,
        LineFormat::PointedFlits {
            errors: ErrorEffect::Unknown,
        },
    )?;
    let times: Vec<(u64, u64, u64)> = told
        .operations
        .iter()
        .map(|op| (op.number, op.start, op.end))
        .collect(rt.alloc())?;
    assert_same(&rt, times.as_slice(), [(1, 4, 4), (2, 5, 5)].as_slice());
    Ok(())
}

// Lines with how they are read, the number of the line that is refused, for what, its text, and whether it is of a flit that is not
// legal.
type FaultCase = (
    WatchOptions,
    &'static [&'static str],
    u64,
    TellingFault,
    &'static str,
    bool,
);

static FAULTS: [FaultCase; 9] = [
    (
        FLITS,
        &[OF_FOUR],
        1,
        TellingFault::OfPoint,
        "line 1 is a point, and --points is not given",
        false,
    ),
    (
        POINTED,
        &[UNKNOWN_SRC],
        1,
        TellingFault::Flit(FlitLineFault::UnknownDigit(FlitMember::Src)),
        "line 1 has an x in its src",
        false,
    ),
    (
        POINTED,
        &[OF_FOUR],
        1,
        TellingFault::Points(PointFault::Port(FlitFault::NotOpen)),
        "not legal at the port: line 1 is of no open request",
        true,
    ),
    (
        POINTED,
        &[BEGUN, WRITE_FIRST, AGAIN],
        6,
        TellingFault::Points(PointFault::Port(FlitFault::NotOpen)),
        "not legal at the port: line 6 is of no open request",
        true,
    ),
    (
        POINTED,
        &[READ, FIVE, OTHER],
        3,
        TellingFault::Points(PointFault::Port(FlitFault::TakesOpen)),
        "not legal at the port: line 3 takes the TxnID of an open request",
        true,
    ),
    (
        POINTED,
        &[READ, OF_FOUR, RETRY],
        3,
        TellingFault::Points(PointFault::RetryLate),
        "not legal at the port: line 3 is RetryAck to a request that had another answer, or its point",
        true,
    ),
    (
        POINTED,
        &[WORD, READ, FIVE, END],
        4,
        TellingFault::Points(PointFault::NoPoint(2)),
        "not legal at the port: line 4 is the end, and line 2 is a request that was completed, and has no point",
        true,
    ),
    (
        POINTED,
        &[READ, FIVE, OF_FOUR],
        3,
        TellingFault::Points(PointFault::Port(FlitFault::TimeFalls)),
        "line 3 is earlier than the flit before it",
        false,
    ),
    (
        POINTED,
        &[END, END],
        2,
        TellingFault::Points(PointFault::AfterEnd),
        "line 2 comes after the end",
        false,
    ),
];

#[test]
fn faults_of_points(rt: HostRuntime) -> Result<(), Fail> {
    for (options, texts, number, fault, text, is_illegal) in &FAULTS {
        let fault = LinesFault::Line {
            number: *number,
            fault: *fault,
        };
        let found = watched(rt.alloc(), texts, options).err().map(|it| it.fault);
        let told = format!(in rt.alloc(); "{fault}")?;
        assert_same(
            &rt,
            (found, told.as_str(), fault.is_illegal()),
            (Some(fault), *text, *is_illegal),
        );
    }
    Ok(())
}
