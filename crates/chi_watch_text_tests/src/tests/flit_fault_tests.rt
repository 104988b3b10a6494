//! Lines among flits that are refused, the texts of their faults, and which of them are of a flit that is not legal.

use crate::tests::comparison::assert_same;
use crate::tests::events::{LAST as LATE_WORD, READ as READ_EVENT, STOPPING, joined, watched};
use crate::tests::flits::{CREDIT, FIVE, FLITS, READ, UNKNOWN_LANE, WORD, WRITE};
use chi_events::EventFault;
use chi_flit_text::{FlitLineFault, FlitMember};
use chi_flits::FlitFault;
use chi_json::ObjectFault;
use chi_reading::LineFault;
use chi_watch::WatchFault;
use chi_watch_text::{
    ErrorEffect, LineFormat, LinesFault, TellingFault, read_events, read_operations,
};
use std::test::Fail;

// ReadNoSnp with an address of which a digit is not known.
const UNKNOWN_ADDR: &str =
    r#"{"time":3,"channel":"REQ","src":"03","txn":"04","opcode":"04","size":"3","addr":"000000000100x"}
"#;

// RetryAck to the request of TxnID 1, after it was completed.
const LATE_RETRY: &str =
    r#"{"time":3,"channel":"RSP","tgt":"03","txn":"01","opcode":"3","resp_err":"0","dbid":"00"}
"#;

// Lines, the fault that they are refused for, its text, and whether it is of a flit that is not legal.
type FaultCase = ([&'static str; 3], LinesFault, &'static str, bool);

static FAULTS: [FaultCase; 8] = [
    (
        [READ, FIVE, FIVE],
        LinesFault::Line {
            number: 3,
            fault: TellingFault::Port(FlitFault::NotOpen),
        },
        "not legal at the port: line 3 is of no open request",
        true,
    ),
    (
        [WRITE, CREDIT, LATE_RETRY],
        LinesFault::Line {
            number: 5,
            fault: TellingFault::Port(FlitFault::TimeFalls),
        },
        "line 5 is earlier than the flit before it",
        false,
    ),
    (
        [WRITE, LATE_RETRY, ""],
        LinesFault::Line {
            number: 4,
            fault: TellingFault::Port(FlitFault::NotOpen),
        },
        "not legal at the port: line 4 is of no open request",
        true,
    ),
    (
        [WORD, READ, UNKNOWN_LANE],
        LinesFault::Line {
            number: 3,
            fault: TellingFault::Port(FlitFault::UnknownLane),
        },
        "line 3 has an x in a lane of its operand",
        false,
    ),
    (
        [UNKNOWN_ADDR, "", ""],
        LinesFault::Line {
            number: 1,
            fault: TellingFault::Flit(FlitLineFault::UnknownDigit(FlitMember::Addr)),
        },
        "line 1 has an x in its addr",
        false,
    ),
    (
        [CREDIT, READ_EVENT, ""],
        LinesFault::Line {
            number: 2,
            fault: TellingFault::OfRequest,
        },
        "line 2 is an event of a request, and requests are told by flits",
        false,
    ),
    (
        [LATE_WORD, READ, ""],
        LinesFault::Event {
            number: 2,
            fault: WatchFault::Event(EventFault::TimeFalls),
        },
        "line 2 is earlier than the event before it",
        false,
    ),
    (
        [WORD, "\n", READ],
        LinesFault::Line {
            number: 2,
            fault: TellingFault::Event(LineFault::Object(ObjectFault::NotJson)),
        },
        "line 2 is not JSON",
        false,
    ),
];

#[test]
fn faults_and_their_texts(rt: HostRuntime) -> Result<(), Fail> {
    for (texts, fault, text, is_illegal) in &FAULTS {
        let found = watched(rt.alloc(), texts, &FLITS).err().map(|it| it.fault);
        let told = format!(in rt.alloc(); "{fault}")?;
        assert_same(
            &rt,
            (found, told.as_str(), fault.is_illegal()),
            (Some(*fault), *text, *is_illegal),
        );
    }
    Ok(())
}

// A third line is refused where it is of no open request, and a line where it is a flit and events are read.
const THIRD: LinesFault = LinesFault::Line {
    number: 3,
    fault: TellingFault::Port(FlitFault::NotOpen),
};

const NO_EVENT: LinesFault = LinesFault::Line {
    number: 1,
    fault: TellingFault::Event(LineFault::OfFlits),
};

// Operations and a trace are refused for the same reason. A flit is no event.
#[test]
fn faults_of_operations_and_traces(rt: HostRuntime) -> Result<(), Fail> {
    let text = joined(rt.alloc(), &[READ, FIVE, FIVE])?;
    for (format, fault) in [
        (
            LineFormat::Flits {
                errors: ErrorEffect::Unknown,
            },
            THIRD,
        ),
        (LineFormat::Events, NO_EVENT),
    ] {
        let mut from = text.as_slice();
        let found = read_operations(rt.alloc(), &mut from, format).err();
        assert_same(&rt, found, Some(fault));
        let mut from = text.as_slice();
        let found = read_events(rt.alloc(), &mut from, format).err();
        assert_same(&rt, found, Some(fault));
    }
    let found = watched(rt.alloc(), &[READ], &STOPPING)
        .err()
        .map(|it| it.fault);
    assert_same(&rt, found, Some(NO_EVENT));
    Ok(())
}
