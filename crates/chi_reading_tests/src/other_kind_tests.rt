//! Tests of inputs of another kind: a trace or flits where events are wanted, and events or flits where a trace is.

use crate::comparison::assert_same;
use crate::event_comparison::{read, shown_text};
use crate::texts::assert_fault;
use chi_json::ObjectFault;
use chi_reading::{LineFault, Member};
use std::process::Abort;

// Compares the fault of line 1, and that of line 2.
fn assert_line<R: AllocGlobal + Abort>(rt: &R, line: &str, first: LineFault, later: LineFault) {
    let found = read(rt, 1, line.as_bytes()).err();
    assert_same(rt, (line, 1, found), (line, 1, Some(first)));
    let found = read(rt, 2, line.as_bytes()).err();
    assert_same(rt, (line, 2, found), (line, 2, Some(later)));
}

const NOT_JSON: LineFault = LineFault::Object(ObjectFault::NotJson);

/// Lines, their fault where they are the first, and where they are not.
const LINES: [(&str, LineFault, LineFault); 17] = [
    // traces_as_lines: an object is of a trace where it has requests and names no event, on whichever line.
    (r#"{"requests":[]}"#, LineFault::OfTrace, LineFault::OfTrace),
    (
        r#"{"base":4096,"granules":8,"requests":7,"time":-1}"#,
        LineFault::OfTrace,
        LineFault::OfTrace,
    ),
    (
        r#"{"base":4096,"granules":8}"#,
        LineFault::Object(ObjectFault::Missing(Member::Event)),
        LineFault::Object(ObjectFault::Missing(Member::Event)),
    ),
    (
        r#"["requests"]"#,
        LineFault::Object(ObjectFault::NotObject),
        LineFault::Object(ObjectFault::NotObject),
    ),
    // flits_as_lines: an object is of flits where it names a channel, and has neither an event nor requests.
    (
        r#"{"channel":"REQ"}"#,
        LineFault::OfFlits,
        LineFault::OfFlits,
    ),
    (
        r#"{"time":-1,"channel":null}"#,
        LineFault::OfFlits,
        LineFault::OfFlits,
    ),
    (
        r#"{"channel":"REQ","requests":[]}"#,
        LineFault::OfTrace,
        LineFault::OfTrace,
    ),
    (
        r#"{"channel":"REQ","event":"end"}"#,
        LineFault::Object(ObjectFault::Missing(Member::Time)),
        LineFault::Object(ObjectFault::Missing(Member::Time)),
    ),
    (
        r#"{"channels":"REQ"}"#,
        LineFault::Object(ObjectFault::Missing(Member::Event)),
        LineFault::Object(ObjectFault::Missing(Member::Event)),
    ),
    // first_lines_of_objects: line 1 may be the first of a trace that stands on several, where it begins as an object does.
    ("{\n", LineFault::NotWhole, NOT_JSON),
    (" \t\r\n{", LineFault::NotWhole, NOT_JSON),
    (
        "{\"base\": 4096, \"granules\": 1,\n",
        LineFault::NotWhole,
        NOT_JSON,
    ),
    ("{\"event\":\"end\"} {}", LineFault::NotWhole, NOT_JSON),
    ("", NOT_JSON, NOT_JSON),
    (" \n", NOT_JSON, NOT_JSON),
    ("[{", NOT_JSON, NOT_JSON),
    ("\u{b}{", NOT_JSON, NOT_JSON),
];

#[test]
fn lines_of_other_kinds(rt: HostRuntime) {
    for (line, first, later) in &LINES {
        assert_line(&rt, line, *first, *later);
    }
    let (member, value) = (Member::Event, shown_text("none"));
    let fault = LineFault::Object(ObjectFault::BadMember { member, value });
    assert_line(&rt, r#"{"requests":[],"event":"none"}"#, fault, fault);
}

// Compares the text of a fault.
fn assert_text<R: AllocGlobal + Abort>(rt: &R, fault: LineFault, wanted: &str) {
    let text = format!(in rt.alloc(); "{fault}").expect(rt, "memory");
    assert_same(rt, text.as_str(), wanted);
}

#[test]
fn texts_of_their_faults(rt: HostRuntime) {
    for (fault, wanted) in &[
        (
            LineFault::OfTrace,
            "is of a trace, which chicheck explain reads",
        ),
        (
            LineFault::OfFlits,
            "is of flits, which the option --flits reads",
        ),
        (
            LineFault::NotWhole,
            "is not one whole JSON object, as an event is; chicheck explain reads a trace",
        ),
        (
            LineFault::Compressed,
            "is compressed by gzip, and gunzip -c gives its text",
        ),
        (LineFault::Object(ObjectFault::NotJson), "is not JSON"),
        (LineFault::Memory, "no memory"),
    ] {
        assert_text(&rt, *fault, wanted);
    }
}

const EVENTS: &str = "input is of events, which the option --events reads";

const FLITS: &str = "input is of flits, which the option --flits reads";

// The first line is looked at where the text is not JSON: events are, where there is one alone.
#[test]
fn events_as_a_trace(rt: HostRuntime) {
    for (text, wanted) in &[
        (r#"{"time":1,"event":"end"}"#, EVENTS),
        ("{\"time\":1,\"event\":\"end\"}\n", EVENTS),
        ("{\"event\":7}\n{\"event\":8}\n", EVENTS),
        ("{\"event\":7}\r\n{", EVENTS),
        ("{\"event\":\n7}", EVENTS),
        ("{\"time\":1}\n{\"event\":8}\n", "trace is not JSON"),
        ("[\"event\"]\n[]", "trace is not JSON"),
        ("{\"event\":7,\"requests\":[]}\n{}", "trace is not JSON"),
        (
            r#"{"event":7,"requests":[]}"#,
            "trace has an unknown member event",
        ),
        (r#"{"channel":"REQ"}"#, FLITS),
        ("{\"channel\":7}\n{\"event\":8}\n", FLITS),
        ("{\"event\":7,\"channel\":7}\n", EVENTS),
        (
            r#"{"channel":7,"requests":[]}"#,
            "trace has an unknown member channel",
        ),
        (r#"{"time":1}"#, "trace member requests is missing"),
    ] {
        assert_fault(&rt, text, wanted);
    }
}
