//! The faults of a line, and their texts, and members that its kind of event does not have.

use crate::comparison::assert_same;
use crate::event_comparison::{assert_fault, read, shown_text};
use chi_json::{ObjectFault, ShownText, ShownValue};
use chi_reading::Member;
use std::process::Abort;

// Compares the text of a fault.
fn assert_text<R: AllocGlobal + Abort>(rt: &R, fault: ObjectFault<Member>, wanted: &str) {
    let text = format!(in rt.alloc(); "{fault}").expect(rt, "memory");
    assert!(*rt; text.as_str() == wanted, "{wanted}");
}

/// Lines, their faults, and the texts of these.
const FAULTS: [(&str, ObjectFault<Member>, &str); 9] = [
    ("{", ObjectFault::NotJson, "is not JSON"),
    ("", ObjectFault::NotJson, "is not JSON"),
    (
        r#"[{"event":"dropped"}]"#,
        ObjectFault::NotObject,
        "is not an object",
    ),
    (
        "{}",
        ObjectFault::Missing(Member::Event),
        "member event is missing",
    ),
    (
        r#"{"event":"data"}"#,
        ObjectFault::Missing(Member::Time),
        "member time is missing",
    ),
    (
        r#"{"event":"data","time":18446744073709551616}"#,
        ObjectFault::BadMember {
            member: Member::Time,
            value: ShownValue::Number,
        },
        "member time is a number, and not a whole number below 2^64",
    ),
    (
        r#"{"event":"dropped","time":70}"#,
        ObjectFault::Missing(Member::Id),
        "member id is missing",
    ),
    (
        r#"{"event":"word","time":70,"addr":0}"#,
        ObjectFault::Missing(Member::Bytes),
        "member bytes is missing",
    ),
    (
        r#"{"event":"unknown","time":70,"addr":0}"#,
        ObjectFault::Missing(Member::Length),
        "member length is missing",
    ),
];

#[test]
fn faults_and_their_texts(rt: HostRuntime) {
    for (line, fault, text) in &FAULTS {
        assert_fault(&rt, line, *fault);
        assert_text(&rt, *fault, text);
    }
    let (member, value) = (Member::Event, shown_text("Data"));
    let fault = ObjectFault::BadMember { member, value };
    assert_fault(&rt, r#"{"event":"Data"}"#, fault);
    let wanted = "member event is \"Data\", and not the name of an event";
    assert_text(&rt, fault, wanted);
    let fault = ObjectFault::UnknownMember(ShownText::of("note"));
    let line = r#"{"event":"dropped","time":70,"id":3,"note":0}"#;
    assert_fault(&rt, line, fault);
    assert_text(&rt, fault, "has an unknown member note");
    assert_text(&rt, ObjectFault::Memory, "no memory");
}

// Compares the text of the fault of an id of this value.
fn assert_shown<R: AllocGlobal + Abort>(rt: &R, value: &str, shown: &str) {
    let line = format!(in rt.alloc();
        "{{\"event\":\"dropped\",\"time\":70,\"id\":{value}}}"
    ).expect(rt, "memory");
    let wanted = format!(in rt.alloc();
        "member id is {shown}, and not a whole number below 2^64"
    ).expect(rt, "memory");
    match read(rt, 4, line.as_bytes()) {
        Ok(_) => panic!(*rt; "{value}"),
        Err(fault) => {
            let found = format!(in rt.alloc(); "{fault}").expect(rt, "memory");
            assert_same(rt, found.as_str(), wanted.as_str());
        }
    }
}

// Of a text the first 32 bytes are shown; what is no printing letter is a question mark for each byte.
#[test]
fn values_and_their_texts(rt: HostRuntime) {
    for (value, shown) in &[
        ("null", "null"),
        ("true", "true"),
        ("false", "false"),
        ("-1", "-1"),
        ("-9223372036854775808", "-9223372036854775808"),
        ("-9223372036854775809", "a number"),
        ("18446744073709551616", "a number"),
        ("0.5", "a number"),
        ("1e1", "a number"),
        (r#""""#, r#""""#),
        (r#""0x1000""#, r#""0x1000""#),
        (
            r#""abcdefghijklmnopqrstuvwxyz012345""#,
            r#""abcdefghijklmnopqrstuvwxyz012345""#,
        ),
        (
            r#""abcdefghijklmnopqrstuvwxyz0123456""#,
            r#""abcdefghijklmnopqrstuvwxyz012345...""#,
        ),
        (r#""a \u00e9~""#, r#""a???~""#),
        ("[0]", "a list"),
        (r#"{"id":0}"#, "an object"),
    ] {
        assert_shown(&rt, value, shown);
    }
}

/// Lines and their members of another kind of event, or whose names are like `x-`.
const OTHERS: [(&str, &str); 9] = [
    (
        r#"{"event":"dropped","time":70,"id":3,"reply":null}"#,
        "reply",
    ),
    (
        r#"{"event":"data","time":70,"id":3,"be":1,"lanes":"00000000000000000000000000000000","addr":0}"#,
        "addr",
    ),
    (
        r#"{"event":"reply","time":70,"id":3,"reply":null,"final":true}"#,
        "final",
    ),
    (
        r#"{"event":"word","time":70,"addr":0,"bytes":"0000000000000000","id":3}"#,
        "id",
    ),
    (
        r#"{"event":"unknown","time":70,"addr":0,"length":1,"bytes":"00"}"#,
        "bytes",
    ),
    (
        r#"{"event":"dropped","time":70,"id":3,"reason":"Misaligned"}"#,
        "reason",
    ),
    (
        r#"{"event":"dropped","time":70,"id":3,"X-note":0}"#,
        "X-note",
    ),
    (r#"{"event":"dropped","time":70,"id":3,"x":0}"#, "x"),
    (r#"{"event":"dropped","time":70,"id":3,"":0}"#, ""),
];

#[test]
fn members_of_other_events(rt: HostRuntime) {
    for (line, name) in &OTHERS {
        assert_fault(&rt, line, ObjectFault::UnknownMember(ShownText::of(name)));
    }
}
