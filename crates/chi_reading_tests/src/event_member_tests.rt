//! Members of a line that are not as stated or missing.

use crate::event_comparison::{assert_bad_member, assert_fault, shown_text};
use chi_json::{ObjectFault, ShownValue};
use chi_reading::Member;

/// Lines, which member is not as stated, and its value. The first fault is told.
const BAD_VALUES: [(&str, Member, ShownValue); 21] = [
    (r#"{"event":7}"#, Member::Event, ShownValue::Whole(7)),
    (
        r#"{"event":"dropped","time":-1}"#,
        Member::Time,
        ShownValue::Whole(-1),
    ),
    (
        r#"{"event":"dropped","time":70,"id":0.5}"#,
        Member::Id,
        ShownValue::Number,
    ),
    (
        r#"{"event":"data","time":70,"id":3,"be":65536}"#,
        Member::Be,
        ShownValue::Whole(65536),
    ),
    (
        r#"{"event":"reply","time":70,"id":3,"reply":0}"#,
        Member::Reply,
        ShownValue::Whole(0),
    ),
    (
        r#"{"event":"refused","time":70,"id":3,"reason":null}"#,
        Member::Reason,
        ShownValue::Null,
    ),
    (
        r#"{"event":"word","time":70,"addr":4,"bytes":"0000000000000000"}"#,
        Member::Addr,
        ShownValue::Whole(4),
    ),
    (
        r#"{"event":"word","time":70,"addr":4503599627370496,"bytes":"0000000000000000"}"#,
        Member::Addr,
        ShownValue::Whole(4503599627370496),
    ),
    (
        r#"{"event":"word","time":70,"addr":8,"bytes":"0000000000000000","final":1}"#,
        Member::Final,
        ShownValue::Whole(1),
    ),
    (
        r#"{"event":"unknown","time":70,"addr":0,"length":0}"#,
        Member::Length,
        ShownValue::Whole(0),
    ),
    (
        r#"{"event":"unknown","time":70,"addr":0,"length":4097}"#,
        Member::Length,
        ShownValue::Whole(4097),
    ),
    (
        r#"{"event":"unknown","time":70,"addr":4503599627366401,"length":4096}"#,
        Member::Length,
        ShownValue::Whole(4096),
    ),
    (
        r#"{"time":70,"event":"request","id":-1,"src":0,"txn":0,"op":0,"size":0,"addr":0,"endian":0}"#,
        Member::Id,
        ShownValue::Whole(-1),
    ),
    (
        r#"{"time":70,"event":"request","id":0,"src":65536,"txn":0,"op":0,"size":0,"addr":0,"endian":0}"#,
        Member::Src,
        ShownValue::Whole(65536),
    ),
    (
        r#"{"time":70,"event":"request","id":0,"src":0,"txn":65536,"op":0,"size":0,"addr":0,"endian":0}"#,
        Member::Txn,
        ShownValue::Whole(65536),
    ),
    (
        r#"{"time":70,"event":"request","id":0,"src":0,"txn":0,"op":256,"size":0,"addr":0,"endian":0}"#,
        Member::Opcode,
        ShownValue::Whole(256),
    ),
    (
        r#"{"time":70,"event":"request","id":0,"src":0,"txn":0,"op":0,"size":8,"addr":0,"endian":0}"#,
        Member::Size,
        ShownValue::Whole(8),
    ),
    (
        r#"{"time":70,"event":"request","id":0,"src":0,"txn":0,"op":0,"size":0,"addr":18446744073709551616,"endian":0}"#,
        Member::Addr,
        ShownValue::Number,
    ),
    (
        r#"{"time":70,"event":"request","id":0,"src":0,"txn":0,"op":0,"size":0,"addr":0,"endian":2}"#,
        Member::Endian,
        ShownValue::Whole(2),
    ),
    (
        r#"{"time":70,"event":"request","id":0,"src":0,"txn":0,"op":0,"size":0,"addr":0,"endian":0,"be":65536,"lanes":"00000000000000000000000000000000"}"#,
        Member::Be,
        ShownValue::Whole(65536),
    ),
    // first_fault: members in the order of the kind, and other members last.
    (
        r#"{"note":0,"event":"data","lanes":"","id":-1,"time":70}"#,
        Member::Id,
        ShownValue::Whole(-1),
    ),
];

/// The same, of a value that is a text.
const BAD_TEXTS: [(&str, Member, &str); 7] = [
    (
        r#"{"event":"data","time":70,"id":3,"be":1,"lanes":"0g000000000000000000000000000000"}"#,
        Member::Lanes,
        "0g000000000000000000000000000000",
    ),
    (
        r#"{"event":"reply","time":70,"id":3,"reply":"Comp"}"#,
        Member::Reply,
        "Comp",
    ),
    (
        r#"{"event":"refused","time":70,"id":3,"reason":"misaligned"}"#,
        Member::Reason,
        "misaligned",
    ),
    (
        r#"{"event":"word","time":70,"addr":8,"bytes":"00000000000000"}"#,
        Member::Bytes,
        "00000000000000",
    ),
    (
        r#"{"time":70,"event":"request","id":0,"src":0,"txn":0,"op":0,"size":0,"addr":0,"endian":0,"be":1,"lanes":"0000000000000000000000000000000"}"#,
        Member::Lanes,
        "0000000000000000000000000000000",
    ),
    // first_fault
    (
        r#"{"note":0,"time":-1,"event":"write"}"#,
        Member::Event,
        "write",
    ),
    (
        r#"{"note":0,"event":"data","lanes":"","id":1,"be":0,"time":70}"#,
        Member::Lanes,
        "",
    ),
];

#[test]
fn bad_members(rt: HostRuntime) {
    for (line, member, value) in &BAD_VALUES {
        assert_bad_member(&rt, line, *member, *value);
    }
    for (line, member, text) in &BAD_TEXTS {
        assert_bad_member(&rt, line, *member, shown_text(text));
    }
}

/// Lines, and which member is missing: also of requests with one half of their data.
const MISSING: [(&str, Member); 17] = [
    (r#"{"event":"data","time":70}"#, Member::Id),
    (r#"{"event":"data","time":70,"id":3}"#, Member::Be),
    (r#"{"event":"data","time":70,"id":3,"be":1}"#, Member::Lanes),
    (r#"{"event":"reply","time":70}"#, Member::Id),
    (r#"{"event":"reply","time":70,"id":3}"#, Member::Reply),
    (r#"{"event":"refused","time":70}"#, Member::Id),
    (r#"{"event":"word","time":70}"#, Member::Addr),
    (r#"{"event":"unknown","time":70}"#, Member::Addr),
    // half_of_the_data
    (
        r#"{"time":70,"event":"request","id":3,"src":1,"txn":2,"op":48,"size":3,"addr":4096,"endian":0,"be":255}"#,
        Member::Lanes,
    ),
    (
        r#"{"time":70,"event":"request","id":3,"src":1,"txn":2,"op":48,"size":3,"addr":4096,"endian":0,"lanes":"01000000000000000000000000000000"}"#,
        Member::Be,
    ),
    // missing_members of requests
    (r#"{"time":70,"event":"request"}"#, Member::Id),
    (r#"{"time":70,"event":"request","id":0}"#, Member::Src),
    (
        r#"{"time":70,"event":"request","id":0,"src":0}"#,
        Member::Txn,
    ),
    (
        r#"{"time":70,"event":"request","id":0,"src":0,"txn":0}"#,
        Member::Opcode,
    ),
    (
        r#"{"time":70,"event":"request","id":0,"src":0,"txn":0,"op":0}"#,
        Member::Size,
    ),
    (
        r#"{"time":70,"event":"request","id":0,"src":0,"txn":0,"op":0,"size":0}"#,
        Member::Addr,
    ),
    (
        r#"{"time":70,"event":"request","id":0,"src":0,"txn":0,"op":0,"size":0,"addr":0}"#,
        Member::Endian,
    ),
];

#[test]
fn missing_members(rt: HostRuntime) {
    for (line, member) in &MISSING {
        assert_fault(&rt, line, ObjectFault::Missing(*member));
    }
}
