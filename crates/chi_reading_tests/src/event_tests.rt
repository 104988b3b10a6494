//! Each kind of event, and members that are ignored.

use crate::comparison::assert_same;
use crate::event_comparison::{assert_tells, read};
use chi_events::{Completion, EventKind, Packet, Requested, WordTold};
use chi_fields::Refusal;
use chi_lanes::Reply;
use chi_trace::RequestFields;

const WORD: WordTold = WordTold {
    number: 4,
    granule: 513,
    word: 0x0800_0000_0000_0201,
};

/// Lines, and what they tell.
const EVENTS: [(&str, EventKind); 24] = [
    // data_of_a_request
    (
        r#"{"time":70,"event":"data","id":18446744073709551615,"be":65535,"lanes":"000102030405060708090a0b0c0d0e0F"}"#,
        EventKind::Data(Packet {
            id: 18446744073709551615,
            be: 65535,
            lanes: [0, 1, 2, 3, 4, 5, 6, 7, 8, 9, 10, 11, 12, 13, 14, 15],
        }),
    ),
    // completions
    (
        r#"{"time":70,"event":"reply","id":3,"reply":"comp"}"#,
        EventKind::Reply(Completion {
            id: 3,
            reply: Some(Reply::Comp),
        }),
    ),
    (
        r#"{"time":70,"event":"reply","id":3,"reply":"ff000000000000000000000000000001"}"#,
        EventKind::Reply(Completion {
            id: 3,
            reply: Some(Reply::CompData([255, 0, 0, 0, 0, 0, 0, 0, 0, 0, 0, 0, 0, 0, 0, 1])),
        }),
    ),
    (
        r#"{"time":70,"event":"reply","id":3,"reply":null}"#,
        EventKind::Reply(Completion { id: 3, reply: None }),
    ),
    // dropped_request
    (
        r#"{"time":70,"event":"dropped","id":0}"#,
        EventKind::Dropped { id: 0 },
    ),
    // refused_request
    (
        r#"{"time":70,"event":"refused","id":3}"#,
        EventKind::Refused {
            id: 3,
            reason: None,
        },
    ),
    (
        r#"{"time":70,"event":"refused","id":3,"reason":"UnknownOpcode"}"#,
        EventKind::Refused {
            id: 3,
            reason: Some(Refusal::UnknownOpcode),
        },
    ),
    (
        r#"{"time":70,"event":"refused","id":3,"reason":"ReservedSize"}"#,
        EventKind::Refused {
            id: 3,
            reason: Some(Refusal::ReservedSize),
        },
    ),
    (
        r#"{"time":70,"event":"refused","id":3,"reason":"SizeOutOfProfile"}"#,
        EventKind::Refused {
            id: 3,
            reason: Some(Refusal::SizeOutOfProfile),
        },
    ),
    (
        r#"{"time":70,"event":"refused","id":3,"reason":"Misaligned"}"#,
        EventKind::Refused {
            id: 3,
            reason: Some(Refusal::Misaligned),
        },
    ),
    (
        r#"{"time":70,"event":"refused","id":3,"reason":"OutOfRegion"}"#,
        EventKind::Refused {
            id: 3,
            reason: Some(Refusal::OutOfRegion),
        },
    ),
    (
        r#"{"time":70,"event":"refused","id":3,"reason":"BadByteEnable"}"#,
        EventKind::Refused {
            id: 3,
            reason: Some(Refusal::BadByteEnable),
        },
    ),
    // words: the bytes are in address order, so the first is the least of the word.
    (
        r#"{"time":70,"event":"word","addr":4104,"bytes":"0102000000000008"}"#,
        EventKind::Word(WORD),
    ),
    (
        r#"{"time":70,"event":"word","addr":4104,"bytes":"0102000000000008","final":false}"#,
        EventKind::Word(WORD),
    ),
    (
        r#"{"time":70,"event":"word","addr":4104,"bytes":"0102000000000008","final":true}"#,
        EventKind::Final(WORD),
    ),
    // last_granule
    (
        r#"{"time":70,"event":"word","addr":4503599627370488,"bytes":"0000000000000000"}"#,
        EventKind::Word(WordTold {
            number: 4,
            granule: 562949953421311,
            word: 0,
        }),
    ),
    // unknown_bytes
    (
        r#"{"time":70,"event":"unknown","addr":4097,"length":1}"#,
        EventKind::Unknown {
            addr: 4097,
            length: 1,
        },
    ),
    (
        r#"{"time":70,"event":"unknown","addr":4503599627366400,"length":4096}"#,
        EventKind::Unknown {
            addr: 4503599627366400,
            length: 4096,
        },
    ),
    // end
    (r#"{"time":70,"event":"end"}"#, EventKind::End),
    // members_that_are_ignored
    (
        r#"{"time":70,"event":"dropped","id":3,"x-note":{"id":[4]}}"#,
        EventKind::Dropped { id: 3 },
    ),
    (
        r#"{"x-":0,"id":3,"event":"dropped","x-x":null,"time":70}"#,
        EventKind::Dropped { id: 3 },
    ),
    // member_told_twice: of two members of one name the last counts, as in `serde_json`.
    (
        r#"{"time":70,"event":"dropped","id":"none","id":3}"#,
        EventKind::Dropped { id: 3 },
    ),
    // requests_with_and_without_data
    (
        r#"{"time":70,"event":"request","id":3,"src":513,"txn":65535,"op":48,"size":3,"addr":4096,"endian":1,"be":255,"lanes":"01000000000000000000000000000000"}"#,
        EventKind::Request(Requested {
            id: 3,
            fields: RequestFields {
                number: 4,
                src: 513,
                txn: 65535,
                opcode: 48,
                size: 3,
                addr: 4096,
                endian: true,
                be: 255,
                lanes: [1, 0, 0, 0, 0, 0, 0, 0, 0, 0, 0, 0, 0, 0, 0, 0],
            },
            has_data: true,
        }),
    ),
    (
        r#"{"time":70,"event":"request","id":3,"src":65535,"txn":0,"op":255,"size":7,"addr":18446744073709551615,"endian":0}"#,
        EventKind::Request(Requested {
            id: 3,
            fields: RequestFields {
                number: 4,
                src: 65535,
                txn: 0,
                opcode: 255,
                size: 7,
                addr: 18446744073709551615,
                endian: false,
                be: 0,
                lanes: [0, 0, 0, 0, 0, 0, 0, 0, 0, 0, 0, 0, 0, 0, 0, 0],
            },
            has_data: false,
        }),
    ),
];

#[test]
fn events_of_each_kind(rt: HostRuntime) {
    for (line, wanted) in &EVENTS {
        assert_tells(&rt, line, wanted);
    }
}

#[test]
fn greatest_time(rt: HostRuntime) {
    let line = b"{\"time\":18446744073709551615,\"event\":\"dropped\",\"id\":3}\r\n";
    match read(&rt, 1, line) {
        Ok(event) => assert_same(&rt, event.time, 18446744073709551615),
        Err(_) => panic!(rt; "no event"),
    }
}
