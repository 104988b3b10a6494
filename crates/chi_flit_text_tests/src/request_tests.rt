//! Requests, and which of their members are looked at.

use crate::comparison::{assert_states, assert_unknown};
use chi_flit_text::FlitMember;
use chi_flits::{FlitKind, RequestFlit};

/// A request without its opcode, and not closed.
const REQUEST: &str =
    r#"{"channel":"REQ","time":70,"src":"1","txn":"2","size":"3","addr":"40","endian":"0","excl":"0""#;

/// A request of which no digit is known, without its opcode and not closed.
const UNKNOWN: &str =
    r#"{"channel":"REQ","time":70,"src":"X","txn":"z","size":"x","addr":"0Z","endian":"x","excl":"xx""#;

/// The opening of a request whose members follow.
const START: &str = r#"{"channel":"REQ","time":70"#;

const REQUESTS: [(&str, &str, FlitKind); 3] = [
    (
        START,
        r#","src":"0012","txn":"0A3","opcode":"1c","size":"3","addr":"00000000010F8","endian":"0","excl":"1""#,
        FlitKind::Request(RequestFlit {
            number: 7,
            src: 18,
            txn: 163,
            opcode: 28,
            size: 3,
            addr: 4344,
            endian: false,
            excl: true,
        }),
    ),
    (
        START,
        r#","src":"000000000000ffff","txn":"FFFF","opcode":"39","size":"7","addr":"fffffffffffff","endian":"01""#,
        FlitKind::Request(RequestFlit {
            number: 7,
            src: 65535,
            txn: 65535,
            opcode: 57,
            size: 7,
            addr: 4503599627370495,
            endian: true,
            excl: false,
        }),
    ),
    (
        START,
        r#","src":"0","txn":"0","opcode":"ff","size":"0","addr":"0","valid":"1","x-note":"g""#,
        FlitKind::Request(RequestFlit {
            number: 7,
            src: 0,
            txn: 0,
            opcode: 255,
            size: 0,
            addr: 0,
            endian: false,
            excl: false,
        }),
    ),
];

#[test]
fn requests(rt: HostRuntime) {
    for (opening, members, wanted) in &REQUESTS {
        assert_states(&rt, opening, members, wanted);
    }
}

/// Members of requests of which no digit is known but those stated here, their opcodes, and the requester, transaction, size and
/// address that they state.
const NOT_LOOKED_AT: [(&str, u8, (u16, u16), (u8, u64)); 15] = [
    (r#","opcode":"0""#, 0x00, (0, 0), (0, 0)),
    (r#","opcode":"5""#, 0x05, (0, 0), (0, 0)),
    (r#","opcode":"3a""#, 0x3a, (0, 0), (0, 0)),
    (r#","src":"1","txn":"2","opcode":"1""#, 0x01, (1, 2), (0, 0)),
    (r#","src":"1","txn":"2","opcode":"2""#, 0x02, (1, 2), (0, 0)),
    (r#","src":"1","txn":"2","opcode":"3""#, 0x03, (1, 2), (0, 0)),
    (r#","src":"1","txn":"2","opcode":"d""#, 0x0d, (1, 2), (0, 0)),
    (
        r#","src":"1","txn":"2","opcode":"14""#,
        0x14,
        (1, 2),
        (0, 0),
    ),
    (
        r#","src":"1","txn":"2","opcode":"22""#,
        0x22,
        (1, 2),
        (0, 0),
    ),
    (
        r#","src":"1","txn":"2","opcode":"23""#,
        0x23,
        (1, 2),
        (0, 0),
    ),
    (
        r#","src":"1","txn":"2","opcode":"24""#,
        0x24,
        (1, 2),
        (0, 0),
    ),
    (
        r#","src":"1","txn":"2","opcode":"26""#,
        0x26,
        (1, 2),
        (0, 0),
    ),
    (
        r#","src":"1","txn":"2","size":"3","addr":"40","opcode":"27""#,
        0x27,
        (1, 2),
        (3, 64),
    ),
    (
        r#","src":"1","txn":"2","size":"3","addr":"40","endian":"0","opcode":"28""#,
        0x28,
        (1, 2),
        (3, 64),
    ),
    (
        r#","src":"1","txn":"2","size":"3","addr":"40","opcode":"3b""#,
        0x3b,
        (1, 2),
        (3, 64),
    ),
];

#[test]
fn members_of_requests_that_are_not_looked_at(rt: HostRuntime) {
    for (members, opcode, (src, txn), (size, addr)) in &NOT_LOOKED_AT {
        let wanted = RequestFlit {
            number: 7,
            src: *src,
            txn: *txn,
            opcode: *opcode,
            size: *size,
            addr: *addr,
            endian: false,
            excl: false,
        };
        assert_states(&rt, UNKNOWN, members, &FlitKind::Request(wanted));
    }
}

const LOOKED_AT: [(&str, &str, FlitMember); 17] = [
    (REQUEST, r#","opcode":"01","src":"1x""#, FlitMember::Src),
    (REQUEST, r#","opcode":"26","txn":"1x""#, FlitMember::Txn),
    (REQUEST, r#","opcode":"04","src":"1x""#, FlitMember::Src),
    (REQUEST, r#","opcode":"04","txn":"1x""#, FlitMember::Txn),
    (REQUEST, r#","opcode":"04","size":"1x""#, FlitMember::Size),
    (REQUEST, r#","opcode":"04","addr":"1x""#, FlitMember::Addr),
    (REQUEST, r#","opcode":"04","excl":"1x""#, FlitMember::Excl),
    (REQUEST, r#","opcode":"1c","excl":"1x""#, FlitMember::Excl),
    (REQUEST, r#","opcode":"1d","excl":"1x""#, FlitMember::Excl),
    (
        REQUEST,
        r#","opcode":"28","endian":"1x""#,
        FlitMember::Endian,
    ),
    (
        REQUEST,
        r#","opcode":"39","endian":"1x""#,
        FlitMember::Endian,
    ),
    (REQUEST, r#","opcode":"27","addr":"1x""#, FlitMember::Addr),
    (REQUEST, r#","opcode":"3b","size":"1x""#, FlitMember::Size),
    (
        REQUEST,
        r#","opcode":"x","opcode":"1x""#,
        FlitMember::Opcode,
    ),
    (REQUEST, r#","opcode":"0Z","src":"1x""#, FlitMember::Opcode),
    (UNKNOWN, r#","opcode":"28""#, FlitMember::Src),
    (
        UNKNOWN,
        r#","opcode":"28","src":"0","txn":"0""#,
        FlitMember::Size,
    ),
];

#[test]
fn members_of_requests_that_are_looked_at(rt: HostRuntime) {
    for (opening, members, member) in &LOOKED_AT {
        assert_unknown(&rt, opening, members, *member);
    }
}
