//! Responses, and which of their members are looked at.

use crate::comparison::{assert_states, assert_unknown};
use chi_flit_text::FlitMember;
use chi_flits::{FlitKind, ResponseFlit};

/// The opening of a response whose members follow.
const START: &str = r#"{"channel":"RSP","time":70"#;

/// Members of responses, with the target, transaction and opcode, and the error and DBID, that they state.
const RESPONSES: [(&str, (u16, u16, u8), (u8, u16)); 6] = [
    (
        r#","tgt":"1","txn":"a3","opcode":"5","resp_err":"2","dbid":"00C""#,
        (1, 163, 5),
        (2, 12),
    ),
    (
        r#","tgt":"1","txn":"2","opcode":"4","resp_err":"3","dbid":"x""#,
        (1, 2, 4),
        (3, 0),
    ),
    (
        r#","tgt":"1","txn":"2","opcode":"3","resp_err":"x","dbid":"zzzz""#,
        (1, 2, 3),
        (0, 0),
    ),
    (
        r#","tgt":"1","txn":"2","opcode":"6","resp_err":"Z","dbid":"ffff""#,
        (1, 2, 6),
        (0, 65535),
    ),
    (
        r#","tgt":"X","txn":"x","opcode":"2","resp_err":"x","dbid":"x""#,
        (0, 0, 2),
        (0, 0),
    ),
    (
        r#","tgt":"X","txn":"x","opcode":"7","resp_err":"x","dbid":"x""#,
        (0, 0, 7),
        (0, 0),
    ),
];

#[test]
fn responses(rt: HostRuntime) {
    for (members, (tgt, txn, opcode), (resp_err, dbid)) in &RESPONSES {
        let wanted = ResponseFlit {
            tgt: *tgt,
            txn: *txn,
            opcode: *opcode,
            resp_err: *resp_err,
            dbid: *dbid,
        };
        assert_states(&rt, START, members, &FlitKind::Response(wanted));
    }
}

/// A response without its opcode, and not closed.
const RESPONSE: &str =
    r#"{"channel":"RSP","time":70,"tgt":"1","txn":"2","resp_err":"0","dbid":"3""#;

const LOOKED_AT: [(&str, FlitMember); 8] = [
    (r#","opcode":"3","tgt":"x""#, FlitMember::Tgt),
    (r#","opcode":"3","txn":"x""#, FlitMember::Txn),
    (r#","opcode":"4","resp_err":"x""#, FlitMember::RespErr),
    (r#","opcode":"5","resp_err":"x""#, FlitMember::RespErr),
    (r#","opcode":"5","dbid":"x""#, FlitMember::Dbid),
    (r#","opcode":"6","tgt":"x""#, FlitMember::Tgt),
    (r#","opcode":"6","dbid":"x""#, FlitMember::Dbid),
    (r#","opcode":"5","opcode":"x""#, FlitMember::Opcode),
];

#[test]
fn members_of_responses_that_are_looked_at(rt: HostRuntime) {
    for (members, member) in &LOOKED_AT {
        assert_unknown(&rt, RESPONSE, members, *member);
    }
}
