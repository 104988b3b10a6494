//! Which members of data are looked at, and DataIDs that they cannot have.

use crate::comparison::{assert_fault, assert_unknown};
use crate::data_tests::{READ, WRITE};
use chi_flit_text::{FlitLineFault, FlitMember};

const LOOKED_AT: [(&str, &str, FlitMember); 13] = [
    (
        READ,
        r#","opcode":"4","data_id":"0","data":"0F1e2d3c4b5a69788796a5b4c3d2e1f0","tgt":"x""#,
        FlitMember::Tgt,
    ),
    (
        READ,
        r#","opcode":"4","data_id":"0","data":"0F1e2d3c4b5a69788796a5b4c3d2e1f0","txn":"x""#,
        FlitMember::Txn,
    ),
    (
        READ,
        r#","opcode":"4","data_id":"0","data":"0F1e2d3c4b5a69788796a5b4c3d2e1f0","resp_err":"x""#,
        FlitMember::RespErr,
    ),
    (
        READ,
        r#","opcode":"4","data_id":"0","data":"0F1e2d3c4b5a69788796a5b4c3d2e1f0","data_id":"x""#,
        FlitMember::DataId,
    ),
    (
        READ,
        r#","opcode":"4","data_id":"0","data":"0F1e2d3c4b5a69788796a5b4c3d2e1f0","opcode":"x""#,
        FlitMember::Opcode,
    ),
    (
        WRITE,
        r#","opcode":"3","data_id":"0","be":"ffff","data":"0F1e2d3c4b5a69788796a5b4c3d2e1f0","src":"x""#,
        FlitMember::Src,
    ),
    (
        WRITE,
        r#","opcode":"3","data_id":"0","be":"ffff","data":"0F1e2d3c4b5a69788796a5b4c3d2e1f0","txn":"x""#,
        FlitMember::Txn,
    ),
    (
        WRITE,
        r#","opcode":"3","data_id":"0","be":"ffff","data":"0F1e2d3c4b5a69788796a5b4c3d2e1f0","data_id":"x""#,
        FlitMember::DataId,
    ),
    (
        WRITE,
        r#","opcode":"3","data_id":"0","be":"ffff","data":"0F1e2d3c4b5a69788796a5b4c3d2e1f0","resp_err":"x""#,
        FlitMember::RespErr,
    ),
    (
        WRITE,
        r#","opcode":"3","data_id":"0","be":"ffff","data":"0F1e2d3c4b5a69788796a5b4c3d2e1f0","opcode":"x""#,
        FlitMember::Opcode,
    ),
    (
        WRITE,
        r#","opcode":"7","data_id":"0","be":"ffff","data":"0F1e2d3c4b5a69788796a5b4c3d2e1f0","src":"x""#,
        FlitMember::Src,
    ),
    (
        WRITE,
        r#","opcode":"7","data_id":"0","be":"ffff","data":"0F1e2d3c4b5a69788796a5b4c3d2e1f0","txn":"x""#,
        FlitMember::Txn,
    ),
    (
        WRITE,
        r#","opcode":"7","data_id":"0","be":"ffff","data":"0F1e2d3c4b5a69788796a5b4c3d2e1f0","data_id":"x""#,
        FlitMember::DataId,
    ),
];

#[test]
fn members_of_data_that_are_looked_at(rt: HostRuntime) {
    for (opening, members, member) in &LOOKED_AT {
        assert_unknown(&rt, opening, members, *member);
    }
}

/// Two of the width 32, and three of the width 64.
const OTHER_IDS: [&str; 5] = [
    r#","opcode":"4","data_id":"1","data":"555555555555555555555555555555550F1e2d3c4b5a69788796a5b4c3d2e1f0""#,
    r#","opcode":"4","data_id":"3","data":"555555555555555555555555555555550F1e2d3c4b5a69788796a5b4c3d2e1f0""#,
    r#","opcode":"4","data_id":"1","data":"555555555555555555555555555555550F1e2d3c4b5a69788796a5b4c3d2e1f0555555555555555555555555555555550F1e2d3c4b5a69788796a5b4c3d2e1f0""#,
    r#","opcode":"4","data_id":"2","data":"555555555555555555555555555555550F1e2d3c4b5a69788796a5b4c3d2e1f0555555555555555555555555555555550F1e2d3c4b5a69788796a5b4c3d2e1f0""#,
    r#","opcode":"4","data_id":"3","data":"555555555555555555555555555555550F1e2d3c4b5a69788796a5b4c3d2e1f0555555555555555555555555555555550F1e2d3c4b5a69788796a5b4c3d2e1f0""#,
];

#[test]
fn data_ids_that_no_flit_of_the_width_has(rt: HostRuntime) {
    for members in &OTHER_IDS {
        assert_fault(&rt, READ, members, FlitLineFault::DataId);
    }
}
