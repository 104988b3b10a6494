//! Data of each width, their lanes and enables.

use crate::comparison::assert_states;
use chi_flits::{Chunk, DataFlit, FlitKind};
use std::process::Abort;

/// The lanes that 16 bytes of the texts below state, of which the first has the last digits.
const LANES: [u8; 16] = [
    0xf0, 0xe1, 0xd2, 0xc3, 0xb4, 0xa5, 0x96, 0x87, 0x78, 0x69, 0x5a, 0x4b, 0x3c, 0x2d, 0x1e, 0x0f,
];

const FIVES: [u8; 16] = [0x55; 16];

/// Data to a requester, without its opcode, its DataID and its data, and not closed.
pub(crate) const READ: &str = r#"{"channel":"RDAT","time":70,"tgt":"2","txn":"3","resp_err":"1""#;

/// Data from a requester, likewise, and without its enables.
pub(crate) const WRITE: &str = r#"{"channel":"WDAT","time":70,"src":"2","txn":"3""#;

/// A chunk of which all is known.
fn known(be: u16, lanes: [u8; 16]) -> Option<Chunk> {
    Some(Chunk {
        be,
        unknown_be: 0,
        lanes,
        unknown: 0,
    })
}

/// Data of node 2, with the transaction 3.
fn data(opcode: u8, resp_err: u8, chunks: [Option<Chunk>; 4]) -> DataFlit {
    DataFlit {
        node: 2,
        txn: 3,
        opcode,
        resp_err,
        chunks,
    }
}

/// Compares what data to a requester state.
fn assert_read<R: AllocGlobal + Abort>(rt: &R, members: &str, wanted: DataFlit) {
    assert_states(rt, READ, members, &FlitKind::ReadData(wanted));
}

/// Compares what data from a requester state.
fn assert_write<R: AllocGlobal + Abort>(rt: &R, members: &str, wanted: DataFlit) {
    assert_states(rt, WRITE, members, &FlitKind::WriteData(wanted));
}

#[test]
fn data_of_16_bytes(rt: HostRuntime) {
    let chunk = known(0, LANES);
    let members = r#","opcode":"4","data_id":"0","data":"0F1e2d3c4b5a69788796a5b4c3d2e1f0""#;
    assert_read(&rt, members, data(4, 1, [chunk, None, None, None]));
    let members = r#","opcode":"4","data_id":"1","data":"0F1e2d3c4b5a69788796a5b4c3d2e1f0""#;
    assert_read(&rt, members, data(4, 1, [None, chunk, None, None]));
    let members = r#","opcode":"4","data_id":"2","data":"0F1e2d3c4b5a69788796a5b4c3d2e1f0""#;
    assert_read(&rt, members, data(4, 1, [None, None, chunk, None]));
    let members = r#","opcode":"4","data_id":"3","data":"0F1e2d3c4b5a69788796a5b4c3d2e1f0""#;
    assert_read(&rt, members, data(4, 1, [None, None, None, chunk]));
}

#[test]
fn data_of_32_bytes(rt: HostRuntime) {
    let low = known(0x8001, LANES);
    let high = known(0x0ff0, FIVES);
    let members =
        r#","opcode":"3","data_id":"0","be":"0Ff08001","data":"555555555555555555555555555555550F1e2d3c4b5a69788796a5b4c3d2e1f0""#;
    assert_write(&rt, members, data(3, 0, [low, high, None, None]));
    let members =
        r#","opcode":"3","data_id":"2","be":"0Ff08001","data":"555555555555555555555555555555550F1e2d3c4b5a69788796a5b4c3d2e1f0""#;
    assert_write(&rt, members, data(3, 0, [None, None, low, high]));
}

#[test]
fn data_of_64_bytes(rt: HostRuntime) {
    let chunks = [
        known(0x1111, LANES),
        known(0x2222, FIVES),
        known(0x3333, LANES),
        known(0x4444, FIVES),
    ];
    let members =
        r#","opcode":"7","data_id":"0","resp_err":"2","be":"4444333322221111","data":"555555555555555555555555555555550F1e2d3c4b5a69788796a5b4c3d2e1f0555555555555555555555555555555550F1e2d3c4b5a69788796a5b4c3d2e1f0""#;
    assert_write(&rt, members, data(7, 2, chunks));
}

#[test]
fn lanes_and_enables_that_are_not_known(rt: HostRuntime) {
    let mut lanes = [0x22; 16];
    lanes[0] = 0;
    lanes[2] = 0;
    lanes[15] = 0;
    let chunk = Some(Chunk {
        be: 0x1008,
        unknown_be: 0x0ff0,
        lanes,
        unknown: 0x8005,
    });
    let members =
        r#","opcode":"3","data_id":"1","resp_err":"0","be":"1xZ8","data":"x1222222222222222222222222zZ223X""#;
    assert_write(&rt, members, data(3, 0, [None, chunk, None, None]));
}

#[test]
fn members_of_data_that_are_not_looked_at(rt: HostRuntime) {
    let nothing = DataFlit {
        node: 0,
        txn: 0,
        ..data(2, 0, [None; 4])
    };
    let members =
        r#","opcode":"2","tgt":"x","txn":"x","resp_err":"x","data_id":"x","data":"0F1e2d3c4b5a69788796a5b4c3d2e1f0""#;
    assert_read(&rt, members, nothing);
    let members =
        r#","opcode":"2","src":"x","txn":"x","resp_err":"x","data_id":"x","be":"ffff","data":"0F1e2d3c4b5a69788796a5b4c3d2e1f0""#;
    assert_write(&rt, members, nothing);
    let members =
        r#","opcode":"2","src":"x","txn":"x","data_id":"1","be":"ffffffff","data":"555555555555555555555555555555550F1e2d3c4b5a69788796a5b4c3d2e1f0""#;
    assert_write(&rt, members, nothing);
    let last = data(7, 0, [None, None, None, known(0x8001, LANES)]);
    let members =
        r#","opcode":"7","resp_err":"x","data_id":"3","be":"8001","data":"0F1e2d3c4b5a69788796a5b4c3d2e1f0""#;
    assert_write(&rt, members, last);
}
