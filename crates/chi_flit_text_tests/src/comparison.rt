//! What an object states, and its fault, beside what is wanted. A text is told by its opening and the members after that, and is
//! closed here.

use chi_flit_text::{FlitLineFault, FlitMember, read_flit};
use chi_flits::{Chunk, DataFlit, Flit, FlitKind, RequestFlit, ResponseFlit};
use chi_json::json;
use std::process::Abort;

fn same_request(found: &RequestFlit, wanted: &RequestFlit) -> bool {
    found.number == wanted.number
        && found.src == wanted.src
        && found.txn == wanted.txn
        && found.opcode == wanted.opcode
        && found.size == wanted.size
        && found.addr == wanted.addr
        && found.endian == wanted.endian
        && found.excl == wanted.excl
}

fn same_response(found: &ResponseFlit, wanted: &ResponseFlit) -> bool {
    found.tgt == wanted.tgt
        && found.txn == wanted.txn
        && found.opcode == wanted.opcode
        && found.resp_err == wanted.resp_err
        && found.dbid == wanted.dbid
}

fn same_chunk(found: &Option<Chunk>, wanted: &Option<Chunk>) -> bool {
    match (found, wanted) {
        (Some(found), Some(wanted)) => {
            found.be == wanted.be
                && found.unknown_be == wanted.unknown_be
                && found.lanes == wanted.lanes
                && found.unknown == wanted.unknown
        }
        (None, None) => true,
        _ => false,
    }
}

fn same_data(found: &DataFlit, wanted: &DataFlit) -> bool {
    found.node == wanted.node
        && found.txn == wanted.txn
        && found.opcode == wanted.opcode
        && found.resp_err == wanted.resp_err
        && same_chunk(&found.chunks[0], &wanted.chunks[0])
        && same_chunk(&found.chunks[1], &wanted.chunks[1])
        && same_chunk(&found.chunks[2], &wanted.chunks[2])
        && same_chunk(&found.chunks[3], &wanted.chunks[3])
}

fn same_kind(found: &FlitKind, wanted: &FlitKind) -> bool {
    match (found, wanted) {
        (FlitKind::Request(found), FlitKind::Request(wanted)) => same_request(found, wanted),
        (FlitKind::Response(found), FlitKind::Response(wanted)) => same_response(found, wanted),
        (FlitKind::ReadData(found), FlitKind::ReadData(wanted)) => same_data(found, wanted),
        (FlitKind::WriteData(found), FlitKind::WriteData(wanted)) => same_data(found, wanted),
        _ => false,
    }
}

/// What the object of this text on line 7 states, or its fault.
fn read<R: AllocGlobal + Abort>(rt: &R, text: &str) -> Result<Flit, FlitLineFault> {
    let object = match json(rt.alloc(), text.as_bytes()) {
        Ok(Some(object)) => object,
        _ => panic!(*rt; "{text}"),
    };
    match object.as_object() {
        Some(members) => read_flit(7, &object, members),
        None => panic!(*rt; "{text}"),
    }
}

/// The text of an object.
fn closed<R: AllocGlobal + Abort>(rt: &R, opening: &str, members: &str) -> String {
    format!(in rt.alloc(); "{opening}{members}}}").expect(rt, "memory")
}

/// Compares the flit of line 7, at time 70.
pub(crate) fn assert_states<R: AllocGlobal + Abort>(
    rt: &R,
    opening: &str,
    members: &str,
    wanted: &FlitKind,
) {
    let text = closed(rt, opening, members);
    let is_stated = match read(rt, text.as_str()) {
        Ok(flit) => flit.time == 70 && same_kind(&flit.kind, wanted),
        Err(_) => false,
    };
    assert!(*rt; is_stated, "{text}");
}

/// Compares the fault of line 7.
pub(crate) fn assert_fault<R: AllocGlobal + Abort>(
    rt: &R,
    opening: &str,
    members: &str,
    wanted: FlitLineFault,
) {
    let text = closed(rt, opening, members);
    assert_eq!(*rt; read(rt, text.as_str()).err(), Some(wanted), "{text}");
}

/// Compares the fault of line 7, of which this member is not known and is looked at.
pub(crate) fn assert_unknown<R: AllocGlobal + Abort>(
    rt: &R,
    opening: &str,
    members: &str,
    member: FlitMember,
) {
    assert_fault(rt, opening, members, FlitLineFault::UnknownDigit(member));
}
