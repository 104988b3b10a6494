//! Flits for the tests, and what a port tells of them.

use crate::tests::comparison::assert_same;
use chi_events::EventKind;
use chi_flits::{Chunk, DataFlit, Flit, FlitFault, FlitKind, Port, RequestFlit, ResponseFlit};
use chi_lanes::Reply;
use std::alloc::Global;
use std::process::Abort;
use std::test::Fail;

pub(crate) const READ: u8 = 0x04;

pub(crate) const WRITE: u8 = 0x1c;

pub(crate) const WRITE_FULL: u8 = 0x1d;

pub(crate) const STORE_ADD: u8 = 0x28;

pub(crate) const LOAD_ADD: u8 = 0x30;

pub(crate) const COMPARE: u8 = 0x39;

pub(crate) const RETRY_ACK: u8 = 3;

pub(crate) const COMP: u8 = 4;

pub(crate) const COMP_DBID: u8 = 5;

pub(crate) const DBID: u8 = 6;

pub(crate) const DATA: u8 = 3;

pub(crate) const CANCEL: u8 = 7;

/// What a port tells: a request by its number, opcode, size and address; data by their byte enables and bytes, of which that of
/// lane 0 is the least significant; a reply; that a request was dropped; a line that something else may have written; or a fault.
#[derive(Clone, Copy, Debug, PartialEq, Eq)]
pub(crate) enum Told {
    Request(u64, u8, u8, u64),
    Data(u64, u16, u128),
    Comp(u64),
    CompData(u64, u128),
    Unseen(u64),
    Dropped(u64),
    Unknown(u64),
    Fault(FlitFault),
    Other,
}

/// A request of node 3.
pub(crate) fn request(txn: u16, opcode: u8, size: u8, addr: u64) -> FlitKind {
    FlitKind::Request(RequestFlit {
        number: 1,
        src: 3,
        txn,
        opcode,
        size,
        addr,
        endian: false,
        excl: false,
    })
}

/// The same, exclusive.
pub(crate) fn exclusive(txn: u16, opcode: u8, size: u8, addr: u64) -> FlitKind {
    FlitKind::Request(RequestFlit {
        number: 1,
        src: 3,
        txn,
        opcode,
        size,
        addr,
        endian: false,
        excl: true,
    })
}

/// A response to node 3 that gives this DBID, where its opcode gives one.
pub(crate) fn response(txn: u16, opcode: u8, dbid: u16) -> FlitKind {
    FlitKind::Response(ResponseFlit {
        tgt: 3,
        txn,
        opcode,
        resp_err: 0,
        dbid,
    })
}

/// A response to node 3 in error.
pub(crate) fn error(txn: u16, opcode: u8, dbid: u16) -> FlitKind {
    FlitKind::Response(ResponseFlit {
        tgt: 3,
        txn,
        opcode,
        resp_err: 2,
        dbid,
    })
}

/// Sixteen bytes, each this one, with these byte enables.
pub(crate) fn bytes(be: u16, byte: u8) -> Chunk {
    Chunk {
        be,
        unknown_be: 0,
        lanes: [byte; 16],
        unknown: 0,
    }
}

/// Bytes at one quarter of the line, as a bus of 16 bytes has them.
pub(crate) fn quarter(place: usize, chunk: Chunk) -> [Option<Chunk>; 4] {
    let mut chunks = [None; 4];
    if place < 4 {
        chunks[place] = Some(chunk);
    }
    chunks
}

/// CompData to node 3.
pub(crate) fn answer(txn: u16, chunks: [Option<Chunk>; 4]) -> FlitKind {
    FlitKind::ReadData(DataFlit {
        node: 3,
        txn,
        opcode: 4,
        resp_err: 0,
        chunks,
    })
}

/// CompData to node 3 in error.
pub(crate) fn failed_answer(txn: u16, chunks: [Option<Chunk>; 4]) -> FlitKind {
    FlitKind::ReadData(DataFlit {
        node: 3,
        txn,
        opcode: 4,
        resp_err: 3,
        chunks,
    })
}

/// Write data of node 3.
pub(crate) fn sent(dbid: u16, opcode: u8, chunks: [Option<Chunk>; 4]) -> FlitKind {
    FlitKind::WriteData(DataFlit {
        node: 3,
        txn: dbid,
        opcode,
        resp_err: 0,
        chunks,
    })
}

/// The same in error.
pub(crate) fn failed_sent(dbid: u16, chunks: [Option<Chunk>; 4]) -> FlitKind {
    FlitKind::WriteData(DataFlit {
        node: 3,
        txn: dbid,
        opcode: DATA,
        resp_err: 2,
        chunks,
    })
}

fn told_reply(id: u64, reply: Option<Reply>) -> Told {
    match reply {
        None => Told::Unseen(id),
        Some(Reply::Comp) => Told::Comp(id),
        Some(Reply::CompData(lanes)) => Told::CompData(id, u128::from_le_bytes(lanes)),
    }
}

fn as_told(kind: &EventKind) -> Told {
    match kind {
        EventKind::Request(request) => Told::Request(
            request.id,
            request.fields.opcode,
            request.fields.size,
            request.fields.addr,
        ),
        EventKind::Data(packet) => {
            Told::Data(packet.id, packet.be, u128::from_le_bytes(packet.lanes))
        }
        EventKind::Reply(completion) => told_reply(completion.id, completion.reply),
        EventKind::Dropped { id } => Told::Dropped(*id),
        EventKind::Unknown { addr, length: 64 } => Told::Unknown(*addr),
        _ => Told::Other,
    }
}

/// What a port tells of flits, up to the first that cannot come.
fn told_of(alloc: Global, kinds: &[FlitKind]) -> Result<Vec<Told>, Fail> {
    let mut port = Port::new(alloc);
    let mut list = Vec::new(alloc);
    for kind in kinds {
        let flit = Flit {
            time: 7,
            kind: *kind,
        };
        match port.take(alloc, &flit) {
            Ok(events) => {
                for event in &events {
                    list.push(as_told(event))?;
                }
            }
            Err(fault) => {
                list.push(Told::Fault(fault))?;
                return Ok(list);
            }
        }
    }
    Ok(list)
}

/// Compares what a port tells of flits.
pub(crate) fn assert_told<R: AllocGlobal + Abort>(
    rt: &R,
    kinds: &[FlitKind],
    wanted: &[Told],
) -> Result<(), Fail> {
    let found = told_of(rt.alloc(), kinds)?;
    assert_same(rt, found.as_slice(), wanted);
    Ok(())
}
