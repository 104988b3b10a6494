//! Requests, data and completions of a home, and what is wanted of an operation.

use crate::tests::comparison::assert_same;
use chi_events::{
    Completion, Event, EventFault, EventKind, Outstanding, Packet, Requested, WordTold,
};
use chi_fields::{Access, Kind, Op, Refusal};
use chi_lanes::Reply;
use chi_trace::{Operation, RequestFields};
use std::alloc::Global;
use std::process::Abort;
use std::test::Fail;

// Address 4104 is in lane 8 of its packet, so its eight bytes are lanes 8 to 15.
pub(crate) const LANES: [u8; 16] = [0, 0, 0, 0, 0, 0, 0, 0, 5, 0, 0, 0, 0, 0, 0, 0];

pub(crate) const ENABLES: u16 = 0xff00;

// What the eight bytes were, as a completion tells them.
pub(crate) const OLD: [u8; 16] = [0, 0, 0, 0, 0, 0, 0, 0, 37, 0, 0, 0, 0, 0, 0, 0];

// The same and lane 7, which is before the operand.
pub(crate) const STRAY: [u8; 16] = [0, 0, 0, 0, 0, 0, 0, 1, 37, 0, 0, 0, 0, 0, 0, 0];

/// What is told of the request of a number:
///
/// - `Load`: an AtomicLoad ADD of eight bytes at 4104 by requester 513, with its data; `LoadAlone` without them.
/// - `Read`: a ReadNoSnp of four bytes at an address by requester 2.
/// - `Request`: an opcode, a size, an address and byte enables, with data, whose number is 9.
/// - `Data`: the data of the load, with these byte enables.
/// - `Answer`: the completion that tells what the eight bytes were; `Replied` is any.
/// - `Refused`: it was refused.
/// - `Dropped`: it took no effect.
///
/// And what is told of no request. All are plain data: a table of these costs a proof less than calls that make them.
#[derive(Clone, Copy)]
pub(crate) enum Told {
    Load(u64),
    LoadAlone(u64),
    Read(u64, u64),
    Request(u8, u8, u64, u16),
    Data(u64, u16),
    Answer(u64),
    Replied(u64, Option<Reply>),
    Refused(u64, Option<Refusal>),
    Dropped(u64),
    Word,
    Final,
    Unknown,
    End,
}

// The fields of a request by requester 1, with its data.
fn fields(opcode: u8, size: u8, addr: u64, be: u16) -> RequestFields {
    RequestFields {
        number: 1,
        src: 1,
        txn: 0,
        opcode,
        size,
        addr,
        endian: false,
        be,
        lanes: LANES,
    }
}

fn load(id: u64) -> Requested {
    Requested {
        id,
        fields: RequestFields {
            src: 513,
            txn: 9,
            ..fields(0x30, 3, 4104, ENABLES)
        },
        has_data: true,
    }
}

fn load_alone(id: u64) -> Requested {
    Requested {
        id,
        fields: RequestFields {
            src: 513,
            txn: 9,
            lanes: [0; 16],
            ..fields(0x30, 3, 4104, 0)
        },
        has_data: false,
    }
}

fn read(id: u64, addr: u64) -> Requested {
    Requested {
        id,
        fields: RequestFields {
            src: 2,
            txn: 65535,
            endian: true,
            lanes: [0; 16],
            ..fields(0x04, 2, addr, 0)
        },
        has_data: false,
    }
}

const WORD: WordTold = WordTold {
    number: 1,
    granule: 513,
    word: 5,
};

// The event that tells this.
fn kind(told: Told) -> EventKind {
    match told {
        Told::Load(id) => EventKind::Request(load(id)),
        Told::LoadAlone(id) => EventKind::Request(load_alone(id)),
        Told::Read(id, addr) => EventKind::Request(read(id, addr)),
        Told::Request(opcode, size, addr, be) => EventKind::Request(Requested {
            id: 9,
            fields: fields(opcode, size, addr, be),
            has_data: true,
        }),
        Told::Data(id, be) => EventKind::Data(Packet {
            id,
            be,
            lanes: LANES,
        }),
        Told::Answer(id) => EventKind::Reply(Completion {
            id,
            reply: Some(Reply::CompData(OLD)),
        }),
        Told::Replied(id, reply) => EventKind::Reply(Completion { id, reply }),
        Told::Refused(id, reason) => EventKind::Refused { id, reason },
        Told::Dropped(id) => EventKind::Dropped { id },
        Told::Word => EventKind::Word(WORD),
        Told::Final => EventKind::Final(WORD),
        Told::Unknown => EventKind::Unknown {
            addr: 4104,
            length: 8,
        },
        Told::End => EventKind::End,
    }
}

/// What is told at a time.
pub(crate) fn event(time: u64, told: Told) -> Event {
    Event {
        time,
        kind: kind(told),
    }
}

/// What the home takes at a time.
pub(crate) fn take(
    outstanding: &mut Outstanding,
    time: u64,
    told: Told,
) -> Result<Option<Operation>, EventFault> {
    outstanding.take(&event(time, told))
}

/// The fault of what it takes at a time.
pub(crate) fn fault(outstanding: &mut Outstanding, time: u64, told: Told) -> Option<EventFault> {
    take(outstanding, time, told).err()
}

/// What is outstanding after these events, by none of which an operation ends.
pub(crate) fn after(alloc: Global, events: &[(u64, Told)]) -> Result<Outstanding, Fail> {
    let mut outstanding = Outstanding::new(alloc)?;
    for (time, told) in events {
        if take(&mut outstanding, *time, *told)?.is_some() {
            return Err(Fail::new("an operation ended"));
        }
    }
    Ok(outstanding)
}

/// Whether it is the access of the load with its data.
fn is_load(access: &Access) -> bool {
    access.kind() == Kind::Load(Op::Add)
        && access.addr() == 4104
        && access.len() == 8
        && !access.endian()
        && access.enables() == ENABLES
        && access.lanes() == LANES
}

/// Compares what ended in a case with the load with its data, at these times and with this reply.
pub(crate) fn assert_load<R: Abort>(
    rt: &R,
    case: &str,
    ended: Option<Operation>,
    times: (u64, u64),
    reply: Option<Reply>,
) {
    let found = ended.map(|op| ((op.start, op.end), op.src, is_load(&op.access), op.reply));
    assert_same(rt, (case, found), (case, Some((times, 513, true, reply))));
}
