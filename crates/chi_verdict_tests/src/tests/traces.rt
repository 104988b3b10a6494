//! Traces for the tests.

use chi_fields::{Region, Request, decode};
use chi_lanes::Reply;
use chi_trace::{GranuleWord, GranuleWords, Operation, Trace};
use std::alloc::Global;
use std::test::Fail;

pub(crate) const READ: u8 = 0x04;

pub(crate) const WRITE: u8 = 0x1c;

pub(crate) const STORE_ADD: u8 = 0x28;

pub(crate) const ADD: u8 = 0x30;

pub(crate) const SWAP: u8 = 0x38;

pub(crate) const COMPARE: u8 = 0x39;

/// A granule, the one after it, and the last one below 2^52.
pub(crate) const LOW: u64 = 0x1000;

pub(crate) const NEXT: u64 = LOW + 8;

pub(crate) const HIGH: u64 = (1 << 52) - 8;

/// The numbers of the first and of the last of them.
pub(crate) const LOWER: u64 = LOW / 8;

pub(crate) const UPPER: u64 = HIGH / 8;

pub(crate) const BUDGET: u64 = 1000;

/// The bytes of an operation with these byte enables whose packet is this number, lane 0 its least significant byte.
#[derive(Clone, Copy)]
pub(crate) struct Sent {
    pub(crate) opcode: u8,
    pub(crate) size: u8,
    pub(crate) addr: u64,
    pub(crate) endian: bool,
    pub(crate) be: u16,
    pub(crate) lanes: u128,
}

/// An operation between two times, on all eight bytes of the granule at an address and with little-endian data, if it is not told
/// otherwise.
///
/// - `Read`: a read that answered a word.
/// - `Write`: a write of a word that was completed.
/// - `Add`: an addition of 1 that answered a word.
/// - `Swap`: a swap that left a word and answered one.
/// - `Silent`: an operation with an opcode and a word, whose reply was not seen.
/// - `Answered`, `Done`: the same with a reply that has a word, and with one that has no data.
/// - `BytesAnswered`, `BytesDone`: those with other bytes.
///
/// They are plain data: a table of these costs a proof less than calls that make them.
#[derive(Clone, Copy)]
pub(crate) enum Timed {
    Read((u64, u64), u64, u64),
    Write((u64, u64), u64, u64),
    Add((u64, u64), u64, u64),
    Swap((u64, u64), u64, u64, u64),
    Silent((u64, u64), u8, u64, u64),
    Answered((u64, u64), u8, u64, u64, u64),
    Done((u64, u64), u8, u64, u64),
    BytesAnswered((u64, u64), Sent, u64),
    BytesDone((u64, u64), Sent),
}

impl Timed {
    /// When it started.
    pub(crate) fn start(&self) -> u64 {
        sent_and_seen(self).0.0
    }
}

// A packet with this word in the lanes of the address's granule, its least significant byte first.
fn packet(addr: u64, word: u64) -> u128 {
    if addr % 16 < 8 {
        u128::from(word)
    } else {
        u128::from(word) << 64
    }
}

/// The reply that has this word of the granule at an address.
pub(crate) fn data(addr: u64, word: u64) -> Reply {
    Reply::CompData(packet(addr, word).to_le_bytes())
}

// An operation on all eight bytes of the granule at an address, with little-endian data.
fn whole(opcode: u8, addr: u64, word: u64) -> Sent {
    Sent {
        opcode,
        size: 3,
        addr,
        endian: false,
        be: if addr % 16 < 8 { 0x00ff } else { 0xff00 },
        lanes: packet(addr, word),
    }
}

// What was sent, and the reply that was seen.
fn sent_and_seen(op: &Timed) -> ((u64, u64), Sent, Option<Reply>) {
    match *op {
        Timed::Read(times, addr, answer) => (times, whole(READ, addr, 0), Some(data(addr, answer))),
        Timed::Write(times, addr, word) => (times, whole(WRITE, addr, word), Some(Reply::Comp)),
        Timed::Add(times, addr, answer) => (times, whole(ADD, addr, 1), Some(data(addr, answer))),
        Timed::Swap(times, addr, word, answer) => {
            (times, whole(SWAP, addr, word), Some(data(addr, answer)))
        }
        Timed::Silent(times, opcode, addr, word) => (times, whole(opcode, addr, word), None),
        Timed::Answered(times, opcode, addr, word, answer) => {
            (times, whole(opcode, addr, word), Some(data(addr, answer)))
        }
        Timed::Done(times, opcode, addr, word) => {
            (times, whole(opcode, addr, word), Some(Reply::Comp))
        }
        Timed::BytesAnswered(times, sent, answer) => (times, sent, Some(data(sent.addr, answer))),
        Timed::BytesDone(times, sent) => (times, sent, Some(Reply::Comp)),
    }
}

// What was observed of an operation with this number.
fn seen(number: u64, op: &Timed) -> Result<Operation, Fail> {
    let ((start, end), sent, reply) = sent_and_seen(op);
    let request = Request {
        src: 1,
        txn: 0,
        opcode: sent.opcode,
        size: sent.size,
        addr: sent.addr,
        endian: sent.endian,
        be: sent.be,
        lanes: sent.lanes.to_le_bytes(),
    };
    Ok(Operation {
        number,
        src: 1,
        txn: 0,
        access: decode(&request, &Region::new(sent.addr / 64 * 64, 8)?)?,
        start,
        end,
        reply,
    })
}

/// What was observed of these operations, which are counted from 0.
pub(crate) fn observed(alloc: Global, ops: &[Timed]) -> Result<Vec<Operation>, Fail> {
    let mut list = Vec::new(alloc);
    for op in ops {
        list.push(seen(list.len() as u64, op)?)?;
    }
    Ok(list)
}

/// These words of the granules at these addresses.
pub(crate) fn words(alloc: Global, told: &[(u64, u64)]) -> Result<GranuleWords, Fail> {
    let mut list = Vec::new(alloc);
    for (addr, word) in told {
        list.push(GranuleWord {
            granule: *addr / 8,
            word: *word,
        })?;
    }
    Ok(GranuleWords::new(list).ok_or("the granules are not in order")?)
}

/// The trace of these operations, from these words at the opening on; each other granule holds 0 there.
pub(crate) fn trace(alloc: Global, opening: &[(u64, u64)], ops: &[Timed]) -> Result<Trace, Fail> {
    let list = observed(alloc, ops)?;
    Ok(Trace::new(words(alloc, opening)?, list).ok_or("the operations are not those of a trace")?)
}
