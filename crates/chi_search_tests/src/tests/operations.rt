//! Operations for the tests, all on one granule.

use chi_fields::{Region, Request, decode};
use chi_lanes::Reply;
use chi_trace::Operation;
use std::alloc::Global;
use std::test::Fail;

pub(crate) const READ: u8 = 0x04;

pub(crate) const WRITE: u8 = 0x1c;

pub(crate) const STORE_ADD: u8 = 0x28;

pub(crate) const STORE_EOR: u8 = 0x2a;

pub(crate) const ADD: u8 = 0x30;

pub(crate) const SWAP: u8 = 0x38;

/// The last granule below 2^52.
const LAST: u64 = (1 << 52) - 8;

// All its eight bytes: the size, the address and the byte enables.
const WHOLE: (u8, u64, u16) = (3, LAST, 0xff00);

/// An operation between two times with an opcode and a word, or several of them, which all have a reply without data.
///
/// - `Silent`: its reply was not seen.
/// - `Told`: its reply has the last word.
/// - `Done`: its reply has no data.
/// - `DoneAt`: the same on one byte of the granule (0 to 7), with that byte of the word.
/// - `EachByte`: one on each byte, from byte 0 to 7.
/// - `Same`: so many of the same.
/// - `Rising`: so many, with once the word, twice, and so on.
/// - `RisingAt`: the same on one byte.
///
/// They are plain data: a table of these costs a proof less than calls that make them.
#[derive(Clone, Copy)]
pub(crate) enum Timed {
    Silent((u64, u64), u8, u64),
    Told((u64, u64), u8, u64, u64),
    Done((u64, u64), u8, u64),
    DoneAt((u64, u64), u8, u32, u64),
    EachByte((u64, u64), u8, u64),
    Same(u64, (u64, u64), u8, u64),
    Rising(u64, (u64, u64), u8, u64),
    RisingAt(u64, (u64, u64), u8, u32, u64),
}

// The word in lanes 8 to 15, where those of the last granule are, its least significant byte first.
fn packet(word: u64) -> [u8; 16] {
    (u128::from(word) << 64).to_le_bytes()
}

// One byte of the granule: the size, the address and the byte enables.
fn byte_at(byte: u32) -> (u8, u64, u16) {
    (0, LAST | u64::from(byte), 0x0100_u16.wrapping_shl(byte))
}

// What was observed of an operation at this place, with little-endian data.
fn seen(
    times: (u64, u64),
    opcode: u8,
    (size, addr, be): (u8, u64, u16),
    word: u64,
    reply: Option<Reply>,
) -> Result<Operation, Fail> {
    let request = Request {
        src: 1,
        txn: 0,
        opcode,
        size,
        addr,
        endian: false,
        be,
        lanes: packet(word),
    };
    Ok(Operation {
        number: 0,
        src: 1,
        txn: 0,
        access: decode(&request, &Region::new(LAST - 56, 8)?)?,
        start: times.0,
        end: times.1,
        reply,
    })
}

// Adds so many operations whose replies have no data: the first has the word, and each other one the word of the one before it and
// so much more.
fn push_row(
    list: &mut Vec<Operation>,
    count: u64,
    times: (u64, u64),
    opcode: u8,
    place: (u8, u64, u16),
    (word, more): (u64, u64),
) -> Result<(), Fail> {
    for number in 0..count {
        let word = word.wrapping_add(more.wrapping_mul(number));
        list.push(seen(times, opcode, place, word, Some(Reply::Comp))?)?;
    }
    Ok(())
}

// Adds one operation on each byte.
fn push_bytes(
    list: &mut Vec<Operation>,
    times: (u64, u64),
    opcode: u8,
    word: u64,
) -> Result<(), Fail> {
    for byte in 0..8 {
        push_row(list, 1, times, opcode, byte_at(byte), (word, 0))?;
    }
    Ok(())
}

// Adds what was observed of an operation, or of several.
fn push(list: &mut Vec<Operation>, op: &Timed) -> Result<(), Fail> {
    match *op {
        Timed::Silent(times, opcode, word) => {
            list.push(seen(times, opcode, WHOLE, word, None)?)?;
            Ok(())
        }
        Timed::Told(times, opcode, word, answer) => {
            let reply = Reply::CompData(packet(answer));
            list.push(seen(times, opcode, WHOLE, word, Some(reply))?)?;
            Ok(())
        }
        Timed::Done(times, opcode, word) => push_row(list, 1, times, opcode, WHOLE, (word, 0)),
        Timed::DoneAt(times, opcode, byte, word) => {
            push_row(list, 1, times, opcode, byte_at(byte), (word, 0))
        }
        Timed::EachByte(times, opcode, word) => push_bytes(list, times, opcode, word),
        Timed::Same(count, times, opcode, word) => {
            push_row(list, count, times, opcode, WHOLE, (word, 0))
        }
        Timed::Rising(count, times, opcode, word) => {
            push_row(list, count, times, opcode, WHOLE, (word, word))
        }
        Timed::RisingAt(count, times, opcode, byte, word) => {
            push_row(list, count, times, opcode, byte_at(byte), (word, word))
        }
    }
}

/// What was observed of these operations.
pub(crate) fn observed(alloc: Global, ops: &[Timed]) -> Result<Vec<Operation>, Fail> {
    let mut list = Vec::new(alloc);
    for op in ops {
        push(&mut list, op)?;
    }
    Ok(list)
}
