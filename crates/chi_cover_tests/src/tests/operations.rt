//! Operations as a trace has them, for tests.

use chi_cover::Covered;
use chi_fields::{Access, Region, Request, decode};
use chi_lanes::Reply;
use chi_trace::{GranuleWords, Operation, Trace};
use std::alloc::Global;
use std::test::Fail;

/// The access of a request in a region of 64 granules at 0x1000.
fn access(
    opcode: u8,
    size: u8,
    addr: u64,
    endian: bool,
    be: u16,
    lanes: [u8; 16],
) -> Result<Access, Fail> {
    let Ok(region) = Region::new(0x1000, 64) else {
        return Err(Fail::new("the region is refused"));
    };
    let request = Request {
        src: 0,
        txn: 0,
        opcode,
        size,
        addr,
        endian,
        be,
        lanes,
    };
    match decode(&request, &region) {
        Ok(access) => Ok(access),
        Err(_) => Err(Fail::new("a request is refused")),
    }
}

/// A request of requester 1 from time 0 to 9.
pub(crate) fn observed(
    opcode: u8,
    size: u8,
    addr: u64,
    endian: bool,
    be: u16,
    lanes: [u8; 16],
    reply: Option<Reply>,
) -> Result<Operation, Fail> {
    Ok(Operation {
        number: 0,
        src: 1,
        txn: 0,
        access: access(opcode, size, addr, endian, be, lanes)?,
        start: 0,
        end: 9,
        reply,
    })
}

/// A read of an operand of which the reply was not seen.
pub(crate) fn read(addr: u64, size: u8) -> Result<Operation, Fail> {
    observed(0x04, size, addr, false, 0, [0; 16], None)
}

/// A write of one.
pub(crate) fn write(addr: u64, size: u8) -> Result<Operation, Fail> {
    observed(0x1c, size, addr, false, 0, [0; 16], None)
}

/// The operation of a requester from one time to another.
pub(crate) fn of_requester(op: Operation, src: u16, start: u64, end: u64) -> Operation {
    Operation {
        start,
        end,
        src,
        ..op
    }
}

/// 16 lanes, of which those from `first` on are these bytes and the others are 0.
pub(crate) fn lanes(first: usize, bytes: &[u8]) -> [u8; 16] {
    let mut lanes = [0; 16];
    for (lane, byte) in bytes.iter().enumerate() {
        if first < 16 && lane < 16 - first {
            lanes[first + lane] = *byte;
        }
    }
    lanes
}

/// An AtomicLoad.ADD of two bytes at 0x1004 that found 0xffff, was sent 1 and left 0; and a write of two of four bytes there,
/// by another requester, before the AtomicLoad had ended.
pub(crate) fn small_trace() -> Result<[Operation; 2], Fail> {
    let found = Reply::CompData(lanes(4, &[0xff, 0xff]));
    let load = observed(0x30, 1, 0x1004, false, 0x30, lanes(4, &[1, 0]), Some(found))?;
    let write = observed(0x1c, 2, 0x1004, true, 0x90, [0; 16], Some(Reply::Comp))?;
    Ok([of_requester(load, 1, 0, 10), of_requester(write, 2, 5, 15)])
}

/// Adds a trace of these operations.
pub(crate) fn add(alloc: Global, covered: &mut Covered, ops: &[Operation]) -> Result<(), Fail> {
    match Trace::new(GranuleWords::none(alloc), Vec::from_slice(alloc, ops)?) {
        Some(trace) => {
            covered.add(alloc, trace.operations())?;
            Ok(())
        }
        None => Err(Fail::new("these operations are no trace")),
    }
}

/// What was covered by a trace of these operations.
pub(crate) fn covered_by(alloc: Global, ops: &[Operation]) -> Result<Covered, Fail> {
    let mut covered = Covered::new(alloc)?;
    add(alloc, &mut covered, ops)?;
    Ok(covered)
}

/// What was covered by the small trace, and then by its AtomicLoad alone. Four bins have counted two operations: that of the
/// AtomicLoad, two of its result, and one operation that was open. Five have counted one: that of the write and of its byte
/// enables, two operations that were open, and of the write that it overlaps an AtomicLoad, of another requester.
pub(crate) fn covered_twice(alloc: Global) -> Result<Covered, Fail> {
    let ops = small_trace()?;
    let mut covered = covered_by(alloc, &ops)?;
    add(alloc, &mut covered, &[ops[0]])?;
    Ok(covered)
}
