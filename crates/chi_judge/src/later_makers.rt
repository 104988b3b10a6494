//! Writes that come later, and make what operations answered.

ghost use Rattle.std.specs.Prelude.{◌<◌, ◌≤◌, All, IfOk, IfSome};

use chi_fields::{Access, Region, Request, decode};
use chi_lanes::Reply;
use chi_trace::Operation;
use std::alloc::{AllocError, Global};

/// How many bytes a line has, where a region begins.
const LINE: u64 = 64;

/// The opcode of WriteNoSnpPtl.
const WRITE: u8 = 0x1c;

// The byte enables of an operand.
fn enables_of(access: &Access) -> Option<u16> {
    let bits: u16 = match access.len() {
        1 => 0x1,
        2 => 0x3,
        4 => 0xf,
        _ => 0xff,
    };
    bits.checked_shl(u32::try_from(access.lane()).ok()?)
}

// The size of a request of an operand's bytes.
fn size_of(access: &Access) -> u8 {
    match access.len() {
        1 => 0,
        2 => 1,
        4 => 2,
        _ => 3,
    }
}

// The write of these bytes to an operand.
fn write_of(access: &Access, lanes: [u8; 16]) -> Option<Access> {
    let request = Request {
        src: 0,
        txn: 0,
        opcode: WRITE,
        size: size_of(access),
        addr: access.addr(),
        endian: access.endian(),
        be: enables_of(access)?,
        lanes,
    };
    let line = access.addr() / LINE * LINE;
    let region = Region::new(line, 8).ok()?;
    decode(&request, &region).ok()
}

// The write of what the operation answered, after a time, where it ended later.
fn maker_of(op: &Operation, time: u64) -> Option<Operation>
    ensures later { IfSome result (λ maker. time < maker.start) }
    ensures lasting { IfSome result (λ maker. maker.start ≤ maker.end) }
{
    let Some(Reply::CompData(found)) = op.reply else {
        return None;
    };
    if op.end <= time {
        return None;
    }
    let mut maker = *op;
    maker.access = write_of(&op.access, found)?;
    maker.reply = None;
    maker.start = time.checked_add(1)?;
    maker.end = u64::MAX;
    Some(maker)
}

/// Of each operation that ended after a time the write of what it answered, where that has data. It starts after the time, and need
/// not have taken effect. So each operation can be explained after it.
pub(crate) fn makers_after(
    alloc: Global,
    ops: &[Operation],
    time: u64,
) -> Result<Vec<Operation>, AllocError>
    ensures later { IfOk result (λ makers. All (λ op. time < op.start) makers.items) }
    ensures lasting { IfOk result (λ makers. All (λ op. op.start ≤ op.end) makers.items) }
{
    let mut makers = Vec::new(alloc);
    for op in ops {
        if let Some(maker) = maker_of(op, time) {
            makers.push(maker)?;
        }
    }
    Ok(makers)
}
