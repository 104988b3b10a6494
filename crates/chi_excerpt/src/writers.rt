//! Which operations of an order wrote some bytes last.

ghost use Rattle.std.specs.Prelude.{◌≡◌, ◌++◌, ◌==◌, IfOk, OnOk, filter, flat_map};
ghost use Rattle.std.specs.Int.{bit_at};
ghost use Rattle.std.specs.List.{list_any};
ghost use Rattle.chi_fields.specs.Access.{is_among, lane_of};
ghost use Rattle.chi_excerpt.specs.Writers.{is_other, last_written, shows_no_match, writer_line, writer_lines, writers_text, writes, writes_as, written_text, wrote_last};

use crate::wrong_bytes::{ReturnedByte, add_place, wrong_bytes};
use chi_fields::{Access, Kind};
use chi_judge::Stop;
use chi_lanes::Reply;
use chi_text::{Part, add_parts};
use chi_trace::Operation;
use std::alloc::{AllocError, Global};

/// Whether the byte at an address is one of an access's operand.
fn has_byte(access: &Access, addr: u64) -> bool
    ensures { result ≡ is_among access.now.addr access.now.len addr }
{
    access.addr() <= addr && addr - access.addr() < access.len() as u64
}

/// Whether the lane of an address is enabled.
fn is_enabled(access: &Access, addr: u64) -> bool
    ensures { result ≡ (bit_at access.now.enables (lane_of addr) == 1) }
{
    (access.enables() >> (addr % 16)) & 1 == 1
}

/// Whether the answer of an AtomicCompare shows that the old bytes were not the compare value, so that nothing was written.
fn shows_no_match(access: &Access, reply: &Option<Reply>) -> bool
    ensures { result ≡ shows_no_match access.now reply.now }
{
    match reply {
        Some(Reply::CompData(lanes)) => {
            let first = access.lane();
            let end = first + access.len();
            lanes[first..end] != access.lanes()[first..end]
        }
        Some(Reply::Comp) | None => false,
    }
}

/// Whether an operation of its kind writes the byte of its operand at an address.
fn writes_as(kind: Kind, op: &Operation, addr: u64) -> bool
    ensures { result ≡ writes_as kind op.now addr }
{
    match kind {
        Kind::Read => false,
        Kind::Write => is_enabled(&op.access, addr),
        Kind::Store(_) | Kind::Load(_) | Kind::Swap => true,
        Kind::Compare => !shows_no_match(&op.access, &op.reply),
    }
}

/// Whether an operation writes the byte at an address.
fn writes(addr: u64, op: &Operation) -> bool
    ensures { result ≡ writes addr op.now }
{
    has_byte(&op.access, addr) && writes_as(op.access.kind(), op, addr)
}

/// Whether one of some operations writes the byte at an address.
fn is_written(addr: u64, ops: &[Operation]) -> bool
    ensures { result ≡ list_any (writes addr) ops.now }
{
    ops.iter().any(|op| writes(addr, op))
}

/// Whether an operation writes this byte, and none of those after it does.
fn wrote_last(op: &Operation, later: &[Operation], byte: ReturnedByte) -> bool
    ensures { result ≡ wrote_last op.now later.now byte }
{
    writes(byte.addr, op) && !is_written(byte.addr, later)
}

/// Those of the bytes that an operation wrote last.
fn last_written(
    alloc: Global,
    bytes: &[ReturnedByte],
    op: &Operation,
    later: &[Operation],
) -> Result<Vec<ReturnedByte>, AllocError>
    ensures { IfOk result (λ last. last.items ≡ last_written bytes.now op.now later.now) }
{
    bytes
        .iter()
        .copied()
        .filter(|byte| wrote_last(op, later, *byte))
        .collect(alloc)
}

/// A byte by its place alone.
fn add_written(to: &mut Vec<u8>, byte: ReturnedByte) -> Result<(), AllocError>
    ensures { OnOk result (to.new.items ≡ to.old.items ++ written_text byte) }
{
    add_parts(to, &[Part::Text(" ")])?;
    add_place(to, byte.addr)
}

/// Bytes by their places alone.
fn add_each_written(to: &mut Vec<u8>, bytes: &[ReturnedByte]) -> Result<(), AllocError>
    ensures { OnOk result (to.new.items ≡ to.old.items ++ flat_map written_text bytes.now) }
{
    for byte in bytes {
        add_written(to, *byte)?;
    }
    Ok(())
}

/// The line of the bytes that the operation of this number wrote last, where there are some.
#[tactic(auto, unfolding(crate::specs::Writers::writer_line))]
fn add_writer(
    to: &mut Vec<u8>,
    label: &'static str,
    number: u64,
    bytes: &[ReturnedByte],
) -> Result<(), AllocError>
    ensures { OnOk result (to.new.items ≡ to.old.items ++ writer_line label.now number bytes.now) }
{
    if bytes.len() == 0 {
        return Ok(());
    }
    add_parts(
        to,
        &[
            Part::Text("    last written by "),
            Part::Text(label),
            Part::Text(" "),
            Part::Number(number),
            Part::Text(":"),
        ],
    )?;
    add_each_written(to, bytes)?;
    add_parts(to, &[Part::Text("\n")])
}

/// The lines of the operations of an order that wrote some of the bytes last.
fn add_each_writer(
    alloc: Global,
    to: &mut Vec<u8>,
    label: &'static str,
    bytes: &[ReturnedByte],
    order: &[Operation],
) -> Result<(), AllocError>
    ensures { OnOk result (to.new.items ≡ to.old.items ++ writer_lines label.now bytes.now order.now) }
{
    for (place, op) in order.iter().enumerate() {
        let last = last_written(alloc, bytes, op, &order[place + 1..])?;
        add_writer(to, label, op.number, &last)?;
    }
    Ok(())
}

/// Those operations that are not the one of this number.
fn others(alloc: Global, number: u64, ops: &[Operation]) -> Result<Vec<Operation>, AllocError>
    ensures { IfOk result (λ others. others.items ≡ filter (is_other number) ops.now) }
{
    ops.iter()
        .copied()
        .filter(|op| op.number != number)
        .collect(alloc)
}

/// Adds a line for each operation of an order that wrote some of the bytes last that no legal answer has, of the one that is blamed.
/// That one itself is left out. `label` is what the parts of the input are called.
///
/// ```
/// add_writers(alloc, &mut text, "request", &stop, &stop.order)?; //     last written by request 0: +0 +3
/// ```
#[tactic(auto, unfolding(crate::specs::Writers::writers_text))]
pub fn add_writers(
    alloc: Global,
    to: &mut Vec<u8>,
    label: &'static str,
    stop: &Stop,
    order: &[Operation],
) -> Result<(), AllocError>
    ensures { OnOk result (to.new.items ≡ to.old.items ++ writers_text label.now stop.now order.now) }
{
    let bytes = wrong_bytes(alloc, &stop.op, &stop.legal)?;
    let shown = others(alloc, stop.op.number, order)?;
    add_each_writer(alloc, to, label, &bytes, &shown)
}
