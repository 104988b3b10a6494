//! What was sent for an operand, and what came back of it: its bytes alone, in the order of their addresses.

ghost use Rattle.std.specs.Prelude.{◌≡◌, ◌++◌, ◌+◌, ◌<◌, OnOk, slice_range};
ghost use Rattle.chi_fields.specs.Access.{lane_of};
ghost use Rattle.chi_excerpt.specs.Operands.{byte_text, bytes_text, enabled_byte, enabled_text, has_order, is_arithmetic, order_text, place_text, returned_text, sent_text, swap_bytes};

use chi_fields::{Access, Kind, Op};
use chi_lanes::Reply;
use chi_text::{Part, add_parts};
use std::alloc::AllocError;

/// A byte, as two hex digits.
fn add_byte(to: &mut Vec<u8>, byte: u8) -> Result<(), AllocError>
    ensures { OnOk result (to.new.items ≡ to.old.items ++ byte_text byte) }
{
    add_parts(to, &[Part::Opcode(byte)])
}

/// Bytes, each as two hex digits.
fn add_bytes(to: &mut Vec<u8>, bytes: &[u8]) -> Result<(), AllocError>
    ensures { OnOk result (to.new.items ≡ to.old.items ++ bytes_text bytes.now) }
{
    for byte in bytes {
        add_byte(to, *byte)?;
    }
    Ok(())
}

/// The byte in a lane, where it is enabled.
fn add_enabled_byte(
    to: &mut Vec<u8>,
    lanes: &[u8; 16],
    enables: u16,
    lane: usize,
) -> Result<(), AllocError>
    requires { lane < 16 }
    ensures { OnOk result (to.new.items ≡ to.old.items ++ enabled_byte lanes.now enables lane) }
{
    if (enables >> lane) & 1 == 1 {
        add_byte(to, lanes[lane])
    } else {
        add_parts(to, &[Part::Text("--")])
    }
}

/// The bytes of a write, those that are enabled.
#[tactic(auto, unfolding(crate::specs::Operands::enabled_text))]
fn add_enabled(to: &mut Vec<u8>, access: &Access) -> Result<(), AllocError>
    ensures { OnOk result (to.new.items ≡ to.old.items ++ enabled_text access.now.lanes access.now.enables (lane_of access.now.addr) access.now.len) }
{
    let lanes = access.lanes();
    let enables = access.enables();
    let first = access.lane();
    for place in 0..access.len() {
        add_enabled_byte(to, &lanes, enables, first + place)?;
    }
    Ok(())
}

/// The bytes of the operand in a data packet.
fn add_operand(to: &mut Vec<u8>, access: &Access, lanes: &[u8; 16]) -> Result<(), AllocError>
    ensures { OnOk result (to.new.items ≡ to.old.items ++ bytes_text (slice_range lanes.now (lane_of access.now.addr) (lane_of access.now.addr + access.now.len))) }
{
    let first = access.lane();
    add_bytes(to, &lanes[first..first + access.len()])
}

/// The bytes that an AtomicCompare puts into its operand, in the other half of its window.
fn add_swap(to: &mut Vec<u8>, access: &Access) -> Result<(), AllocError>
    ensures { OnOk result (to.new.items ≡ to.old.items ++ bytes_text (swap_bytes access.now)) }
{
    let lanes = access.lanes();
    let len = access.len();
    let lane = access.lane();
    let first = lane - lane % (2 * len);
    let other = if lane == first { first + len } else { first };
    add_bytes(to, &lanes[other..other + len])
}

/// What was sent.
#[tactic(auto, unfolding(crate::specs::Operands::sent_text))]
pub(crate) fn add_sent(to: &mut Vec<u8>, access: &Access) -> Result<(), AllocError>
    ensures { OnOk result (to.new.items ≡ to.old.items ++ sent_text access.now) }
{
    match access.kind() {
        Kind::Read => Ok(()),
        Kind::Write => {
            add_parts(to, &[Part::Text("  sent ")])?;
            add_enabled(to, access)
        }
        Kind::Store(_) | Kind::Load(_) | Kind::Swap => {
            add_parts(to, &[Part::Text("  sent ")])?;
            add_operand(to, access, &access.lanes())
        }
        Kind::Compare => {
            add_parts(to, &[Part::Text("  compare ")])?;
            add_operand(to, access, &access.lanes())?;
            add_parts(to, &[Part::Text(" swap ")])?;
            add_swap(to, access)
        }
    }
}

/// Whether the result of an operation rests on the order of the bytes.
fn is_arithmetic(op: Op) -> bool
    ensures { result ≡ is_arithmetic op }
{
    match op {
        Op::Add | Op::SMax | Op::SMin | Op::UMax | Op::UMin => true,
        Op::Clr | Op::Eor | Op::Set => false,
    }
}

/// The same of a kind of request.
fn has_order(kind: Kind) -> bool
    ensures { result ≡ has_order kind }
{
    match kind {
        Kind::Store(op) | Kind::Load(op) => is_arithmetic(op),
        Kind::Read | Kind::Write | Kind::Swap | Kind::Compare => false,
    }
}

/// The order of the bytes, where it counts and they stand with the highest first.
#[tactic(auto, unfolding(crate::specs::Operands::order_text))]
pub(crate) fn add_order(to: &mut Vec<u8>, access: &Access) -> Result<(), AllocError>
    ensures { OnOk result (to.new.items ≡ to.old.items ++ order_text access.now) }
{
    if has_order(access.kind()) && access.endian() && access.len() > 1 {
        add_parts(to, &[Part::Text("  big-endian")])
    } else {
        Ok(())
    }
}

/// Where the operand lies in its granule, and how long it is.
#[tactic(auto, unfolding(crate::specs::Operands::place_text))]
pub(crate) fn add_place(to: &mut Vec<u8>, access: &Access) -> Result<(), AllocError>
    ensures { OnOk result (to.new.items ≡ to.old.items ++ place_text access.now) }
{
    add_parts(
        to,
        &[
            Part::Text("  +"),
            Part::Number(access.addr() % 8),
            Part::Text(" L"),
            Part::Number(access.len() as u64),
        ],
    )
}

/// What came back.
#[tactic(auto, unfolding(crate::specs::Operands::returned_text))]
pub(crate) fn add_returned(
    to: &mut Vec<u8>,
    access: &Access,
    reply: Option<Reply>,
) -> Result<(), AllocError>
    ensures { OnOk result (to.new.items ≡ to.old.items ++ returned_text access.now reply) }
{
    match reply {
        None => add_parts(to, &[Part::Text("  no reply")]),
        Some(Reply::Comp) => add_parts(to, &[Part::Text("  comp")]),
        Some(Reply::CompData(lanes)) => {
            add_parts(to, &[Part::Text("  returned ")])?;
            add_operand(to, access, &lanes)
        }
    }
}
