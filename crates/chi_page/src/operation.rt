//! The operations of a trace as JSON.

ghost use Rattle.std.specs.Prelude.{◌≡◌, ◌<◌, ◌++◌, OnOk, length};
ghost use Rattle.chi_page.specs.Operations.{end_json, endian_json, header_json, observed_json, operation_at, operation_json, operations_json, packet_json, reply_json, request_json};

use crate::listed::add_between;
use chi_fields::{Access, op_name};
use chi_lanes::Reply;
use chi_reading::Recorded;
use chi_text::Part::{Address, Number, Packet, Text};
use chi_text::add_parts;
use chi_trace::Operation;
use std::alloc::AllocError;

/// Whose a request is, its opcode, size and address.
#[tactic(auto, unfolding(crate::specs::Operations::header_json))]
fn add_header(to: &mut Vec<u8>, op: &Operation) -> Result<(), AllocError>
    ensures { OnOk result (to.new.items ≡ to.old.items ++ header_json op.now) }
{
    add_parts(
        to,
        &[
            Number(u64::from(op.src)),
            Text(","),
            Number(u64::from(op.txn)),
            Text(","),
            Number(u64::from(op.opcode())),
            Text(",\""),
            Text(op_name(op.opcode())),
            Text("\","),
            Number(u64::from(op.size())),
            Text(",\""),
            Address(op.access.addr()),
            Text("\""),
        ],
    )
}

/// The order of the bytes.
#[tactic(auto, unfolding(crate::specs::Operations::endian_json))]
pub(crate) fn add_endian(to: &mut Vec<u8>, endian: bool) -> Result<(), AllocError>
    ensures { OnOk result (to.new.items ≡ to.old.items ++ endian_json endian) }
{
    if endian {
        add_parts(to, &[Text("1")])
    } else {
        add_parts(to, &[Text("0")])
    }
}

/// The data packet.
#[tactic(auto, unfolding(crate::specs::Operations::packet_json))]
fn add_packet(to: &mut Vec<u8>, access: &Access) -> Result<(), AllocError>
    ensures { OnOk result (to.new.items ≡ to.old.items ++ packet_json access.now) }
{
    add_parts(
        to,
        &[
            Text(","),
            Number(u64::from(access.enables())),
            Text(",\""),
            Packet(access.lanes()),
            Text("\""),
        ],
    )
}

/// The request of an operation.
#[tactic(auto, unfolding(crate::specs::Operations::request_json))]
fn add_request(to: &mut Vec<u8>, op: &Operation) -> Result<(), AllocError>
    ensures { OnOk result (to.new.items ≡ to.old.items ++ request_json op.now) }
{
    add_header(to, op)?;
    add_parts(to, &[Text(",")])?;
    add_endian(to, op.access.endian())?;
    add_packet(to, &op.access)
}

/// An end, or null where there was none.
#[tactic(auto, unfolding(crate::specs::Operations::end_json))]
pub(crate) fn add_end(to: &mut Vec<u8>, end: u64) -> Result<(), AllocError>
    ensures { OnOk result (to.new.items ≡ to.old.items ++ end_json end) }
{
    if end == u64::MAX {
        add_parts(to, &[Text("null")])
    } else {
        add_parts(to, &[Text("\""), Number(end), Text("\"")])
    }
}

/// A reply, or null where none was seen.
#[tactic(auto, unfolding(crate::specs::Operations::reply_json))]
pub(crate) fn add_reply(to: &mut Vec<u8>, reply: Option<Reply>) -> Result<(), AllocError>
    ensures { OnOk result (to.new.items ≡ to.old.items ++ reply_json reply) }
{
    match reply {
        None => add_parts(to, &[Text("null")]),
        Some(Reply::Comp) => add_parts(to, &[Text("\"comp\"")]),
        Some(Reply::CompData(lanes)) => { add_parts(to, &[Text("\""), Packet(lanes), Text("\"")]) }
    }
}

/// How long the operand is, and when the operation was under way.
#[tactic(auto, unfolding(crate::specs::Operations::observed_json))]
fn add_observed(to: &mut Vec<u8>, op: &Operation) -> Result<(), AllocError>
    ensures { OnOk result (to.new.items ≡ to.old.items ++ observed_json op.now) }
{
    add_parts(
        to,
        &[
            Text(","),
            Number(op.access.len() as u64),
            Text(",\""),
            Number(op.start),
            Text("\","),
        ],
    )?;
    add_end(to, op.end)?;
    add_parts(to, &[Text(",")])?;
    add_reply(to, op.reply)
}

/// An operation, with the number of its request in the text.
#[tactic(auto, unfolding(crate::specs::Operations::operation_json))]
fn add_operation(to: &mut Vec<u8>, op: &Operation) -> Result<(), AllocError>
    ensures { OnOk result (to.new.items ≡ to.old.items ++ operation_json op.now) }
{
    add_parts(to, &[Text("["), Number(op.number), Text(",")])?;
    add_request(to, op)?;
    add_observed(to, op)?;
    add_parts(to, &[Text("]")])
}

/// The operation at a place of the trace.
fn add_operation_at(to: &mut Vec<u8>, recorded: &Recorded, at: usize) -> Result<(), AllocError>
    requires { at < length recorded.now.trace.operations }
    ensures { OnOk result (to.new.items ≡ to.old.items ++ operation_at recorded.now at) }
{
    add_operation(to, &recorded.trace().operations()[at])
}

/// All operations, in the order of their starts.
pub(crate) fn add_operations(to: &mut Vec<u8>, recorded: &Recorded) -> Result<(), AllocError>
    ensures { OnOk result (to.new.items ≡ to.old.items ++ operations_json recorded.now) }
{
    let count = recorded.trace().operations().len();
    for at in 0..count {
        add_between(to, ",\n", at)?;
        add_operation_at(to, recorded, at)?;
    }
    Ok(())
}
