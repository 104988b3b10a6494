//! Operations as JSON objects, with the names that a trace has for their members.

ghost use Rattle.std.specs.Prelude.{◌≡◌, ◌++◌, OnOk};
ghost use Rattle.chi_page.specs.Objects.{each_object_json, each_reply_json, fields_in, object_json, objects_json, observed_members, packet_members, replies_json};

use crate::listed::add_between;
use crate::operation::{add_end, add_endian, add_reply};
use crate::request::add_request_members;
use chi_fields::Access;
use chi_lanes::Reply;
use chi_text::Part::{Number, Packet, Text};
use chi_text::add_parts;
use chi_trace::{Operation, RequestFields};
use std::alloc::AllocError;

/// The request of an operation.
fn fields_in(op: &Operation) -> RequestFields
    ensures { result ≡ fields_in op.now }
{
    RequestFields {
        number: op.number,
        src: op.src,
        txn: op.txn,
        opcode: op.opcode(),
        size: op.size(),
        addr: op.access.addr(),
        endian: op.access.endian(),
        be: op.access.enables(),
        lanes: op.access.lanes(),
    }
}

/// Its byte order, byte enables and data packet.
#[tactic(auto, unfolding(crate::specs::Objects::packet_members))]
fn add_packet_members(to: &mut Vec<u8>, access: &Access) -> Result<(), AllocError>
    ensures { OnOk result (to.new.items ≡ to.old.items ++ packet_members access.now) }
{
    add_parts(to, &[Text(",\"endian\":")])?;
    add_endian(to, access.endian())?;
    add_parts(
        to,
        &[
            Text(",\"be\":"),
            Number(u64::from(access.enables())),
            Text(",\"lanes\":\""),
            Packet(access.lanes()),
            Text("\""),
        ],
    )
}

/// When it was under way, and what came back.
#[tactic(auto, unfolding(crate::specs::Objects::observed_members))]
fn add_observed_members(to: &mut Vec<u8>, op: &Operation) -> Result<(), AllocError>
    ensures { OnOk result (to.new.items ≡ to.old.items ++ observed_members op.now) }
{
    add_parts(
        to,
        &[Text(",\"start\":\""), Number(op.start), Text("\",\"end\":")],
    )?;
    add_end(to, op.end)?;
    add_parts(to, &[Text(",\"reply\":")])?;
    add_reply(to, op.reply)
}

/// An operation.
#[tactic(auto, unfolding(crate::specs::Objects::object_json))]
pub(crate) fn add_object(to: &mut Vec<u8>, op: &Operation) -> Result<(), AllocError>
    ensures { OnOk result (to.new.items ≡ to.old.items ++ object_json op.now) }
{
    add_parts(to, &[Text("{")])?;
    add_request_members(to, &fields_in(op))?;
    add_packet_members(to, &op.access)?;
    add_observed_members(to, op)?;
    add_parts(to, &[Text("}")])
}

/// Operations, one after the other.
fn add_each_object(to: &mut Vec<u8>, ops: &[Operation]) -> Result<(), AllocError>
    ensures { OnOk result (to.new.items ≡ to.old.items ++ each_object_json ops.now) }
{
    for number in 0..ops.len() {
        add_between(to, ",", number)?;
        add_object(to, &ops[number])?;
    }
    Ok(())
}

/// A list of operations.
#[tactic(auto, unfolding(crate::specs::Objects::objects_json))]
pub(crate) fn add_objects(to: &mut Vec<u8>, ops: &[Operation]) -> Result<(), AllocError>
    ensures { OnOk result (to.new.items ≡ to.old.items ++ objects_json ops.now) }
{
    add_parts(to, &[Text("[")])?;
    add_each_object(to, ops)?;
    add_parts(to, &[Text("]")])
}

/// Replies, one after the other.
fn add_each_reply(to: &mut Vec<u8>, replies: &[Reply]) -> Result<(), AllocError>
    ensures { OnOk result (to.new.items ≡ to.old.items ++ each_reply_json replies.now) }
{
    for number in 0..replies.len() {
        add_between(to, ",", number)?;
        add_reply(to, Some(replies[number]))?;
    }
    Ok(())
}

/// A list of replies.
#[tactic(auto, unfolding(crate::specs::Objects::replies_json))]
pub(crate) fn add_replies(to: &mut Vec<u8>, replies: &[Reply]) -> Result<(), AllocError>
    ensures { OnOk result (to.new.items ≡ to.old.items ++ replies_json replies.now) }
{
    add_parts(to, &[Text("[")])?;
    add_each_reply(to, replies)?;
    add_parts(to, &[Text("]")])
}
