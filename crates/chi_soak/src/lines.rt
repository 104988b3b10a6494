//! Events as lines of JSON.

ghost use Rattle.std.specs.Prelude.{◌≡◌, ◌++◌, OnOk};
ghost use Rattle.chi_soak.specs.Line.{byte_order, completion_text, data_text, dropped_text, event_line, fields_text, granule_text, kind_text, late_text, packet_text, quoted_text, reason_text, refused_text, reply_text, request_text, unknown_text};

use chi_events::{Completion, Event, EventKind, Packet, Requested, WordTold};
use chi_fields::{Refusal, refusal_name};
use chi_lanes::Reply;
use chi_text::{Part, add_parts};
use chi_trace::RequestFields;
use std::alloc::AllocError;

/// The number of a byte order: 1 is big-endian.
fn byte_order(endian: bool) -> u64
    ensures { result ≡ byte_order endian }
{
    if endian { 1 } else { 0 }
}

/// The fields of a request, without its data.
fn add_fields(to: &mut Vec<u8>, fields: &RequestFields) -> Result<(), AllocError>
    ensures { OnOk result (to.new.items ≡ to.old.items ++ fields_text fields.now) }
{
    add_parts(
        to,
        &[
            Part::Text(",\"src\":"),
            Part::Number(fields.src as u64),
            Part::Text(",\"txn\":"),
            Part::Number(fields.txn as u64),
            Part::Text(",\"op\":"),
            Part::Number(fields.opcode as u64),
            Part::Text(",\"size\":"),
            Part::Number(fields.size as u64),
            Part::Text(",\"addr\":"),
            Part::Number(fields.addr),
            Part::Text(",\"endian\":"),
            Part::Number(byte_order(fields.endian)),
        ],
    )
}

/// Byte enables and a data packet.
fn add_packet(to: &mut Vec<u8>, be: u16, lanes: [u8; 16]) -> Result<(), AllocError>
    ensures { OnOk result (to.new.items ≡ to.old.items ++ packet_text be lanes) }
{
    add_parts(
        to,
        &[
            Part::Text(",\"be\":"),
            Part::Number(be as u64),
            Part::Text(",\"lanes\":\""),
            Part::Packet(lanes),
            Part::Text("\""),
        ],
    )
}

/// The data of a request, where they have come with it.
fn add_data(to: &mut Vec<u8>, request: &Requested) -> Result<(), AllocError>
    ensures { OnOk result (to.new.items ≡ to.old.items ++ data_text request.now) }
{
    if request.has_data {
        add_packet(to, request.fields.be, request.fields.lanes)
    } else {
        Ok(())
    }
}

/// A request, and its data.
fn add_request(to: &mut Vec<u8>, request: &Requested) -> Result<(), AllocError>
    ensures { OnOk result (to.new.items ≡ to.old.items ++ request_text request.now) }
{
    add_parts(
        to,
        &[Part::Text("request\",\"id\":"), Part::Number(request.id)],
    )?;
    add_fields(to, &request.fields)?;
    add_data(to, request)
}

/// The data of a request that come after it.
fn add_late(to: &mut Vec<u8>, packet: &Packet) -> Result<(), AllocError>
    ensures { OnOk result (to.new.items ≡ to.old.items ++ late_text packet.now) }
{
    add_parts(to, &[Part::Text("data\",\"id\":"), Part::Number(packet.id)])?;
    add_packet(to, packet.be, packet.lanes)
}

/// A data packet, as a value of JSON.
fn add_quoted(to: &mut Vec<u8>, lanes: [u8; 16]) -> Result<(), AllocError>
    ensures { OnOk result (to.new.items ≡ to.old.items ++ quoted_text lanes) }
{
    add_parts(
        to,
        &[Part::Text("\""), Part::Packet(lanes), Part::Text("\"")],
    )
}

/// What completed a request.
fn add_completion(to: &mut Vec<u8>, reply: Option<Reply>) -> Result<(), AllocError>
    ensures { OnOk result (to.new.items ≡ to.old.items ++ completion_text reply) }
{
    match reply {
        Some(Reply::Comp) => add_parts(to, &[Part::Text("\"comp\"")]),
        Some(Reply::CompData(lanes)) => add_quoted(to, lanes),
        None => add_parts(to, &[Part::Text("null")]),
    }
}

/// The end of a request, and what completed it.
fn add_reply(to: &mut Vec<u8>, completion: &Completion) -> Result<(), AllocError>
    ensures { OnOk result (to.new.items ≡ to.old.items ++ reply_text completion.now) }
{
    add_parts(
        to,
        &[
            Part::Text("reply\",\"id\":"),
            Part::Number(completion.id),
            Part::Text(",\"reply\":"),
        ],
    )?;
    add_completion(to, completion.reply)
}

/// The end of a request that took no effect.
fn add_dropped(to: &mut Vec<u8>, id: u64) -> Result<(), AllocError>
    ensures { OnOk result (to.new.items ≡ to.old.items ++ dropped_text id) }
{
    add_parts(to, &[Part::Text("dropped\",\"id\":"), Part::Number(id)])
}

/// Why a request was refused, where that is told.
fn add_reason(to: &mut Vec<u8>, reason: Option<Refusal>) -> Result<(), AllocError>
    ensures { OnOk result (to.new.items ≡ to.old.items ++ reason_text reason) }
{
    let Some(reason) = reason else {
        return Ok(());
    };
    add_parts(
        to,
        &[
            Part::Text(",\"reason\":\""),
            Part::Text(refusal_name(reason)),
            Part::Text("\""),
        ],
    )
}

/// The end of a request that was refused.
fn add_refused(to: &mut Vec<u8>, id: u64, reason: Option<Refusal>) -> Result<(), AllocError>
    ensures { OnOk result (to.new.items ≡ to.old.items ++ refused_text id reason) }
{
    add_parts(to, &[Part::Text("refused\",\"id\":"), Part::Number(id)])?;
    add_reason(to, reason)
}

/// The word of a granule, and what comes after its bytes.
fn add_word(to: &mut Vec<u8>, told: &WordTold, end: &'static str) -> Result<(), AllocError>
    ensures { OnOk result (to.new.items ≡ to.old.items ++ granule_text told.now end.now) }
{
    add_parts(
        to,
        &[
            Part::Text("word\",\"addr\":"),
            Part::Number(told.granule.wrapping_mul(8)),
            Part::Text(",\"bytes\":\""),
            Part::Word(told.word),
            Part::Text(end),
        ],
    )
}

/// Bytes that something else may have written.
fn add_unknown(to: &mut Vec<u8>, addr: u64, length: u64) -> Result<(), AllocError>
    ensures { OnOk result (to.new.items ≡ to.old.items ++ unknown_text addr length) }
{
    add_parts(
        to,
        &[
            Part::Text("unknown\",\"addr\":"),
            Part::Number(addr),
            Part::Text(",\"length\":"),
            Part::Number(length),
        ],
    )
}

/// What an event tells.
fn add_kind(to: &mut Vec<u8>, kind: &EventKind) -> Result<(), AllocError>
    ensures { OnOk result (to.new.items ≡ to.old.items ++ kind_text kind.now) }
{
    match kind {
        EventKind::Request(request) => add_request(to, request),
        EventKind::Data(packet) => add_late(to, packet),
        EventKind::Reply(completion) => add_reply(to, completion),
        EventKind::Dropped { id } => add_dropped(to, *id),
        EventKind::Refused { id, reason } => add_refused(to, *id, *reason),
        EventKind::Word(told) => add_word(to, told, "\""),
        EventKind::Final(told) => add_word(to, told, "\",\"final\":true"),
        EventKind::Unknown { addr, length } => add_unknown(to, *addr, *length),
        EventKind::End => add_parts(to, &[Part::Text("end\"")]),
    }
}

/// Adds the line that tells an event, as `chicheck watch` reads it.
pub(crate) fn add_event(to: &mut Vec<u8>, event: &Event) -> Result<(), AllocError>
    ensures { OnOk result (to.new.items ≡ to.old.items ++ event_line event.now) }
{
    add_parts(
        to,
        &[
            Part::Text("{\"time\":"),
            Part::Number(event.time),
            Part::Text(",\"event\":\""),
        ],
    )?;
    add_kind(to, &event.kind)?;
    add_parts(to, &[Part::Text("}\n")])
}
