//! What a home decides of an outstanding request.

ghost use Rattle.std.specs.Prelude.{◌≡◌};
ghost use Rattle.chi_events.specs.Operations.{is_whole, refusal_of, with_packet};
ghost use Rattle.chi_events.specs.Outstanding.{is_given, is_reason, is_same, refusal_elsewhere};
ghost use Rattle.chi_events.specs.EventEffects.{opened, with_data};

use crate::event::{Packet, Requested};
use crate::outstanding::Open;
use chi_fields::{Access, Refusal, Region};
use chi_trace::{RequestFields, access};

/// Why a home of all addresses refuses a request, as far as that is decided: not by its byte enables, before its data have come.
fn refusal_of(is_whole: bool, decision: &Result<Access, Refusal>) -> Option<Refusal>
    ensures { result ≡ refusal_of is_whole decision.now }
{
    match decision {
        Ok(_) => None,
        Err(Refusal::BadByteEnable) if !is_whole => None,
        Err(refusal) => Some(*refusal),
    }
}

/// A request that was taken at this time.
pub(crate) fn opened(request: &Requested, time: u64) -> Open
    ensures { result ≡ opened time request.now }
{
    let is_whole = request.has_data || request.fields.opcode == 0x04;
    let decision = access(&request.fields, &None);
    Open {
        id: request.id,
        start: time,
        fields: request.fields,
        is_whole,
        refusal: refusal_of(is_whole, &decision),
        access: if is_whole { decision.ok() } else { None },
        completion: None,
    }
}

/// A request with its data.
pub(crate) fn with_data(request: &Open, packet: &Packet) -> Open
    ensures { result ≡ with_data packet.now request.now }
{
    let fields = RequestFields {
        be: packet.be,
        lanes: packet.lanes,
        ..request.fields
    };
    let decision = access(&fields, &None);
    Open {
        is_whole: true,
        refusal: refusal_of(true, &decision),
        access: decision.ok(),
        ..*request
    }
}

/// Whether two reasons are one.
fn is_same(reason: Refusal, other: Refusal) -> bool
    ensures { result ≡ is_same reason other }
{
    reason == other
}

/// Whether this reason is there.
fn is_given(reason: Refusal, other: Option<Refusal>) -> bool
    ensures { result ≡ is_given reason other }
{
    match other {
        Some(other) => is_same(reason, other),
        None => false,
    }
}

/// Why a home refuses a request whose operand is not in its region.
fn refusal_elsewhere(fields: &RequestFields) -> Option<Refusal>
    ensures { result ≡ refusal_elsewhere fields.now }
{
    let base = if fields.addr < 64 { 64 } else { 0 };
    let line = Region::new(base, 8).ok()?;
    access(fields, &Some(line)).err()
}

/// Whether a home may refuse a request for this reason: a home of all addresses, or one of a region without the operand, or either
/// for byte enables that are still to come.
pub(crate) fn is_reason(request: &Open, reason: Refusal) -> bool
    ensures { result ≡ is_reason request.now reason }
{
    is_given(reason, request.refusal)
        || is_given(reason, refusal_elsewhere(&request.fields))
        || (!request.is_whole
            && request.refusal.is_none()
            && is_same(reason, Refusal::BadByteEnable))
}
