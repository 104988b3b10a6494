//! What the members of a line tell, by its kind.

ghost use Rattle.std.specs.Prelude.{◌≡◌};
ghost use Rattle.serde_json.specs.Find.{get};
ghost use Rattle.chi_reading.specs.Member.{member_name};
ghost use Rattle.chi_reading.specs.EventText.{completion_of, final_by, packet_of, reason_by, refused_of, requested_of, told_of, unknown_of, word_of};

use crate::fields::{request_fields, request_with_data};
use crate::line_kind::LineKind;
use crate::member::Member;
use crate::refused::refusal_named;
use crate::stated::seen_reply;
use crate::told::{granule_start, granule_word};
use chi_events::{Completion, EventKind, Packet, Requested, WordTold};
use chi_fields::{ADDRESSES, Refusal};
use chi_json::{JsonObject, MemberFault, number, stated, stated_bytes};

/// The request that the line with this number tells, with its data where `be` and `lanes` are there.
#[tactic(auto, unfolding(crate::specs::EventText::requested_of))]
fn requested<O: JsonObject>(
    number_of_line: u64,
    object: &O,
) -> Result<Requested, MemberFault<Member>>
    ensures { result ≡ requested_of number_of_line (O.data_of object.now) }
{
    let id = number(object, Member::Id, u64::MAX)?;
    let has_data = object.get(Member::Be.name()).is_some()
        || object.get(Member::Lanes.name()).is_some();
    let fields = if has_data {
        request_with_data(number_of_line, object)?
    } else {
        request_fields(number_of_line, object)?
    };
    Ok(Requested {
        id,
        fields,
        has_data,
    })
}

/// The data of a request.
#[tactic(auto, unfolding(crate::specs::EventText::packet_of))]
fn packet<O: JsonObject>(object: &O) -> Result<Packet, MemberFault<Member>>
    ensures { result ≡ packet_of (O.data_of object.now) }
{
    let id = number(object, Member::Id, u64::MAX)?;
    let be = number(object, Member::Be, 65535)?;
    let lanes = stated_bytes(object, Member::Lanes)?;
    Ok(Packet {
        id,
        be: be as u16,
        lanes,
    })
}

/// The completion of a request.
#[tactic(auto, unfolding(crate::specs::EventText::completion_of))]
fn completion<O: JsonObject>(object: &O) -> Result<Completion, MemberFault<Member>>
    ensures { result ≡ completion_of (O.data_of object.now) }
{
    let id = number(object, Member::Id, u64::MAX)?;
    let value = stated(object, Member::Reply)?;
    let reply = seen_reply(&value).ok_or(MemberFault::BadMember(Member::Reply))?;
    Ok(Completion { id, reply })
}

/// Why a request was refused, in the member `reason`, where it is there.
fn reason<O: JsonObject>(object: &O) -> Result<Option<Refusal>, MemberFault<Member>>
    ensures { result ≡ reason_by (get (member_name Member.Reason) (O.data_of object.now)) }
{
    let Some(value) = object.get(Member::Reason.name()) else {
        return Ok(None);
    };
    match refusal_named(&value) {
        Some(reason) => Ok(Some(reason)),
        None => Err(MemberFault::BadMember(Member::Reason)),
    }
}

/// A request that was refused.
#[tactic(auto, unfolding(crate::specs::EventText::refused_of))]
fn refused<O: JsonObject>(object: &O) -> Result<EventKind, MemberFault<Member>>
    ensures { result ≡ refused_of (O.data_of object.now) }
{
    let id = number(object, Member::Id, u64::MAX)?;
    let reason = reason(object)?;
    Ok(EventKind::Refused { id, reason })
}

/// Whether a word is one at the end, by the member `final`. Where that is left out it is not.
fn is_final<O: JsonObject>(object: &O) -> Result<bool, MemberFault<Member>>
    ensures { result ≡ final_by (get (member_name Member.Final) (O.data_of object.now)) }
{
    let Some(value) = object.get(Member::Final.name()) else {
        return Ok(false);
    };
    value.as_bool().ok_or(MemberFault::BadMember(Member::Final))
}

/// The word of a granule that the line with this number tells, or its word after its last request.
#[tactic(auto, unfolding(crate::specs::EventText::word_of))]
fn word<O: JsonObject>(number_of_line: u64, object: &O) -> Result<EventKind, MemberFault<Member>>
    ensures { result ≡ word_of number_of_line (O.data_of object.now) }
{
    let value = stated(object, Member::Addr)?;
    let addr = granule_start(&value).ok_or(MemberFault::BadMember(Member::Addr))?;
    let value = stated(object, Member::Bytes)?;
    let word = granule_word(&value).ok_or(MemberFault::BadMember(Member::Bytes))?;
    let is_final = is_final(object)?;
    let told = WordTold {
        number: number_of_line,
        granule: addr / 8,
        word,
    };
    if is_final {
        Ok(EventKind::Final(told))
    } else {
        Ok(EventKind::Word(told))
    }
}

/// The bytes that something else may have written: 1 to 4,096, at addresses below 2^52.
#[tactic(auto, unfolding(crate::specs::EventText::unknown_of))]
fn unknown<O: JsonObject>(object: &O) -> Result<EventKind, MemberFault<Member>>
    ensures { result ≡ unknown_of (O.data_of object.now) }
{
    let addr = number(object, Member::Addr, u64::MAX)?;
    let length = number(object, Member::Length, 4096)?;
    if length == 0 || addr > ADDRESSES - length {
        return Err(MemberFault::BadMember(Member::Length));
    }
    Ok(EventKind::Unknown { addr, length })
}

/// What the line with this number, which is of a kind, tells, or the first fault of the members of that kind.
#[tactic(auto, unfolding(crate::specs::EventText::told_of))]
pub(crate) fn told<O: JsonObject>(
    number_of_line: u64,
    kind: LineKind,
    object: &O,
) -> Result<EventKind, MemberFault<Member>>
    ensures { result ≡ told_of number_of_line kind (O.data_of object.now) }
{
    match kind {
        LineKind::Request => Ok(EventKind::Request(requested(number_of_line, object)?)),
        LineKind::Data => Ok(EventKind::Data(packet(object)?)),
        LineKind::Reply => Ok(EventKind::Reply(completion(object)?)),
        LineKind::Dropped => Ok(EventKind::Dropped {
            id: number(object, Member::Id, u64::MAX)?,
        }),
        LineKind::Refused => refused(object),
        LineKind::Word => word(number_of_line, object),
        LineKind::Unknown => unknown(object),
        LineKind::End => Ok(EventKind::End),
    }
}
