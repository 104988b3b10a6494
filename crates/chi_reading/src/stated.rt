//! What a request of a trace states beside its fields: its times, and what was answered or why it was refused.

ghost use Rattle.std.specs.Prelude.{◌≡◌, IfSome, Ok, map};
ghost use Rattle.serde_json.specs.Find.{get};
ghost use Rattle.serde_json.specs.View.{view};
ghost use Rattle.chi_json.specs.Datum.{datum_data};
ghost use Rattle.chi_json.specs.Flat.{flat_data};
ghost use Rattle.chi_reading.specs.Member.{member_name};
ghost use Rattle.chi_reading.specs.Requests.{answer_of, end_of, members_of, outcome_by, reply_by, seen_of, stated_at, stated_of};

use crate::fault::RequestFault;
use crate::fields::request_with_data;
use crate::member::{Member, REQUEST};
use crate::refused::refusal_named;
use chi_fields::Refusal;
use chi_json::{
    Datum, FlatObject, JsonObject, MemberFault, ObjectFault, hex_bytes, number, unknown_member,
};
use chi_lanes::Reply;
use chi_trace::RequestFields;
use serde_json::Value;

/// What came of a request.
///
/// - `Accepted`: the home took it; its reply, where that was seen.
/// - `Refused`: the home refused it, for this reason.
#[derive(Clone, Copy)]
pub(crate) enum Outcome {
    Accepted(Option<Reply>),
    Refused(Refusal),
}

impl Outcome {
    /// The members that a request of this outcome has.
    fn members(self) -> &'static [&'static [Member]]
        ensures { map (λ list. list.now) result.now ≡ members_of self }
    {
        match self {
            Outcome::Accepted(_) => &[&[Member::Start, Member::End, Member::Reply], &REQUEST],
            Outcome::Refused(_) => &[&[Member::Start, Member::End, Member::Refused], &REQUEST],
        }
    }
}

/// A request, its times, and what came of it. The end of one that was open when the trace ended is 2^64 - 1.
#[derive(Clone, Copy)]
pub(crate) struct Stated {
    pub fields: RequestFields,
    pub start: u64,
    pub end: u64,
    pub outcome: Outcome,
}

/// When the request ended.
#[tactic(auto, unfolding(crate::specs::Requests::end_of))]
fn end<O: JsonObject>(object: &O) -> Result<u64, MemberFault<Member>>
    ensures { result ≡ end_of (O.data_of object.now) }
{
    if object.get(Member::End.name()).is_none() {
        return Ok(u64::MAX);
    }
    number(object, Member::End, u64::MAX)
}

/// What was answered: `comp`, or the data packet as 32 hex digits, lane 0 first.
fn answer(value: &Datum<'_>) -> Option<Reply>
    ensures { result ≡ answer_of (datum_data value.now) }
{
    if value.as_str()? == "comp" {
        return Some(Reply::Comp);
    }
    let lanes = hex_bytes(value)?;
    Some(Reply::CompData(lanes))
}

/// What was answered, and `None` in it where that was not seen: `comp`, a data packet as 32 hex digits, or `null`. `None` is
/// answered where the value is none of these.
pub(crate) fn seen_reply(value: &Datum<'_>) -> Option<Option<Reply>>
    ensures { result ≡ seen_of (datum_data value.now) }
{
    if value.is_null() {
        return Some(None);
    }
    let reply = answer(value)?;
    Some(Some(reply))
}

/// What was answered, where it was seen: the member `reply`, which may be `null`, and may be left out where the end is.
fn reply<O: JsonObject>(object: &O) -> Result<Option<Reply>, MemberFault<Member>>
    ensures { result ≡ reply_by (get (member_name Member.Reply) (O.data_of object.now)) (get (member_name Member.End) (O.data_of object.now)) }
{
    let Some(value) = object.get(Member::Reply.name()) else {
        return match object.get(Member::End.name()) {
            Some(_) => Err(MemberFault::Missing(Member::Reply)),
            None => Ok(None),
        };
    };
    seen_reply(&value).ok_or(MemberFault::BadMember(Member::Reply))
}

/// What came of the request: the member `refused` says why it was refused, and where it is left out the request was accepted.
fn outcome_stated<O: JsonObject>(object: &O) -> Result<Outcome, MemberFault<Member>>
    ensures { result ≡ outcome_by (get (member_name Member.Refused) (O.data_of object.now)) (get (member_name Member.Reply) (O.data_of object.now)) (get (member_name Member.End) (O.data_of object.now)) }
{
    let Some(value) = object.get(Member::Refused.name()) else {
        let seen = reply(object)?;
        return Ok(Outcome::Accepted(seen));
    };
    match refusal_named(&value) {
        Some(reason) => Ok(Outcome::Refused(reason)),
        None => Err(MemberFault::BadMember(Member::Refused)),
    }
}

/// What the request at a place states, or the first fault of its members.
#[tactic(auto, unfolding(crate::specs::Requests::stated_of))]
fn request_stated<O: JsonObject>(place: usize, object: &O) -> Result<Stated, MemberFault<Member>>
    ensures { result ≡ stated_of place (O.data_of object.now) }
{
    let fields = request_with_data(place as u64, object)?;
    let start = number(object, Member::Start, u64::MAX)?;
    let end = end(object)?;
    let outcome = outcome_stated(object)?;
    Ok(Stated {
        fields,
        start,
        end,
        outcome,
    })
}

/// What the element at a place states.
#[tactic(auto, unfolding(crate::specs::Requests::stated_at))]
pub(crate) fn stated_at(place: usize, value: &Value) -> Result<Stated, RequestFault>
    ensures { result ≡ stated_at place (view value.now) }
{
    let Some(members) = value.as_object() else {
        return Err(RequestFault::Object(ObjectFault::NotObject));
    };
    let stated = match request_stated(place, value) {
        Ok(stated) => stated,
        Err(fault) => return Err(RequestFault::of_member(value, fault)),
    };
    match unknown_member(members, stated.outcome.members()) {
        Some(name) => Err(RequestFault::Object(ObjectFault::UnknownMember(name))),
        None => Ok(stated),
    }
}

/// The same of an object that was read with no allocation, where it has no fault.
#[tactic(auto, unfolding(crate::specs::Requests::stated_at))]
pub(crate) fn flat_stated(place: usize, object: &FlatObject<'_>) -> Option<Stated>
    ensures { IfSome result (λ s. stated_at place (flat_data object.now) ≡ Ok s) }
{
    let Ok(stated) = request_stated(place, object) else {
        return None;
    };
    if object.has_only(stated.outcome.members()) {
        Some(stated)
    } else {
        None
    }
}
