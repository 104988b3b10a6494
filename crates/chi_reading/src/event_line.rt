//! Lines of JSON that tell an event each, and how one is read.

ghost use Rattle.std.specs.Prelude.{◌≡◌, ◌≢◌, IfErr, IfOk, Ok, Err};
ghost use Rattle.serde_json.specs.View.{members_view, view};
ghost use Rattle.chi_json.specs.Members.{member_by};
ghost use Rattle.chi_reading.specs.Member.{member_name};
ghost use Rattle.chi_reading.specs.EventText.{event_text, kind_of, object_event, stated_event};

use crate::fault::LineFault;
use crate::line_kind::LineKind;
use crate::line_members::told;
use crate::mark::line_value;
use crate::member::Member;
use crate::other_kind::{is_of_flit, is_of_trace, unread_line};
use crate::usual_line::usual_event;
use chi_events::Event;
use chi_json::{JsonObject, MemberFault, ObjectFault, Scratch, number, stated, unknown_member};
use serde_json::{Map, Value};
use std::alloc::Global;

/// The kind that a line names.
fn kind_told<O: JsonObject>(object: &O) -> Result<LineKind, MemberFault<Member>>
    ensures { result ≡ member_by member_name Member.Event kind_of (O.data_of object.now) }
{
    let value = stated(object, Member::Event)?;
    let name = value.as_str();
    name.and_then(LineKind::named)
        .ok_or(MemberFault::BadMember(Member::Event))
}

/// The kind that an object on the line with this number names, and the event that it tells, or the first fault of its members.
#[tactic(auto, unfolding(crate::specs::EventText::stated_event))]
pub(crate) fn stated_event<O: JsonObject>(
    number_of_line: u64,
    object: &O,
) -> Result<(LineKind, Event), MemberFault<Member>>
    ensures { result ≡ stated_event number_of_line (O.data_of object.now) }
{
    let kind = kind_told(object)?;
    let time = number(object, Member::Time, u64::MAX)?;
    let told = told(number_of_line, kind, object)?;
    Ok((kind, Event { time, kind: told }))
}

/// The event that an object on the line with this number tells, or its first fault.
#[tactic(auto, unfolding(crate::specs::EventText::object_event))]
fn object_event(
    number_of_line: u64,
    object: &Value,
    members: &Map<String, Value>,
) -> Result<Event, LineFault>
    ensures { result ≡ object_event number_of_line (view object.now) (members_view members.now.entries) }
{
    let (kind, event) = match stated_event(number_of_line, object) {
        Ok(stated) => stated,
        Err(fault) => return Err(LineFault::of_member(object, fault)),
    };
    match unknown_member(members, kind.members()) {
        Some(name) => Err(LineFault::Object(ObjectFault::UnknownMember(name))),
        None => Ok(event),
    }
}

/// The event that a line tells, or the line's first fault, for a line of any kind.
#[tactic(auto, unfolding(crate::specs::EventText::event_text))]
fn any_event(alloc: Global, number_of_line: u64, line: &[u8]) -> Result<Event, LineFault>
    ensures ok { IfOk result (λ event. event_text number_of_line line.now ≡ Ok event) }
    ensures fault { IfErr result (λ fault. fault ≢ LineFault.Memory → event_text number_of_line line.now ≡ Err fault) }
{
    let Some(object) = line_value(alloc, number_of_line, line)? else {
        return Err(unread_line(number_of_line, line));
    };
    match object.as_object() {
        Some(_) if is_of_trace(&object) => Err(LineFault::OfTrace),
        Some(_) if is_of_flit(&object) => Err(LineFault::OfFlits),
        Some(members) => object_event(number_of_line, &object, members),
        None => Err(LineFault::Object(ObjectFault::NotObject)),
    }
}

/// The event that a line tells, or the line's first fault. `number_of_line` says which line it is; a request has it as its
/// number.
///
/// The line is a JSON object in UTF-8, before which line 1 may have the mark that says so, the bytes ef, bb and bf. Its member `event` names what is told, and `time` is a whole number below 2^64, as
/// `id` and `addr` are. The members beside these are, by the kind of event:
///
/// - `request`: `id`, and the fields of a request as a trace has them: `src` and `txn`, 0 to 65,535; `op`, 0 to 255; `size`,
///   0 to 7; `addr`; and `endian`, 0 or 1. Where its data come with it, also `be`, 0 to 65,535, and `lanes`, 32 hex digits,
///   lane 0 first. Where both are left out they are 0, and the data are told by an event `data`.
/// - `data`: `id`, `be` and `lanes`.
/// - `reply`: `id`, and `reply`: the text `comp`, one of 32 hex digits, lane 0 first, or `null`.
/// - `dropped`: `id`.
/// - `refused`: `id`, and `reason`: the name of a refusal, as `Misaligned`; it may be left out.
/// - `word`: `addr`, a multiple of 8 below 2^52, and `bytes`, 16 hex digits: the eight bytes in address order. Where `final`
///   is `true` the word is one at the end; it may be left out.
/// - `unknown`: `addr`, and `length`, 1 to 4,096. Where their sum is over 2^52, `length` is the bad member.
/// - `end`: none.
///
/// Members whose name begins with `x-` are ignored, and others are refused. Of two members of one name the last counts.
///
/// An object that has requests and names no event is `OfTrace`. Where line 1 begins as an object does and is not JSON it is
/// `NotWhole`, since a trace may stand on several lines, and where it begins as what gzip makes it is `Compressed`.
///
/// The faults' order is that of `event`, `time`, the kind's members as they are listed here, and then members that it does
/// not have. `Memory` is answered where a growth is refused before a fault is met.
///
/// A usual line, of at most 15 members and of no list, object or number of another kind, takes no memory but that of `scratch`, which
/// is kept from line to line.
///
/// ```
/// let mut scratch = Scratch::new(alloc);
/// let event = read_event(alloc, &mut scratch, 1, b"{\"time\":70,\"event\":\"dropped\",\"id\":3}")?;
/// ```
pub fn read_event(
    alloc: Global,
    scratch: &mut Scratch,
    number_of_line: u64,
    line: &[u8],
) -> Result<Event, LineFault>
    ensures ok { IfOk result (λ event. event_text number_of_line line.now ≡ Ok event) }
    ensures fault { IfErr result (λ fault. fault ≢ LineFault.Memory → event_text number_of_line line.now ≡ Err fault) }
{
    match usual_event(scratch, number_of_line, line) {
        Some(event) => Ok(event),
        None => any_event(alloc, number_of_line, line),
    }
}
