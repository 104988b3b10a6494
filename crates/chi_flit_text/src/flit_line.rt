//! Objects that state a flit each, and how one is read.

ghost use Rattle.std.specs.Prelude.{◌≡◌, IfSome, Ok};
ghost use Rattle.serde_json.specs.Find.{get};
ghost use Rattle.serde_json.specs.View.{members_view, view};
ghost use Rattle.chi_json.specs.Flat.{flat_data, flat_members};
ghost use Rattle.chi_json.specs.Members.{member_by};
ghost use Rattle.chi_flit_text.specs.FlitText.{line_of, object_flit};
ghost use Rattle.chi_flit_text.specs.Member.{member_name};
ghost use Rattle.chi_flit_text.specs.Stated.{channel_of, validity_by, validity_text};

use crate::channel::Channel;
use crate::fault::FlitLineFault;
use crate::kind::kind;
use crate::member::FlitMember;
use crate::numbers::{Numbers, stated_numbers};
use chi_flits::Flit;
use chi_json::{FlatObject, JsonObject, MemberFault, ObjectFault, number, stated, unknown_member};
use serde_json::{Map, Value};

/// What the members of a flit's object state.
#[derive(Clone, Copy)]
pub(crate) struct FlitLine {
    pub channel: Channel,
    pub time: u64,
    pub numbers: Numbers,
    pub is_valid: bool,
}

/// The channel that an object names.
fn channel<O: JsonObject>(object: &O) -> Result<Channel, MemberFault<FlitMember>>
    ensures { result ≡ member_by member_name FlitMember.Channel channel_of (O.data_of object.now) }
{
    let value = stated(object, FlitMember::Channel)?;
    let name = value.as_str();
    name.and_then(Channel::named)
        .ok_or(MemberFault::BadMember(FlitMember::Channel))
}

/// Whether the valid of a flit is known, by its text.
fn validity_text(text: &str) -> Option<bool>
    ensures { result ≡ validity_text text.now }
{
    match text {
        "1" => Some(true),
        "x" | "X" | "z" | "Z" => Some(false),
        _ => None,
    }
}

/// Whether the valid of a flit is known. Where it is left out it is.
pub(crate) fn validity<O: JsonObject>(object: &O) -> Result<bool, MemberFault<FlitMember>>
    ensures { result ≡ validity_by (get (member_name FlitMember.Valid) (O.data_of object.now)) }
{
    let Some(value) = object.get(FlitMember::Valid.name()) else {
        return Ok(true);
    };
    value
        .as_str()
        .and_then(validity_text)
        .ok_or(MemberFault::BadMember(FlitMember::Valid))
}

/// What the members of an object state.
#[tactic(auto, unfolding(crate::specs::FlitText::line_of))]
fn flit_line<O: JsonObject>(object: &O) -> Result<FlitLine, MemberFault<FlitMember>>
    ensures { result ≡ line_of (O.data_of object.now) }
{
    let channel = channel(object)?;
    let time = number(object, FlitMember::Time, u64::MAX)?;
    let numbers = stated_numbers(channel, object)?;
    let is_valid = validity(object)?;
    Ok(FlitLine {
        channel,
        time,
        numbers,
        is_valid,
    })
}

/// The flit that an object states, or its first fault. `number_of_line` says which line the object stands on; a request has it
/// as its number. `members` are those of the object.
///
/// The member `channel` names one of four channels, and `time` is a whole number below 2^64. Each other member is a text of hex
/// digits as simulators print them with `%h`: the most significant first, in either case, and x or z, in either case, for a digit
/// that is not known: so `0x12` is a text of four digits, one of which is not known. A number has 1 to 16 digits. The members of
/// each channel, with the greatest value of each number, are:
///
/// - `REQ`, a request: `src` ffff, `txn` ffff, `opcode` ff, `size` 7, `addr` 2^52 - 1, `endian` 1 and `excl` 1. The last two may
///   be left out, and are then 0.
/// - `RSP`, a response of the home: `tgt` ffff, `txn` ffff, `opcode` ff, `resp_err` 3 and `dbid` ffff.
/// - `RDAT`, data of the home: `tgt` ffff, `txn` ffff, `opcode` ff, `resp_err` 3, `data_id` 3 and `data`.
/// - `WDAT`, data to the home: `src` ffff, `txn` ffff, `opcode` ff, `data_id` 3, `be`, `data` and `resp_err` 3. The last may be
///   left out, and is then 0.
///
/// `data` has two digits for each of 16, 32 or 64 lanes, and its last two are lane 0. `be` has a digit for every four lanes, an
/// eighth of the digits of `data`, and its lowest bit is the enable of lane 0. A lane with a digit that is not known is 0, and
/// is one of the chunk's `unknown`; such a digit of `be` is four enables of `unknown_be`, which are 0 in `be`. Where both have
/// a number of digits that they may have, and not of one width, `be` is the bad member.
///
/// DataID d says that the first 16 lanes are quarter d of the line. A flit of 32 lanes has DataID 0 or 2, and one of 64 has 0.
///
/// A number of which a digit is not known is a fault only where its value is looked at, and is 0 elsewhere. `opcode` is always
/// looked at, and of the others, by opcode:
///
/// - `REQ`: none of 00, 05 and 3a. `src` and `txn` of all others; `size` and `addr` of these, but not of 01, 02, 03, 0d, 14, 22,
///   23, 24 and 26; `excl` of 04, 1c and 1d; `endian` of 28 to 39.
/// - `RSP`: `tgt` and `txn` of 3 to 6, `resp_err` of 4 and 5, `dbid` of 5 and 6.
/// - `RDAT`: all of 4. The chunks of others are `None`.
/// - `WDAT`: `src`, `txn` and `data_id` of 3 and 7, `resp_err` of 3. The chunks of others are `None`.
///
/// A flit may also have `valid`: `1`, which says nothing more, or one x or z, which is the fault `UnknownValid`. Members whose
/// name begins with `x-` are ignored, and others are refused.
///
/// The faults' order is that of `channel`, `time`, the channel's members as they are listed here, `valid`, members that it does
/// not have, digits that are not known, and the DataID.
///
/// Source: Arm IHI 0050 Issue B, fields and opcodes of the flits, and the DataID of each width of data.
///
/// ```
/// let flit = read_flit(4, &object, object.as_object()?)?; // {"channel":"RSP","time":70,"tgt":"1","txn":"a3",..}
/// ```
#[tactic(auto, unfolding(crate::specs::FlitText::object_flit))]
pub fn read_flit(
    number_of_line: u64,
    object: &Value,
    members: &Map<String, Value>,
) -> Result<Flit, FlitLineFault>
    ensures { result ≡ object_flit number_of_line (view object.now) (members_view members.now.entries) }
{
    let line = match flit_line(object) {
        Ok(line) => line,
        Err(fault) => return Err(FlitLineFault::of_member(object, fault)),
    };
    if !line.is_valid {
        return Err(FlitLineFault::UnknownValid);
    }
    if let Some(name) = unknown_member(members, line.channel.members()) {
        return Err(FlitLineFault::Object(ObjectFault::UnknownMember(name)));
    }
    let kind = kind(number_of_line, line.numbers)?;
    Ok(Flit {
        time: line.time,
        kind,
    })
}

/// The flit that an object on the line with this number states, where the object has no fault. Where it has one nothing is said.
///
/// ```
/// let flit = usual_flit(4, &object)?; // {"channel":"RSP","time":70,"tgt":"1","txn":"a3",..}
/// ```
#[tactic(auto, unfolding(crate::specs::FlitText::object_flit))]
pub fn usual_flit(number_of_line: u64, object: &FlatObject<'_>) -> Option<Flit>
    ensures { IfSome result (λ flit. object_flit number_of_line (flat_data object.now) (flat_members object.now) ≡ Ok flit) }
{
    let Ok(line) = flit_line(object) else {
        return None;
    };
    if !line.is_valid || !object.has_only(line.channel.members()) {
        return None;
    }
    match kind(number_of_line, line.numbers) {
        Ok(kind) => Some(Flit {
            time: line.time,
            kind,
        }),
        Err(_) => None,
    }
}
