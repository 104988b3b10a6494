//! How the text of a trace is read.

ghost use Rattle.std.specs.Prelude.{◌≡◌, ◌≢◌, IfErr, IfOk, Ok, Err};
ghost use Rattle.std.specs.Result.{result_map_both};
ghost use Rattle.serde_json.specs.Find.{as_array};
ghost use Rattle.serde_json.specs.View.{items_view, members_view, view};
ghost use Rattle.chi_json.specs.Members.{member_by};
ghost use Rattle.chi_reading.specs.Member.{member_name};
ghost use Rattle.chi_reading.specs.TraceText.{IsOf, TextValue, object_text, trace_text};

use crate::fault::TraceFault;
use crate::mark::text_value;
use crate::member::{Member, TRACE};
use crate::memory::{in_trace, memory_told};
use crate::other_kind::{is_of_event, is_of_flit, unread_text};
use crate::recorded::{Recorded, in_order};
use crate::requests::all_completed;
use crate::usual_trace::usual_trace;
use chi_json::{MemberFault, ObjectFault, stated, unknown_member};
use serde_json::{Map, Value};
use std::alloc::Global;

/// The requests that a trace lists.
fn requests_listed(object: &Value) -> Result<&[Value], MemberFault<Member>>
    ensures { result_map_both (λ list. items_view list.now) (λ fault. fault) result ≡ member_by member_name Member.Requests as_array (view object.now) }
{
    match stated(object, Member::Requests)?.as_array() {
        Some(list) => Ok(list.as_slice()),
        None => Err(MemberFault::BadMember(Member::Requests)),
    }
}

/// The trace that an object is.
#[tactic(auto, unfolding(crate::specs::TraceText::object_text))]
fn object_trace(
    alloc: Global,
    object: &Value,
    members: &Map<String, Value>,
) -> Result<Recorded, TraceFault>
    ensures ok { IfOk result (λ r. (t : TextValue) × (object_text (view object.now) (members_view members.now.entries) ≡ Ok t) × IsOf t r) }
    ensures fault { IfErr result (λ f. f ≢ TraceFault.Memory → object_text (view object.now) (members_view members.now.entries) ≡ Err f) }
{
    let memory = memory_told(alloc, object)?;
    let list = in_trace(object, requests_listed(object))?;
    if let Some(name) = unknown_member(members, &[&TRACE]) {
        return Err(TraceFault::Object(ObjectFault::UnknownMember(name)));
    }
    let found = all_completed(alloc, list, &memory.region)?;
    let recorded = in_order(memory, found)?;
    Ok(recorded)
}

/// The trace that a text is, or its first fault.
///
/// The text is a JSON object in UTF-8, before which the mark that says so may stand, the bytes ef, bb and bf. With `base` and `granules`, and perhaps `image` and `final`, its memory is a region, as
/// that of a script. Where `granules` is left out the memory is all addresses below 2^52, and `image` and
/// `final` are lists of objects with `addr`, a multiple of 8, and `bytes`, the eight bytes of that granule as 16 hex digits in
/// address order; no granule is told twice.
///
/// `requests` has at most 1,048,576 requests as a script has them, of requesters and transactions up to 65,535. Each has
/// `start` and `end`, whole numbers below 2^64, of which the end is not the less; `end` is left out where the operation was
/// open when the trace ended. `reply` is the text `comp`, one of 32 hex digits, lane 0 first, or `null` where it was not seen;
/// it may be left out where `end` is. A request that a home refuses is a fault. A reply that no home gives, whatever the
/// memory holds, is none: no order explains it. A request that was refused has `refused`, the name of the reason, as `Misaligned`,
/// and no `reply`: it is no operation, and a fault where a home does not refuse it for just this reason.
///
/// Members whose name begins with `x-` are ignored, in the trace and in its requests, and others than those above are refused.
/// A text that is no trace, and whose first line is an object that names an event, is `OfEvents`; of one that names the channel of a
/// flit it is `OfFlits`.
///
/// The faults' order is that of the members `base`, `granules`, with the region's own fault, `image`, `final` and
/// `requests`, then members that a trace does not have, and then of the requests, of each its members, members that it does
/// not have, its refusal, its times and its reply. `Memory` is answered where a growth is refused before a fault is met.
///
/// Of a usual trace the requests are read one after another, so that it takes the memory of its operations and once more that of its
/// text: one that has no fault, where `base` and `granules` stand before `requests`, where each object has at most 15 members, and
/// where a member that is ignored is a text, a whole number below 2^64, true, false or null.
///
/// ```
/// let recorded = read_trace(alloc, b"{\"requests\":[]}")?;
/// ```
#[tactic(auto, unfolding(crate::specs::TraceText::trace_text))]
pub fn read_trace(alloc: Global, text: &[u8]) -> Result<Recorded, TraceFault>
    ensures ok { IfOk result (λ r. (t : TextValue) × (trace_text text.now ≡ Ok t) × IsOf t r) }
    ensures fault { IfErr result (λ f. f ≢ TraceFault.Memory → trace_text text.now ≡ Err f) }
{
    if let Some(recorded) = usual_trace(alloc, text) {
        return Ok(recorded);
    }
    let Some(value) = text_value(alloc, text)? else {
        return Err(unread_text(alloc, text)?);
    };
    match value.as_object() {
        Some(_) if is_of_event(&value) => Err(TraceFault::OfEvents),
        Some(_) if is_of_flit(&value) => Err(TraceFault::OfFlits),
        Some(members) => object_trace(alloc, &value, members),
        None => Err(TraceFault::Object(ObjectFault::NotObject)),
    }
}
