//! What an event does to the outstanding requests.

ghost use Rattle.std.specs.Prelude.{◌≡◌, ◌≢◌, Some, None, IfErr, IfOk, IfSome};
ghost use Rattle.chi_events.specs.Granules.{granule_of_request};
ghost use Rattle.chi_events.specs.Requests.{Replaces};
ghost use Rattle.chi_events.specs.declared.outstanding.Open.{Open};
ghost use Rattle.chi_events.specs.Outstanding.{data_fault, ended_fault, kind_fault, open_with, refusal_by, refused_fault, reply_fault, request_about};
ghost use Rattle.chi_events.specs.EventEffects.{Takes, ended_by, still_open, with_data, with_reply};

use crate::deciding::{is_reason, opened, with_data};
use crate::event::{Completion, EventKind, Packet, Requested};
use crate::fault::EventFault;
use crate::outstanding::Open;
use crate::requests::Requests;
use chi_fields::Refusal;
use chi_trace::Operation;

/// The outstanding request that an event of this kind is about.
pub(crate) fn request_about(requests: &Requests, kind: &EventKind) -> Option<Open>
    ensures { result ≡ request_about requests.now kind.now }
{
    match kind {
        EventKind::Data(packet) => requests.with_number(packet.id),
        EventKind::Reply(completion) => requests.with_number(completion.id),
        EventKind::Dropped { id } => requests.with_number(*id),
        EventKind::Refused { id, reason: _ } => requests.with_number(*id),
        _ => None,
    }
}

/// Why a home refused a request, where the event tells that one did.
pub(crate) fn refusal_by(requests: &Requests, kind: &EventKind) -> Option<Refusal>
    ensures { result ≡ refusal_by requests.now kind.now }
{
    match kind {
        EventKind::Refused {
            id: _,
            reason: Some(reason),
        } => Some(*reason),
        EventKind::Refused { id, reason: None } => match requests.with_number(*id) {
            Some(request) => request.refusal,
            None => None,
        },
        _ => None,
    }
}

/// Takes a request.
fn take_request(requests: &mut Requests, time: u64, request: &Requested) -> Result<(), EventFault>
    ensures taken { IfOk result (λ u. (kind_fault requests.old (EventKind.Request request.now) ≡ None) × Takes (EventKind.Request request.now) time requests.old None requests.new) }
    ensures fault { IfErr result (λ fault. fault ≢ EventFault.Memory → kind_fault requests.old (EventKind.Request request.now) ≡ Some fault) }
    ensures failed { IfErr result (λ fault. requests.new ≡ requests.old) }
{
    if requests.with_number(request.id).is_some() {
        return Err(EventFault::NumberTaken);
    }
    match requests.push(opened(request, time)) {
        Ok(()) => Ok(()),
        Err(_) => Err(EventFault::Memory),
    }
}

/// Why no home has completed a request, where its completion has left.
fn ended_fault(request: &Open) -> Option<EventFault>
    ensures { result ≡ ended_fault request.now.refusal request.now.completion }
{
    if request.completion.is_none() {
        return None;
    }
    let refusal = request.refusal?;
    Some(EventFault::Refused(refusal))
}

/// A request, unless it has a completion though every home refuses it.
fn fitting(request: Open) -> Result<Open, EventFault>
    ensures fits { IfOk result (λ now. (ended_fault request.refusal request.completion ≡ None) × (now ≡ request)) }
    ensures fault { IfErr result (λ fault. ended_fault request.refusal request.completion ≡ Some fault) }
{
    match ended_fault(&request) {
        Some(fault) => Err(fault),
        None => Ok(request),
    }
}

/// The operation of a request that ends at this time, if it does.
fn operation_by(request: &Open, time: u64) -> Option<Operation>
    ensures { result ≡ ended_by time request.now }
{
    let access = request.access?;
    let reply = request.completion?;
    Some(request.fields.operation(access, request.start, time, reply))
}

/// Keeps a request as it is now, or takes it out and answers its operation, where it has ended.
fn end_if_complete(requests: &mut Requests, now: Open, time: u64) -> Option<Operation>
    requires { IfSome (open_with now.id requests.old) (λ o. (granule_of_request now ≡ granule_of_request o) × (now.start ≡ o.start)) }
    ensures left { (o : Open) → open_with now.id requests.old ≡ Some o → Replaces o (still_open now) requests.old requests.new }
    ensures ended { result ≡ ended_by time now }
{
    let ended = operation_by(&now, time);
    if ended.is_some() {
        requests.remove(now.id);
    } else {
        requests.replace(now);
    }
    ended
}

/// The outstanding request with a number, which has to be there.
fn outstanding_with(requests: &Requests, id: u64) -> Result<Open, EventFault>
    ensures found { IfOk result (λ o. open_with id requests.now ≡ Some o) }
    ensures none { IfErr result (λ fault. (fault ≡ EventFault.NotOutstanding) × (open_with id requests.now ≡ None)) }
{
    match requests.with_number(id) {
        Some(request) => Ok(request),
        None => Err(EventFault::NotOutstanding),
    }
}

/// A request with its data, where it waits for them.
fn data_taken(request: &Open, packet: &Packet) -> Result<Open, EventFault>
    ensures taken { IfOk result (λ now. (data_fault packet.now (Some request.now) ≡ None) × (now ≡ with_data packet.now request.now)) }
    ensures fault { IfErr result (λ fault. data_fault packet.now (Some request.now) ≡ Some fault) }
{
    if request.is_whole {
        return Err(EventFault::DataTwice);
    }
    fitting(with_data(request, packet))
}

/// A request with its completion, where none has left.
fn reply_taken(request: &Open, sent: &Completion) -> Result<Open, EventFault>
    ensures taken { IfOk result (λ now. (reply_fault sent.now (Some request.now) ≡ None) × (now ≡ with_reply sent.now request.now)) }
    ensures fault { IfErr result (λ fault. reply_fault sent.now (Some request.now) ≡ Some fault) }
{
    if request.completion.is_some() {
        return Err(EventFault::ReplyTwice);
    }
    fitting(Open {
        completion: Some(sent.reply),
        ..*request
    })
}

/// That a home may have refused a request, for this reason where one is told.
fn refusable(request: &Open, reason: Option<Refusal>) -> Result<(), EventFault>
    ensures fits { IfOk result (λ _. refused_fault reason (Some request.now) ≡ None) }
    ensures fault { IfErr result (λ fault. refused_fault reason (Some request.now) ≡ Some fault) }
{
    if request.completion.is_some() {
        return Err(EventFault::RefusedAfterReply);
    }
    match reason {
        Some(reason) if !is_reason(request, reason) => Err(EventFault::NotRefusedSo),
        _ => Ok(()),
    }
}

/// Takes what an event tells, and answers the operation that ended by it, if one did.
pub(crate) fn apply_event(
    requests: &mut Requests,
    time: u64,
    kind: &EventKind,
) -> Result<Option<Operation>, EventFault>
    ensures taken { IfOk result (λ ended. (kind_fault requests.old kind.now ≡ None) × Takes kind.now time requests.old ended requests.new) }
    ensures fault { IfErr result (λ fault. fault ≢ EventFault.Memory → kind_fault requests.old kind.now ≡ Some fault) }
    ensures failed { IfErr result (λ fault. requests.new ≡ requests.old) }
{
    match kind {
        EventKind::Request(requested) => {
            take_request(requests, time, requested)?;
            Ok(None)
        }
        EventKind::Data(packet) => {
            let request = outstanding_with(requests, packet.id)?;
            let now = data_taken(&request, packet)?;
            Ok(end_if_complete(requests, now, time))
        }
        EventKind::Reply(sent) => {
            let request = outstanding_with(requests, sent.id)?;
            let now = reply_taken(&request, sent)?;
            Ok(end_if_complete(requests, now, time))
        }
        EventKind::Dropped { id } => {
            outstanding_with(requests, *id)?;
            requests.remove(*id);
            Ok(None)
        }
        EventKind::Refused { id, reason } => {
            let request = outstanding_with(requests, *id)?;
            refusable(&request, *reason)?;
            requests.remove(*id);
            Ok(None)
        }
        EventKind::Word(_) | EventKind::Final(_) | EventKind::Unknown { .. } | EventKind::End => {
            Ok(None)
        }
    }
}
