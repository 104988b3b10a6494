//! What is known of requests by what was told of them.

ghost use Rattle.std.specs.Prelude.{◌≡◌, find};
ghost use Rattle.chi_points.specs.Known.{are_dropped, has_data, has_drop, has_reply, is_alone, is_data_of, is_drop, is_drop_of, is_ended, is_ended_of, is_known, is_owned, is_reply_of, owner, place_of};

use crate::slot::Noted;
use chi_events::{EventKind, Requested};

/// The place of the request of which an event is one.
pub(crate) fn place_of(kind: &EventKind) -> Option<u64>
    ensures { result ≡ place_of kind.now }
{
    match kind {
        EventKind::Request(requested) => Some(requested.id / 8),
        EventKind::Data(packet) => Some(packet.id / 8),
        EventKind::Reply(completion) => Some(completion.id / 8),
        EventKind::Dropped { id } => Some(id / 8),
        EventKind::Refused { id, reason: _ } => Some(id / 8),
        EventKind::Word(_)
        | EventKind::Final(_)
        | EventKind::Unknown { addr: _, length: _ }
        | EventKind::End => None,
    }
}

/// Whether an event is one of no request.
pub(crate) fn is_alone(kind: &EventKind) -> bool
    ensures { result ≡ is_alone kind.now }
{
    place_of(kind).is_none()
}

/// Whether an event is one of a request.
fn is_owned(kind: &EventKind) -> bool
    ensures { result ≡ is_owned kind.now }
{
    place_of(kind).is_some()
}

/// The first of events that is one of a request.
fn first_owned(kinds: &[EventKind]) -> Option<EventKind>
    ensures { result ≡ find is_owned kinds.now }
{
    kinds.iter().copied().find(|kind| is_owned(kind))
}

/// The place of the request of which events tell, if they tell of one.
pub(crate) fn owner(kinds: &[EventKind]) -> Option<u64>
    ensures { result ≡ owner kinds.now }
{
    let first = first_owned(kinds)?;
    place_of(&first)
}

fn is_data_of(id: u64, kind: &EventKind) -> bool
    ensures { result ≡ is_data_of id kind.now }
{
    match kind {
        EventKind::Data(packet) => packet.id == id,
        _ => false,
    }
}

fn is_reply_of(id: u64, kind: &EventKind) -> bool
    ensures { result ≡ is_reply_of id kind.now }
{
    match kind {
        EventKind::Reply(completion) => completion.id == id,
        _ => false,
    }
}

fn is_drop_of(id: u64, kind: &EventKind) -> bool
    ensures { result ≡ is_drop_of id kind.now }
{
    match kind {
        EventKind::Dropped { id: dropped } => *dropped == id,
        _ => false,
    }
}

/// Whether an event says that a request took no effect.
fn is_drop(kind: &EventKind) -> bool
    ensures { result ≡ is_drop kind.now }
{
    matches!(kind, EventKind::Dropped { id: _ })
}

fn has_data(noted: &[Noted], id: u64) -> bool
    ensures { result ≡ has_data noted.now id }
{
    noted.iter().any(|it| is_data_of(id, &it.kind))
}

fn has_reply(noted: &[Noted], id: u64) -> bool
    ensures { result ≡ has_reply noted.now id }
{
    noted.iter().any(|it| is_reply_of(id, &it.kind))
}

fn has_drop(noted: &[Noted], id: u64) -> bool
    ensures { result ≡ has_drop noted.now id }
{
    noted.iter().any(|it| is_drop_of(id, &it.kind))
}

/// Whether one of events says that a request took no effect.
pub(crate) fn are_dropped(kinds: &[EventKind]) -> bool
    ensures { result ≡ are_dropped kinds.now }
{
    kinds.iter().any(|kind| is_drop(kind))
}

/// Whether all is known of an operation.
fn is_ended(noted: &[Noted], requested: &Requested) -> bool
    ensures { result ≡ is_ended noted.now requested.now }
{
    let id = requested.id;
    has_drop(noted, id)
        || (has_reply(noted, id) && (requested.fields.opcode == 0x04 || has_data(noted, id)))
}

/// The same of one that an event requests.
fn is_ended_of(noted: &[Noted], kind: &EventKind) -> bool
    ensures { result ≡ is_ended_of noted.now kind.now }
{
    match kind {
        EventKind::Request(requested) => is_ended(noted, requested),
        _ => true,
    }
}

/// Whether all is known of the request with a place.
pub(crate) fn is_known(noted: &[Noted], place: u64) -> bool
    ensures { result ≡ is_known noted.now place }
{
    noted
        .iter()
        .all(|it| it.place != place || is_ended_of(noted, &it.kind))
}
