//! What events tell where a request that is answered by an error takes no effect.

ghost use Rattle.std.specs.Prelude.{◌≡◌, [], ℕ, List, None, IfOk, OnOk, unwrap_or, false};
ghost use Rattle.std.specs.BTreeMap.{get};
ghost use Rattle.std.specs.Ordering.{nat_cmp};
ghost use Rattle.chi_events.specs.declared.event.Event.{Event};
ghost use Rattle.chi_events.specs.declared.event.EventKind.{EventKind};
ghost use Rattle.chi_watch_text.specs.ErrorEffects.{Awaits, failed_by, kind_told, told_by_effect, told_without_effect, with_events};
ghost use Rattle.chi_watch_text.specs.declared.line_format.ErrorEffect.{ErrorEffect};

use crate::line_format::ErrorEffect;
use crate::operations::add_some;
use chi_events::{Event, EventKind, Requested};
use std::alloc::{AllocError, Global};
use std::collections::BTreeMap;

/// The requests whose data are still to come, by their numbers: whether each was answered by an error.
#[derive(Drop)]
pub(crate) struct AwaitedData {
    pub requests: BTreeMap<u64, bool>,
}

impl AwaitedData {
    /// No request was told.
    pub(crate) fn new(alloc: Global) -> AwaitedData
        ensures { (effect : ErrorEffect) → Awaits effect [] result }
    {
        AwaitedData {
            requests: BTreeMap::new(alloc),
        }
    }

    /// Whether the request with this number was answered by an error, and its data are still to come.
    fn is_failed(&self, id: u64) -> bool
        ensures { result ≡ unwrap_or (get nat_cmp self.now.requests id) false }
    {
        match self.requests.get(&id) {
            Some(is_failed) => *is_failed,
            None => false,
        }
    }

    /// The event as it is told, if it is.
    fn told_alone(&self, event: &Event) -> Option<Event>
        ensures { result ≡ kind_told (λ id. unwrap_or (get nat_cmp self.now.requests id) false) event.now event.now.kind }
    {
        match event.kind {
            EventKind::Reply(completion) if completion.reply.is_none() => Some(Event {
                time: event.time,
                kind: EventKind::Dropped { id: completion.id },
            }),
            EventKind::Data(packet) if self.is_failed(packet.id) => None,
            EventKind::Dropped { id } if self.is_failed(id) => None,
            _ => Some(*event),
        }
    }

    /// Notes that a request was told.
    fn note_request(&mut self, request: &Requested) -> Result<(), AllocError>
        ensures { OnOk result ((id : ℕ) → get nat_cmp self.new.requests id ≡ failed_by id (EventKind.Request request.now) (get nat_cmp self.old.requests id)) }
    {
        if request.has_data || request.fields.opcode == 0x04 {
            self.requests.remove(&request.id);
        } else {
            self.requests.insert(request.id, false)?;
        }
        Ok(())
    }

    /// Notes that the request with this number was answered by an error.
    fn note_error(&mut self, id: u64) -> Result<(), AllocError>
        ensures { OnOk result ((other : ℕ) → get nat_cmp self.new.requests other ≡ failed_by other (EventKind.Reply (record { id = id; reply = None })) (get nat_cmp self.old.requests other)) }
    {
        if self.requests.contains_key(&id) {
            self.requests.insert(id, true)?;
        }
        Ok(())
    }

    /// Notes what an event tells.
    fn note(&mut self, kind: &EventKind) -> Result<(), AllocError>
        ensures { OnOk result ((id : ℕ) → get nat_cmp self.new.requests id ≡ failed_by id kind.now (get nat_cmp self.old.requests id)) }
    {
        match kind {
            EventKind::Request(request) => self.note_request(request)?,
            EventKind::Data(packet) => {
                self.requests.remove(&packet.id);
            }
            EventKind::Dropped { id } | EventKind::Refused { id, reason: _ } => {
                self.requests.remove(id);
            }
            EventKind::Reply(completion) if completion.reply.is_none() => {
                self.note_error(completion.id)?;
            }
            _ => {}
        }
        Ok(())
    }

    /// What events tell, one after the other.
    fn told(&mut self, alloc: Global, events: &[Event]) -> Result<Vec<Event>, AllocError>
        ensures { IfOk result (λ told. (older : List Event) → Awaits ErrorEffect.None older self.old → (told.items ≡ told_without_effect older events.now) × Awaits ErrorEffect.None (with_events older events.now) self.new) }
    {
        let mut told = Vec::new(alloc);
        for event in events {
            add_some(&mut told, self.told_alone(event))?;
            self.note(&event.kind)?;
        }
        Ok(told)
    }
}

/// What events tell, by what an error says of its request.
pub(crate) fn told_by_effect(
    alloc: Global,
    effect: ErrorEffect,
    awaited: &mut AwaitedData,
    events: Vec<Event>,
) -> Result<Vec<Event>, AllocError>
    ensures { IfOk result (λ told. (older : List Event) → Awaits effect older awaited.old → (told.items ≡ told_by_effect effect older events.items) × Awaits effect (with_events older events.items) awaited.new) }
{
    match effect {
        ErrorEffect::Unknown => Ok(events),
        ErrorEffect::None => awaited.told(alloc, &events),
    }
}
