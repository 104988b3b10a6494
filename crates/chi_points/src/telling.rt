//! What is told now of what waits.

ghost use Rattle.std.specs.Prelude.{◌≡◌, ◌++◌, IfOk, OnOk, map};
ghost use Rattle.chi_points.specs.Points.{at, is_ready, kinds_of, left, left_after, noted_after, ready, told, told_at, told_now};

use crate::known::is_known;
use crate::points::{Points, has_point};
use crate::slot::{Noted, Slot};
use chi_events::{Event, EventKind};
use std::alloc::{AllocError, Global};

/// What was told of the request with a place.
fn kinds_of(alloc: Global, noted: &[Noted], place: u64) -> Result<Vec<EventKind>, AllocError>
    ensures { IfOk result (λ kinds. kinds.items ≡ kinds_of noted.now place) }
{
    noted
        .iter()
        .filter_map(|it| {
            if it.place == place {
                Some(it.kind)
            } else {
                None
            }
        })
        .collect(alloc)
}

/// Events of one time.
fn at_time(alloc: Global, time: u64, kinds: &[EventKind]) -> Result<Vec<Event>, AllocError>
    ensures { IfOk result (λ events. events.items ≡ map (at time) kinds.now) }
{
    kinds
        .iter()
        .map(|kind| Event { time, kind: *kind })
        .collect(alloc)
}

/// The events of a slot.
fn told_at(alloc: Global, noted: &[Noted], slot: &Slot) -> Result<Vec<Event>, AllocError>
    ensures { IfOk result (λ events. events.items ≡ told_at noted.now slot.now) }
{
    match slot {
        Slot::Alone(event) => Vec::from_slice(alloc, &[*event]),
        Slot::Pointed(pointed) => {
            let kinds = kinds_of(alloc, noted, pointed.place)?;
            at_time(alloc, pointed.time, &kinds)
        }
    }
}

/// Adds the events of a slot.
fn add_told_at(
    alloc: Global,
    events: &mut Vec<Event>,
    noted: &[Noted],
    slot: &Slot,
) -> Result<(), AllocError>
    ensures { OnOk result (events.new.items ≡ events.old.items ++ told_at noted.now slot.now) }
{
    let more = told_at(alloc, noted, slot)?;
    events.extend_from_slice(&more)?;
    Ok(())
}

/// Adds the events of slots, one after the other.
fn add_told(
    alloc: Global,
    events: &mut Vec<Event>,
    noted: &[Noted],
    slots: &[Slot],
) -> Result<(), AllocError>
    ensures { OnOk result (events.new.items ≡ events.old.items ++ told noted.now slots.now) }
{
    for slot in slots {
        add_told_at(alloc, events, noted, slot)?;
    }
    Ok(())
}

/// The events of slots, one after the other.
pub(crate) fn told(alloc: Global, noted: &[Noted], slots: &[Slot]) -> Result<Vec<Event>, AllocError>
    ensures { IfOk result (λ events. events.items ≡ told noted.now slots.now) }
{
    let mut events = Vec::new(alloc);
    add_told(alloc, &mut events, noted, slots)?;
    Ok(events)
}

/// Whether a slot can be told.
fn is_ready(noted: &[Noted], slot: &Slot) -> bool
    ensures { result ≡ is_ready noted.now slot.now }
{
    match slot {
        Slot::Alone(_) => true,
        Slot::Pointed(pointed) => is_known(noted, pointed.place),
    }
}

/// What was told of requests that have no point among these slots.
pub(crate) fn noted_after(
    alloc: Global,
    slots: &[Slot],
    noted: &[Noted],
) -> Result<Vec<Noted>, AllocError>
    ensures { IfOk result (λ others. others.items ≡ noted_after slots.now noted.now) }
{
    noted
        .iter()
        .copied()
        .filter(|it| !has_point(slots, it.place))
        .collect(alloc)
}

impl Points {
    /// The slots that are told now.
    fn ready(&self, alloc: Global) -> Result<Vec<Slot>, AllocError>
        ensures { IfOk result (λ slots. slots.items ≡ ready self.now) }
    {
        self.slots
            .iter()
            .copied()
            .take_while(|slot| is_ready(&self.noted, slot))
            .collect(alloc)
    }

    /// Tells slots, with which the others begin.
    fn leave(&mut self, alloc: Global, told: &[Slot]) -> Result<(), AllocError>
        ensures { IfOk result (λ _. self.new ≡ left_after told.now self.old) }
    {
        let noted = noted_after(alloc, told, &self.noted)?;
        let slots = self.slots.iter().copied().skip(told.len()).collect(alloc)?;
        self.slots = slots;
        self.noted = noted;
        Ok(())
    }

    /// Tells what can be told now.
    pub(crate) fn tell(&mut self, alloc: Global) -> Result<Vec<Event>, AllocError>
        ensures told { IfOk result (λ events. events.items ≡ told_now self.old) }
        ensures left { IfOk result (λ _. self.new ≡ left self.old) }
    {
        let ready = self.ready(alloc)?;
        if ready.is_empty() {
            return Ok(Vec::new(alloc));
        }
        let events = told(alloc, &self.noted, &ready)?;
        self.leave(alloc, &ready)?;
        Ok(events)
    }
}
