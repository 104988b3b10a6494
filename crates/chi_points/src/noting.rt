//! What waits with what a line more tells.

ghost use Rattle.std.specs.Prelude.{◌≡◌, ◌==◌, ◌++◌, IfOk, filter, map, not};
ghost use Rattle.chi_points.specs.Points.{alone_at, noted_of, with_event, with_point, with_told};
ghost use Rattle.chi_points.specs.PointedPort.{with_held};
ghost use Rattle.chi_points.specs.Known.{is_alone};

use crate::known::{are_dropped, is_alone, owner};
use crate::points::{Points, has_point};
use crate::slot::{Noted, Pointed, Slot};
use chi_events::{Event, EventKind};
use chi_flits::Held;
use std::alloc::{AllocError, Global};

/// Events of no request, each a slot.
fn alone(alloc: Global, time: u64, kinds: &[EventKind]) -> Result<Vec<Slot>, AllocError>
    ensures { IfOk result (λ slots. slots.items ≡ map (alone_at time) kinds.now) }
{
    kinds
        .iter()
        .map(|kind| Slot::Alone(Event { time, kind: *kind }))
        .collect(alloc)
}

/// Those of no request.
fn of_none(alloc: Global, kinds: &[EventKind]) -> Result<Vec<EventKind>, AllocError>
    ensures { IfOk result (λ others. others.items ≡ filter is_alone kinds.now) }
{
    kinds
        .iter()
        .copied()
        .filter(|kind| is_alone(kind))
        .collect(alloc)
}

/// What was told of the request with a place.
fn noted(alloc: Global, place: u64, kinds: &[EventKind]) -> Result<Vec<Noted>, AllocError>
    ensures { IfOk result (λ noted. noted.items ≡ map (noted_of place) kinds.now) }
{
    kinds
        .iter()
        .map(|kind| Noted { place, kind: *kind })
        .collect(alloc)
}

/// What was told of others than the request with a place.
fn of_others(alloc: Global, noted: &[Noted], place: u64) -> Result<Vec<Noted>, AllocError>
    ensures { IfOk result (λ others. others.items ≡ filter (λ n. not (n.place == place)) noted.now) }
{
    noted
        .iter()
        .copied()
        .filter(|it| it.place != place)
        .collect(alloc)
}

impl Points {
    /// Notes the events of no request that a flit told at a time.
    fn note_alone(
        &mut self,
        alloc: Global,
        time: u64,
        kinds: &[EventKind],
    ) -> Result<(), AllocError>
        ensures { IfOk result (λ _. self.new ≡ record self.old { slots = self.old.slots ++ map (alone_at time) kinds.now; time = time }) }
    {
        let slots = alone(alloc, time, kinds)?;
        self.slots.extend_from_slice(&slots)?;
        self.time = time;
        Ok(())
    }

    /// Notes that the request with a place, which has no point, was dropped.
    fn note_drop(
        &mut self,
        alloc: Global,
        time: u64,
        kinds: &[EventKind],
        place: u64,
    ) -> Result<(), AllocError>
        ensures { IfOk result (λ _. self.new ≡ record self.old { slots = self.old.slots ++ map (alone_at time) (filter is_alone kinds.now); noted = filter (λ n. not (n.place == place)) self.old.noted; time = time }) }
    {
        let others = of_none(alloc, kinds)?;
        let slots = alone(alloc, time, &others)?;
        let noted = of_others(alloc, &self.noted, place)?;
        self.slots.extend_from_slice(&slots)?;
        self.noted = noted;
        self.time = time;
        Ok(())
    }

    /// Notes what a flit told at a time of the request with a place.
    fn note_owned(
        &mut self,
        alloc: Global,
        time: u64,
        kinds: &[EventKind],
        place: u64,
    ) -> Result<(), AllocError>
        ensures { IfOk result (λ _. self.new ≡ record self.old { noted = self.old.noted ++ map (noted_of place) kinds.now; time = time }) }
    {
        let more = noted(alloc, place, kinds)?;
        self.noted.extend_from_slice(&more)?;
        self.time = time;
        Ok(())
    }

    /// Notes what a flit told at a time.
    pub(crate) fn note_told(
        &mut self,
        alloc: Global,
        time: u64,
        kinds: &[EventKind],
    ) -> Result<(), AllocError>
        ensures { IfOk result (λ _. self.new ≡ with_told time kinds.now self.old) }
    {
        let Some(place) = owner(kinds) else {
            return self.note_alone(alloc, time, kinds);
        };
        if are_dropped(kinds) && !has_point(&self.slots, place) {
            return self.note_drop(alloc, time, kinds, place);
        }
        self.note_owned(alloc, time, kinds, place)
    }

    /// Notes an event of no request.
    pub(crate) fn note_event(&mut self, event: &Event) -> Result<(), AllocError>
        ensures { IfOk result (λ _. self.new ≡ with_event event.now self.old) }
    {
        self.slots.push(Slot::Alone(*event))?;
        self.time = event.time;
        Ok(())
    }

    /// Notes the point of the request with a place, where it waits for it.
    pub(crate) fn note_point(&mut self, time: u64, place: u64) -> Result<(), AllocError>
        ensures { IfOk result (λ _. self.new ≡ with_point time place self.old) }
    {
        if self.waits_for_point(place) {
            self.slots.push(Slot::Pointed(Pointed { time, place }))?;
        }
        self.time = time;
        Ok(())
    }

    /// The same of the request that holds a TxnID.
    pub(crate) fn note_held(&mut self, time: u64, held: &Option<Held>) -> Result<(), AllocError>
        ensures { IfOk result (λ _. self.new ≡ with_held self.old time held.now) }
    {
        match held {
            Some(held) => self.note_point(time, held.place),
            None => Ok(()),
        }
    }
}
