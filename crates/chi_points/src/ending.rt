//! The end, at which all that waits is told.

ghost use Rattle.std.specs.Prelude.{◌≡◌, ◌++◌, ◌∷◌, [], IfOk, map};
ghost use Rattle.chi_events.specs.Ended.{is_end};
ghost use Rattle.chi_points.specs.Points.{at, ended, is_missing, line_of, missing_point, told_at_end};
ghost use Rattle.chi_points.specs.PointedPort.{points_after, told_by_event};

use crate::known::is_known;
use crate::points::{Points, has_point};
use crate::slot::Noted;
use crate::telling::{noted_after, told};
use chi_events::{Event, EventKind};
use std::alloc::{AllocError, Global};

/// What was told of requests, at one time.
fn all_at(alloc: Global, time: u64, noted: &[Noted]) -> Result<Vec<Event>, AllocError>
    ensures { IfOk result (λ events. events.items ≡ map (λ n. at time n.kind) noted.now) }
{
    noted
        .iter()
        .map(|it| Event {
            time,
            kind: it.kind,
        })
        .collect(alloc)
}

/// The line of a request.
fn line_of(kind: &EventKind) -> u64
    ensures { result ≡ line_of kind.now }
{
    match kind {
        EventKind::Request(requested) => requested.fields.number,
        _ => 0,
    }
}

/// Whether an event tells the end.
fn is_end(event: &Event) -> bool
    ensures { result ≡ is_end event.now }
{
    matches!(event.kind, EventKind::End)
}

impl Points {
    /// Whether this was told of a request that was completed, and has no point.
    fn is_missing(&self, noted: &Noted) -> bool
        ensures { result ≡ is_missing self.now noted.now }
    {
        !has_point(&self.slots, noted.place) && is_known(&self.noted, noted.place)
    }

    /// The line of the first request that was completed, and has no point.
    pub(crate) fn missing_point(&self) -> Option<u64>
        ensures { result ≡ missing_point self.now }
    {
        let noted = self.noted.iter().find(|it| self.is_missing(it))?;
        Some(line_of(&noted.kind))
    }

    /// Tells all that waits, and the end.
    pub(crate) fn tell_end(&mut self, alloc: Global, end: &Event) -> Result<Vec<Event>, AllocError>
        ensures told { IfOk result (λ events. events.items ≡ told_at_end end.now self.old) }
        ensures ended { IfOk result (λ _. self.new ≡ ended end.now) }
    {
        let mut events = told(alloc, &self.noted, &self.slots)?;
        let others = noted_after(alloc, &self.slots, &self.noted)?;
        let open = all_at(alloc, end.time, &others)?;
        events.extend_from_slice(&open)?;
        events.push(*end)?;
        *self = Points {
            slots: Vec::new(alloc),
            noted: Vec::new(alloc),
            time: end.time,
            is_ended: true,
        };
        Ok(events)
    }

    /// Tells what can be told now with an event of no request.
    pub(crate) fn tell_event(
        &mut self,
        alloc: Global,
        event: &Event,
    ) -> Result<Vec<Event>, AllocError>
        ensures told { IfOk result (λ events. events.items ≡ told_by_event self.old event.now) }
        ensures after { IfOk result (λ _. self.new ≡ points_after self.old event.now) }
    {
        if is_end(event) {
            return self.tell_end(alloc, event);
        }
        self.note_event(event)?;
        self.tell(alloc)
    }
}
