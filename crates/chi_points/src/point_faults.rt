//! Why a line cannot come next, by what waits to be told.

ghost use Rattle.std.specs.Prelude.{◌≡◌, ℕ, Option};
ghost use Rattle.chi_flits.specs.declared.held.Held.{Held};
ghost use Rattle.chi_points.specs.PointFaults.{end_fault, event_fault, place_fault, retry_fault, taken_fault, time_fault};

use crate::fault::{PointFault, fault_if};
use crate::points::{Points, has_point};
use chi_events::{Event, EventKind};
use chi_flits::{FlitFault, Held};

impl Points {
    /// Why no line of a time can come.
    pub(crate) fn time_fault(&self, time: u64) -> Option<PointFault>
        ensures { result ≡ time_fault self.now time }
    {
        if time < self.time {
            return Some(PointFault::Port(FlitFault::TimeFalls));
        }
        fault_if(self.is_ended, PointFault::AfterEnd)
    }

    /// Why a request cannot take a TxnID, by the one that holds it.
    pub(crate) fn taken_fault(&self, held: &Option<Held>) -> Option<PointFault>
        ensures { result ≡ taken_fault self.now held.now }
    {
        let held = held.as_ref()?;
        fault_if(
            self.waits_for_point(held.place),
            PointFault::Port(FlitFault::TakesOpen),
        )
    }

    /// Why a RetryAck cannot come, by the request that holds its TxnID.
    pub(crate) fn retry_fault(&self, held: &Option<Held>) -> Option<PointFault>
        ensures { result ≡ retry_fault self.now held.now }
    {
        let held = held.as_ref()?;
        fault_if(has_point(&self.slots, held.place), PointFault::RetryLate)
    }

    /// Why a point cannot come, by the request that holds its TxnID.
    pub(crate) fn place_fault(&self, held: &Option<Held>) -> Option<PointFault>
        ensures { result ≡ place_fault self.now held.now }
    {
        let Some(held) = held else {
            return Some(PointFault::Port(FlitFault::NotOpen));
        };
        fault_if(
            held.is_told && !held.is_dropped && !self.waits_for_point(held.place),
            PointFault::Port(FlitFault::NotOpen),
        )
    }

    /// Why an event of no request cannot come, where it is the end.
    fn end_fault(&self, kind: &EventKind) -> Option<PointFault>
        ensures { result ≡ end_fault self.now kind.now }
    {
        match kind {
            EventKind::End => Some(PointFault::NoPoint(self.missing_point()?)),
            _ => None,
        }
    }

    /// Why an event of no request cannot come.
    pub(crate) fn event_fault(&self, event: &Event) -> Option<PointFault>
        ensures { result ≡ event_fault self.now event.now }
    {
        if let Some(fault) = self.time_fault(event.time) {
            return Some(fault);
        }
        self.end_fault(&event.kind)
    }
}
