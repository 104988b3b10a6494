//! A home's port whose requests have points.

ghost use Rattle.std.specs.Prelude.{◌≡◌, ◌≢◌, List, None, Some, IfErr, IfOk};
ghost use Rattle.chi_events.specs.Ended.{is_end};
ghost use Rattle.chi_flits.specs.Effects.{HasSeen};
ghost use Rattle.chi_flits.specs.declared.flit.Flit.{Flit};
ghost use Rattle.chi_points.specs.PointFaults.{event_fault, kind_fault};
ghost use Rattle.chi_points.specs.PointedPort.{Follows, Seen, after_event, after_flit, after_point, flit_fault, held_by, nothing_seen, point_fault, points_after, told_by_event, told_by_flit, told_by_point};
ghost use Rattle.chi_points.specs.declared.fault.PointFault.{PointFault};

use crate::fault::PointFault;
use crate::point::Point;
use crate::points::Points;
use chi_events::Event;
use chi_flits::{Flit, FlitFault, FlitKind, Port, takes_txn};
use std::alloc::Global;

/// The opcode of RetryAck.
const RETRY_ACK: u8 = 3;

/// What is known at a home's port whose requests have points: of its flits, and what waits to be told.
#[derive(Drop)]
pub struct PointedPort {
    pub port: Port,
    pub points: Points,
}

impl PointedPort {
    /// A port at which nothing was seen.
    ///
    /// ```
    /// let mut port = PointedPort::new(alloc);
    /// ```
    pub fn new(alloc: Global) -> PointedPort
        ensures { Follows nothing_seen result }
    {
        PointedPort {
            port: Port::new(alloc),
            points: Points::new(alloc),
        }
    }

    /// Why a flit cannot come, by what waits to be told.
    fn kind_fault(&self, kind: &FlitKind) -> Option<PointFault>
        ensures { (flits : List Flit) → HasSeen flits self.now.port → result ≡ kind_fault self.now.points (held_by flits) kind.now }
    {
        match kind {
            FlitKind::Request(request) if takes_txn(request.opcode) => self
                .points
                .taken_fault(&self.port.held(request.src, request.txn)),
            FlitKind::Response(response) if response.opcode == RETRY_ACK => self
                .points
                .retry_fault(&self.port.held(response.tgt, response.txn)),
            _ => None,
        }
    }

    /// Takes a flit, and answers what is told now. Where it cannot come next nothing changes, and the fault says why. Where memory
    /// ends nothing is said of the port. The clauses speak of all that the port may have seen.
    ///
    /// ```
    /// for event in &port.take_flit(alloc, &flit)? {
    ///     watch.take(alloc, event)?;
    /// }
    /// ```
    pub fn take_flit(&mut self, alloc: Global, flit: &Flit) -> Result<Vec<Event>, PointFault>
        ensures seen { IfOk result (λ _. (seen : Seen) → Follows seen self.old → Follows (after_flit seen flit.now) self.new) }
        ensures fits { IfOk result (λ _. (seen : Seen) → Follows seen self.old → flit_fault seen flit.now ≡ None) }
        ensures told { IfOk result (λ told. (seen : Seen) → Follows seen self.old → told.items ≡ told_by_flit seen flit.now) }
        ensures fault { IfErr result (λ fault. fault ≢ PointFault.Memory → (seen : Seen) → Follows seen self.old → flit_fault seen flit.now ≡ Some fault) }
        ensures failed { IfErr result (λ fault. fault ≢ PointFault.Memory → self.new ≡ self.old) }
    {
        if let Some(fault) = self.points.time_fault(flit.time) {
            return Err(fault);
        }
        if let Some(fault) = self.kind_fault(&flit.kind) {
            return Err(fault);
        }
        let kinds = match self.port.take(alloc, flit) {
            Ok(kinds) => kinds,
            Err(FlitFault::Memory) => return Err(PointFault::Memory),
            Err(fault) => return Err(PointFault::Port(fault)),
        };
        self.points.note_told(alloc, flit.time, &kinds)?;
        Ok(self.points.tell(alloc)?)
    }

    /// Takes the point of the request that holds a TxnID, and answers what is told now. Where it cannot come next nothing changes,
    /// and the fault says why. Where memory ends nothing is said of the port.
    ///
    /// ```
    /// let told = port.take_point(alloc, &Point { time: 17, src: 3, txn: 4 })?;
    /// ```
    pub fn take_point(&mut self, alloc: Global, point: &Point) -> Result<Vec<Event>, PointFault>
        ensures seen { IfOk result (λ _. (seen : Seen) → Follows seen self.old → Follows (after_point seen point.now) self.new) }
        ensures fits { IfOk result (λ _. (seen : Seen) → Follows seen self.old → point_fault seen point.now ≡ None) }
        ensures told { IfOk result (λ told. (seen : Seen) → Follows seen self.old → told.items ≡ told_by_point seen point.now) }
        ensures fault { IfErr result (λ fault. fault ≢ PointFault.Memory → (seen : Seen) → Follows seen self.old → point_fault seen point.now ≡ Some fault) }
        ensures failed { IfErr result (λ fault. fault ≢ PointFault.Memory → self.new ≡ self.old) }
    {
        if let Some(fault) = self.points.time_fault(point.time) {
            return Err(fault);
        }
        let held = self.port.held(point.src, point.txn);
        if let Some(fault) = self.points.place_fault(&held) {
            return Err(fault);
        }
        self.points.note_held(point.time, &held)?;
        Ok(self.points.tell(alloc)?)
    }

    /// Takes an event of no request, and answers what is told now: at the end all that waits. Where it cannot come next nothing
    /// changes, and the fault says why. Where memory ends nothing is said of the port.
    ///
    /// ```
    /// let told = port.take_event(alloc, &Event { time: 40, kind: EventKind::End })?;
    /// ```
    pub fn take_event(&mut self, alloc: Global, event: &Event) -> Result<Vec<Event>, PointFault>
        ensures seen { IfOk result (λ _. (seen : Seen) → Follows seen self.old → Follows (after_event seen event.now) self.new) }
        ensures fits { IfOk result (λ _. (seen : Seen) → Follows seen self.old → event_fault seen.points event.now ≡ None) }
        ensures told { IfOk result (λ told. (seen : Seen) → Follows seen self.old → told.items ≡ told_by_event seen.points event.now) }
        ensures fault { IfErr result (λ fault. fault ≢ PointFault.Memory → (seen : Seen) → Follows seen self.old → event_fault seen.points event.now ≡ Some fault) }
        ensures failed { IfErr result (λ fault. fault ≢ PointFault.Memory → self.new ≡ self.old) }
    {
        if let Some(fault) = self.points.event_fault(event) {
            return Err(fault);
        }
        Ok(self.points.tell_event(alloc, event)?)
    }
}
