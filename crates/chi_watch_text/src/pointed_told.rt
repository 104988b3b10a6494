//! What a line tells where requests are told at their points.

ghost use Rattle.std.specs.Prelude.{◌≡◌, ◌≢◌, IfErr, IfOk, Ok};
ghost use Rattle.chi_reading.specs.EventText.{event_text};
ghost use Rattle.chi_watch_text.specs.LineTold.{event_pointed, other_pointed, other_pointed_by, pointed_among, stated_in, stated_pointed};
ghost use Rattle.chi_watch_text.specs.Reading.{RefusesBy, TellsBy};
ghost use Rattle.chi_watch_text.specs.declared.stated.Stated.{Stated};

use crate::fault::{LinesFault, TellingFault};
use crate::line_stated::stated_in;
use crate::line_told::{event_told, is_early, is_of_request};
use crate::stated::Stated;
use chi_events::Event;
use chi_flits::Flit;
use chi_json::Scratch;
use chi_points::{Point, PointFault, PointedPort};
use std::alloc::Global;

/// Why lines are read no further where a port answers this fault to the line with this number.
fn points_fault(number: u64, fault: PointFault) -> LinesFault
    ensures line { fault ≢ PointFault.Memory → result ≡ LinesFault.Line number (TellingFault.Points fault) }
    ensures memory { fault ≡ PointFault.Memory → result ≡ LinesFault.Memory }
{
    match fault {
        PointFault::Memory => LinesFault::Memory,
        fault => LinesFault::Line {
            number,
            fault: TellingFault::Points(fault),
        },
    }
}

/// The events of the flit that a line states.
fn flit_pointed(
    alloc: Global,
    port: &mut PointedPort,
    flit: &Flit,
    number: u64,
) -> Result<Vec<Event>, LinesFault>
    ensures told { IfOk result (λ events. TellsBy (λ seen. stated_pointed seen (Ok (Stated.Flit flit.now))) port.old events.items port.new) }
    ensures fault { IfErr result (RefusesBy (λ seen. stated_pointed seen (Ok (Stated.Flit flit.now))) port.old number) }
    ensures failed { IfErr result (λ fault. fault ≢ LinesFault.Memory → port.new ≡ port.old) }
{
    match port.take_flit(alloc, flit) {
        Ok(events) => Ok(events),
        Err(fault) => Err(points_fault(number, fault)),
    }
}

/// The events of the point that a line states.
fn point_pointed(
    alloc: Global,
    port: &mut PointedPort,
    point: &Point,
    number: u64,
) -> Result<Vec<Event>, LinesFault>
    ensures told { IfOk result (λ events. TellsBy (λ seen. stated_pointed seen (Ok (Stated.Point point.now))) port.old events.items port.new) }
    ensures fault { IfErr result (RefusesBy (λ seen. stated_pointed seen (Ok (Stated.Point point.now))) port.old number) }
    ensures failed { IfErr result (λ fault. fault ≢ LinesFault.Memory → port.new ≡ port.old) }
{
    match port.take_point(alloc, point) {
        Ok(events) => Ok(events),
        Err(fault) => Err(points_fault(number, fault)),
    }
}

/// The events of an event of no request that is not early.
fn event_pointed(
    alloc: Global,
    port: &mut PointedPort,
    event: &Event,
    number: u64,
) -> Result<Vec<Event>, LinesFault>
    ensures told { IfOk result (λ events. TellsBy (λ seen. event_pointed seen event.now) port.old events.items port.new) }
    ensures fault { IfErr result (RefusesBy (λ seen. event_pointed seen event.now) port.old number) }
    ensures failed { IfErr result (λ fault. fault ≢ LinesFault.Memory → port.new ≡ port.old) }
{
    match port.take_event(alloc, event) {
        Ok(events) => Ok(events),
        Err(fault) => Err(points_fault(number, fault)),
    }
}

/// The events of an event.
fn other_pointed_by(
    alloc: Global,
    port: &mut PointedPort,
    event: &Event,
    number: u64,
) -> Result<Vec<Event>, LinesFault>
    ensures told { IfOk result (λ events. TellsBy (λ seen. other_pointed_by seen event.now) port.old events.items port.new) }
    ensures fault { IfErr result (RefusesBy (λ seen. other_pointed_by seen event.now) port.old number) }
    ensures failed { IfErr result (λ fault. fault ≢ LinesFault.Memory → port.new ≡ port.old) }
{
    if is_of_request(&event.kind) {
        return Err(LinesFault::Line {
            number,
            fault: TellingFault::OfRequest,
        });
    }
    if is_early(port, &event.kind) {
        return Ok(Vec::new(alloc));
    }
    event_pointed(alloc, port, event, number)
}

/// The events of a line that states neither a flit nor a point.
fn other_pointed(
    alloc: Global,
    scratch: &mut Scratch,
    port: &mut PointedPort,
    line: &[u8],
    number: u64,
) -> Result<Vec<Event>, LinesFault>
    ensures told { IfOk result (λ events. TellsBy (λ seen. other_pointed seen (event_text number line.now)) port.old events.items port.new) }
    ensures fault { IfErr result (RefusesBy (λ seen. other_pointed seen (event_text number line.now)) port.old number) }
    ensures failed { IfErr result (λ fault. fault ≢ LinesFault.Memory → port.new ≡ port.old) }
{
    let event = event_told(alloc, scratch, line, number)?;
    other_pointed_by(alloc, port, &event, number)
}

/// The events of what a line states.
fn stated_pointed(
    alloc: Global,
    port: &mut PointedPort,
    stated: &Stated,
    number: u64,
) -> Result<Vec<Event>, LinesFault>
    ensures told { IfOk result (λ events. TellsBy (λ seen. stated_pointed seen (Ok stated.now)) port.old events.items port.new) }
    ensures fault { IfErr result (RefusesBy (λ seen. stated_pointed seen (Ok stated.now)) port.old number) }
    ensures failed { IfErr result (λ fault. fault ≢ LinesFault.Memory → port.new ≡ port.old) }
{
    match stated {
        Stated::Flit(flit) => flit_pointed(alloc, port, flit, number),
        Stated::Point(point) => point_pointed(alloc, port, point, number),
    }
}

/// The events of a line among flits and points.
pub(crate) fn pointed_among(
    alloc: Global,
    scratch: &mut Scratch,
    port: &mut PointedPort,
    line: &[u8],
    number: u64,
) -> Result<Vec<Event>, LinesFault>
    ensures told { IfOk result (λ events. TellsBy (λ seen. pointed_among seen number line.now (stated_in number line.now)) port.old events.items port.new) }
    ensures fault { IfErr result (RefusesBy (λ seen. pointed_among seen number line.now (stated_in number line.now)) port.old number) }
    ensures failed { IfErr result (λ fault. fault ≢ LinesFault.Memory → port.new ≡ port.old) }
{
    match stated_in(alloc, scratch, line, number)? {
        None => other_pointed(alloc, scratch, port, line, number),
        Some(Ok(stated)) => stated_pointed(alloc, port, &stated, number),
        Some(Err(fault)) => Err(LinesFault::Line {
            number,
            fault: TellingFault::Flit(fault),
        }),
    }
}
