//! What a line tells, after the lines before it.

ghost use Rattle.std.specs.Prelude.{◌≡◌, ◌≢◌, ◌∷◌, [], IfErr, IfOk, Ok, map};
ghost use Rattle.chi_reading.specs.EventText.{event_text};
ghost use Rattle.chi_points.specs.PointedPort.{Follows, Seen, nothing_seen};
ghost use Rattle.chi_watch_text.specs.LineTold.{event_told, events_of_other, flit_told, is_early, is_of_request, line_told, other_told, stated_in, told_among};
ghost use Rattle.chi_watch_text.specs.Reading.{IsLineFault, RefusesBy, TellsBy};
ghost use Rattle.chi_watch_text.specs.declared.stated.Stated.{Stated};

use crate::fault::{LinesFault, TellingFault};
use crate::line_format::LineFormat;
use crate::line_stated::stated_in;
use crate::pointed_told::pointed_among;
use crate::stated::Stated;
use chi_events::{Event, EventKind};
use chi_flits::{Flit, FlitFault};
use chi_json::Scratch;
use chi_points::PointedPort;
use chi_reading::{LineFault, read_event};
use std::alloc::{AllocError, Global};

/// Whether an event is one of a request.
pub(crate) fn is_of_request(kind: &EventKind) -> bool
    ensures { result ≡ is_of_request kind.now }
{
    match kind {
        EventKind::Request(_)
        | EventKind::Data(_)
        | EventKind::Reply(_)
        | EventKind::Dropped { id: _ }
        | EventKind::Refused { id: _, reason: _ } => true,
        EventKind::Word(_)
        | EventKind::Final(_)
        | EventKind::Unknown { addr: _, length: _ }
        | EventKind::End => false,
    }
}

/// The event that the line with this number is.
pub(crate) fn event_told(
    alloc: Global,
    scratch: &mut Scratch,
    line: &[u8],
    number: u64,
) -> Result<Event, LinesFault>
    ensures told { IfOk result (λ event. event_text number line.now ≡ Ok event) }
    ensures fault { IfErr result (IsLineFault (event_told nothing_seen (event_text number line.now)) number) }
{
    match read_event(alloc, scratch, number, line) {
        Ok(event) => Ok(event),
        Err(LineFault::Memory) => Err(LinesFault::Memory),
        Err(fault) => Err(LinesFault::Line {
            number,
            fault: TellingFault::Event(fault),
        }),
    }
}

/// The one event of a line.
fn alone(alloc: Global, event: Event) -> Result<Vec<Event>, AllocError>
    ensures { IfOk result (λ events. events.items ≡ event ∷ []) }
{
    Vec::from_slice(alloc, &[event])
}

/// Events of one time.
fn at_time(alloc: Global, time: u64, kinds: &[EventKind]) -> Result<Vec<Event>, AllocError>
    ensures { IfOk result (λ events. events.items ≡ map (λ k. record { time = time; kind = k }) kinds.now) }
{
    kinds
        .iter()
        .map(|kind| Event { time, kind: *kind })
        .collect(alloc)
}

/// Whether an event is the word at the end of a granule at which an operation is outstanding.
pub(crate) fn is_early(port: &PointedPort, kind: &EventKind) -> bool
    ensures { (seen : Seen) → Follows seen port.now → result ≡ is_early seen.flits kind.now }
{
    match kind {
        EventKind::Final(told) => port.port.has_outstanding(told.granule),
        _ => false,
    }
}

/// The event of a line among flits that is one, unless it is early: then there is none.
fn events_of_other(
    alloc: Global,
    port: &PointedPort,
    event: Event,
) -> Result<Vec<Event>, AllocError>
    ensures { IfOk result (λ events. (seen : Seen) → Follows seen port.now → events.items ≡ events_of_other seen.flits event) }
{
    if is_early(port, &event.kind) {
        return Ok(Vec::new(alloc));
    }
    alone(alloc, event)
}

/// The events of a line among flits that states none.
fn other_told(
    alloc: Global,
    scratch: &mut Scratch,
    port: &PointedPort,
    line: &[u8],
    number: u64,
) -> Result<Vec<Event>, LinesFault>
    ensures told { IfOk result (λ events. TellsBy (λ seen. other_told seen (event_text number line.now)) port.now events.items port.now) }
    ensures fault { IfErr result (RefusesBy (λ seen. other_told seen (event_text number line.now)) port.now number) }
{
    let event = event_told(alloc, scratch, line, number)?;
    if is_of_request(&event.kind) {
        return Err(LinesFault::Line {
            number,
            fault: TellingFault::OfRequest,
        });
    }
    Ok(events_of_other(alloc, port, event)?)
}

/// The events of the flit that a line states.
fn flit_told(
    alloc: Global,
    port: &mut PointedPort,
    flit: &Flit,
    number: u64,
) -> Result<Vec<Event>, LinesFault>
    ensures told { IfOk result (λ events. TellsBy (λ seen. flit_told seen (Ok (Stated.Flit flit.now))) port.old events.items port.new) }
    ensures fault { IfErr result (RefusesBy (λ seen. flit_told seen (Ok (Stated.Flit flit.now))) port.old number) }
    ensures failed { IfErr result (λ fault. fault ≢ LinesFault.Memory → port.new ≡ port.old) }
{
    match port.port.take(alloc, flit) {
        Ok(kinds) => Ok(at_time(alloc, flit.time, &kinds)?),
        Err(FlitFault::Memory) => Err(LinesFault::Memory),
        Err(fault) => Err(LinesFault::Line {
            number,
            fault: TellingFault::Port(fault),
        }),
    }
}

/// The events of a line among flits.
fn told_among(
    alloc: Global,
    scratch: &mut Scratch,
    port: &mut PointedPort,
    line: &[u8],
    number: u64,
) -> Result<Vec<Event>, LinesFault>
    ensures told { IfOk result (λ events. TellsBy (λ seen. told_among seen number line.now (stated_in number line.now)) port.old events.items port.new) }
    ensures fault { IfErr result (RefusesBy (λ seen. told_among seen number line.now (stated_in number line.now)) port.old number) }
    ensures failed { IfErr result (λ fault. fault ≢ LinesFault.Memory → port.new ≡ port.old) }
{
    match stated_in(alloc, scratch, line, number)? {
        None => other_told(alloc, scratch, port, line, number),
        Some(Ok(Stated::Flit(flit))) => flit_told(alloc, port, &flit, number),
        Some(Ok(Stated::Point(_))) => Err(LinesFault::Line {
            number,
            fault: TellingFault::OfPoint,
        }),
        Some(Err(fault)) => Err(LinesFault::Line {
            number,
            fault: TellingFault::Flit(fault),
        }),
    }
}

/// The event of a line that is one. The port sees nothing.
fn told_alone(
    alloc: Global,
    scratch: &mut Scratch,
    port: &PointedPort,
    line: &[u8],
    number: u64,
) -> Result<Vec<Event>, LinesFault>
    ensures told { IfOk result (λ events. TellsBy (λ seen. event_told seen (event_text number line.now)) port.now events.items port.now) }
    ensures fault { IfErr result (RefusesBy (λ seen. event_told seen (event_text number line.now)) port.now number) }
{
    let event = event_told(alloc, scratch, line, number)?;
    Ok(alone(alloc, event)?)
}

/// The events that the line with this number tells, after what the port has seen.
#[tactic(auto, unfolding(crate::specs::LineTold::line_told))]
pub(crate) fn line_told(
    alloc: Global,
    scratch: &mut Scratch,
    format: LineFormat,
    port: &mut PointedPort,
    line: &[u8],
    number: u64,
) -> Result<Vec<Event>, LinesFault>
    ensures told { IfOk result (λ events. TellsBy (λ seen. line_told format seen number line.now) port.old events.items port.new) }
    ensures fault { IfErr result (RefusesBy (λ seen. line_told format seen number line.now) port.old number) }
    ensures failed { IfErr result (λ fault. fault ≢ LinesFault.Memory → port.new ≡ port.old) }
{
    match format {
        LineFormat::Events => told_alone(alloc, scratch, port, line, number),
        LineFormat::Flits { errors: _ } => told_among(alloc, scratch, port, line, number),
        LineFormat::PointedFlits { errors: _ } => pointed_among(alloc, scratch, port, line, number),
    }
}
