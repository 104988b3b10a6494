//! What is true of every event, since its numbers fit their types. Each function does nothing: its contract is for proofs.

ghost use Rattle.std.specs.Prelude.{◌^◌, ◌<◌};
ghost use Rattle.chi_trace.specs.RequestFields.{IsPacket};
ghost use Rattle.chi_events.specs.Outstanding.{HasPacket, HasWord, IsEvent};

use crate::event::{Event, EventKind};

/// Sixteen byte enables and sixteen bytes are a packet.
fn packet_fits(be: u16, lanes: [u8; 16])
    ensures { IsPacket be lanes }
{}

/// A word has 64 bits.
fn word_fits(word: u64)
    ensures { word < 2 ^ 64 }
{}

/// The packet of an event is one, and so is its word.
fn kind_fits(kind: EventKind)
    ensures packet { HasPacket kind }
    ensures word { HasWord kind }
{
    match kind {
        EventKind::Request(requested) => packet_fits(requested.fields.be, requested.fields.lanes),
        EventKind::Data(packet) => packet_fits(packet.be, packet.lanes),
        EventKind::Word(told) => word_fits(told.word),
        EventKind::Final(told) => word_fits(told.word),
        _ => {}
    }
}

/// The numbers of an event fit their types.
pub(crate) fn event_fits(event: &Event)
    ensures { IsEvent event.now }
{
    let _time = event.time;
    kind_fits(event.kind);
}
