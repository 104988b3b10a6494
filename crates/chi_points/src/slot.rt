//! What waits to be told.

use chi_events::{Event, EventKind};

/// What a flit told of the request with this place, of which not all is told yet.
#[derive(Clone, Copy, Debug)]
pub struct Noted {
    pub(crate) place: u64,
    pub(crate) kind: EventKind,
}

/// The point of the request with this place.
#[derive(Clone, Copy, Debug)]
pub struct Pointed {
    pub(crate) time: u64,
    pub(crate) place: u64,
}

/// What is told in its order.
///
/// - `Alone`: an event of no request.
/// - `Pointed`: a request, at its point.
#[derive(Clone, Copy, Debug)]
pub enum Slot {
    Alone(Event),
    Pointed(Pointed),
}
