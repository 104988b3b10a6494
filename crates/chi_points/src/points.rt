//! What waits to be told in the order of points.

ghost use Rattle.std.specs.Prelude.{◌≡◌};
ghost use Rattle.chi_points.specs.Points.{has_point, is_noted, is_point_of, nothing_waits, waits_for_point};

use crate::slot::{Noted, Slot};
use std::alloc::Global;
use std::marker::Model;

/// What waits to be told: what is told next, in its order; what was told of requests of which not all is told yet; the time of the
/// last line; and whether that told the end.
#[derive(Drop)]
pub struct Points {
    pub(crate) slots: Vec<Slot>,
    pub(crate) noted: Vec<Noted>,
    pub(crate) time: u64,
    pub(crate) is_ended: bool,
}

impl Model for Points {
    ghost use Rattle.chi_points.specs.Points.{PointsValue};

    ghost Value = { PointsValue };

    ghost view = { λ p. record { slots = p.slots.items; noted = p.noted.items; time = p.time; is_ended = p.is_ended } };
}

/// Whether this is the point of the request with a place.
fn is_point_of(slot: &Slot, place: u64) -> bool
    ensures { result ≡ is_point_of place slot.now }
{
    match slot {
        Slot::Alone(_) => false,
        Slot::Pointed(pointed) => pointed.place == place,
    }
}

/// Whether the request with a place has its point among these.
pub(crate) fn has_point(slots: &[Slot], place: u64) -> bool
    ensures { result ≡ has_point slots.now place }
{
    slots.iter().any(|slot| is_point_of(slot, place))
}

/// Whether something was told of the request with a place.
fn is_noted(noted: &[Noted], place: u64) -> bool
    ensures { result ≡ is_noted noted.now place }
{
    noted.iter().any(|it| it.place == place)
}

impl Points {
    /// That nothing waits.
    pub(crate) fn new(alloc: Global) -> Points
        ensures { result ≡ nothing_waits }
    {
        Points {
            slots: Vec::new(alloc),
            noted: Vec::new(alloc),
            time: 0,
            is_ended: false,
        }
    }

    /// Whether the request with a place waits for its point.
    pub(crate) fn waits_for_point(&self, place: u64) -> bool
        ensures { result ≡ waits_for_point self.now place }
    {
        is_noted(&self.noted, place) && !has_point(&self.slots, place)
    }
}
