//! The events that a request tells.

ghost use Rattle.std.specs.Prelude.{◌≡◌, IfOk};
ghost use Rattle.chi_flits.specs.Told.{dropped, number_of, requested, requested_at, told_of_request, unknown_line};

use crate::flit::RequestFlit;
use chi_events::{EventKind, Requested};
use std::alloc::{AllocError, Global};

/// The number of one of a request's operations.
pub(crate) fn number_of(place: u64, operation: u8) -> u64
    ensures { result ≡ number_of place operation }
{
    place.wrapping_mul(8).wrapping_add(u64::from(operation))
}

/// That each operation of a request took no effect.
pub(crate) fn dropped(
    alloc: Global,
    request: &RequestFlit,
    place: u64,
) -> Result<Vec<EventKind>, AllocError>
    ensures { IfOk result (λ kinds. kinds.items ≡ dropped request.now place) }
{
    (0..request.count())
        .map(|operation| EventKind::Dropped {
            id: number_of(place, operation),
        })
        .collect(alloc)
}

/// That something that is not told may have written to the line of a request.
pub(crate) fn unknown_line(request: &RequestFlit) -> EventKind
    ensures { result ≡ unknown_line request.now }
{
    EventKind::Unknown {
        addr: request.address() / 64 * 64,
        length: 64,
    }
}

/// One of a request's operations.
fn requested_at(request: &RequestFlit, place: u64, operation: u8) -> EventKind
    ensures { result ≡ requested_at request.now place operation }
{
    EventKind::Request(Requested {
        id: number_of(place, operation),
        fields: request.fields_at(operation),
        has_data: false,
    })
}

/// All of them.
fn requested(alloc: Global, request: &RequestFlit, place: u64) -> Result<Vec<EventKind>, AllocError>
    ensures { IfOk result (λ kinds. kinds.items ≡ requested request.now place) }
{
    (0..request.count())
        .map(|operation| requested_at(request, place, operation))
        .collect(alloc)
}

/// What a request tells.
pub(crate) fn told_of_request(
    alloc: Global,
    place: u64,
    request: &RequestFlit,
) -> Result<Vec<EventKind>, AllocError>
    ensures { IfOk result (λ kinds. kinds.items ≡ told_of_request place request.now) }
{
    if request.is_told() {
        requested(alloc, request, place)
    } else if request.may_write() {
        Vec::from_slice(alloc, &[unknown_line(request)])
    } else {
        Ok(Vec::new(alloc))
    }
}
