//! The events that data to the home tell, by what is known of their DBID.

ghost use Rattle.std.specs.Prelude.{◌≡◌, ◌∷◌, Some, IfOk};
ghost use Rattle.chi_flits.specs.Told.{all_sent, dropped, sent_at, told_of_data, told_of_write, unknown_line};

use crate::answer::is_error;
use crate::flit::{Chunk, DataFlit, RequestFlit};
use crate::lanes::{are_whole, chunk_at, enables_at, only, with_chunks};
use crate::opcode::{is_cancel, is_write_data};
use crate::told_requests::{dropped, number_of, unknown_line};
use crate::transfer::Transfer;
use chi_events::{EventKind, Packet};
use std::alloc::{AllocError, Global};

/// The data of one operation, where they are there.
fn sent_at(
    request: &RequestFlit,
    place: u64,
    chunks: &[Option<Chunk>; 4],
    operation: u8,
) -> Option<EventKind>
    ensures { result ≡ sent_at request.now place chunks.now operation }
{
    let chunk = chunk_at(chunks, request.quarter_at(operation))?;
    let be = enables_at(request, operation, chunk.be);
    Some(EventKind::Data(Packet {
        id: number_of(place, operation),
        be,
        lanes: only(be, &chunk.lanes),
    }))
}

/// The data of each operation, where they are there.
fn all_sent(
    alloc: Global,
    request: &RequestFlit,
    place: u64,
    chunks: &[Option<Chunk>; 4],
) -> Result<Vec<EventKind>, AllocError>
    ensures { IfOk result (λ kinds. kinds.items ≡ all_sent request.now place chunks.now) }
{
    (0..request.count())
        .filter_map(|operation| sent_at(request, place, chunks, operation))
        .collect(alloc)
}

/// That something may have written to the line of a request, whose operations are told no further.
fn failed(alloc: Global, request: &RequestFlit, place: u64) -> Result<Vec<EventKind>, AllocError>
    ensures { IfOk result (λ kinds. kinds.items ≡ unknown_line request.now ∷ dropped request.now place) }
{
    let mut kinds = dropped(alloc, request, place)?;
    kinds.insert(0, unknown_line(request))?;
    Ok(kinds)
}

/// What data to the home tell of a request of which nothing was dropped.
fn told_of_data(
    alloc: Global,
    flit: &DataFlit,
    transfer: &Transfer,
) -> Result<Vec<EventKind>, AllocError>
    ensures { IfOk result (λ kinds. kinds.items ≡ told_of_data flit.now transfer.now) }
{
    let request = &transfer.request;
    if is_cancel(flit.opcode) {
        return dropped(alloc, request, transfer.place);
    }
    if is_error(flit.resp_err) {
        return failed(alloc, request, transfer.place);
    }
    let chunks = with_chunks(flit, &transfer.chunks);
    if are_whole(request, &chunks) {
        all_sent(alloc, request, transfer.place, &chunks)
    } else {
        Ok(Vec::new(alloc))
    }
}

/// What data to the home tell of a request.
pub(crate) fn told_of_write(
    alloc: Global,
    flit: &DataFlit,
    transfer: &Transfer,
) -> Result<Vec<EventKind>, AllocError>
    ensures { IfOk result (λ kinds. kinds.items ≡ told_of_write flit.now (Some transfer.now)) }
{
    if !transfer.request.is_told() || !is_write_data(flit.opcode) || transfer.is_dropped {
        return Ok(Vec::new(alloc));
    }
    told_of_data(alloc, flit, transfer)
}
