//! The events that an answer of the home tells, by what is known of its TxnID.

ghost use Rattle.std.specs.Prelude.{◌≡◌, Some, IfOk};
ghost use Rattle.chi_flits.specs.Told.{answered, answered_at, completed, data_reply, replied, reply_without, told_of_read, told_of_response};

use crate::answer::is_error;
use crate::flit::{Chunk, DataFlit, RequestFlit, ResponseFlit};
use crate::lanes::{chunk_at, only};
use crate::opcode::{is_comp, is_read_data, is_response, is_retry};
use crate::told_requests::{dropped, number_of};
use crate::transaction::Transaction;
use chi_events::{Completion, EventKind};
use chi_lanes::Reply;
use std::alloc::{AllocError, Global};

/// The reply of a completion without data.
fn reply_without(resp_err: u8) -> Option<Reply>
    ensures { result ≡ reply_without resp_err }
{
    if is_error(resp_err) {
        None
    } else {
        Some(Reply::Comp)
    }
}

/// That each operation of a request has this reply.
fn replied(
    alloc: Global,
    request: &RequestFlit,
    place: u64,
    reply: Option<Reply>,
) -> Result<Vec<EventKind>, AllocError>
    ensures { IfOk result (λ kinds. kinds.items ≡ replied request.now place reply) }
{
    (0..request.count())
        .map(|operation| {
            EventKind::Reply(Completion {
                id: number_of(place, operation),
                reply,
            })
        })
        .collect(alloc)
}

/// That each operation of a request was completed without data.
fn completed(
    alloc: Global,
    response: &ResponseFlit,
    transaction: &Transaction,
) -> Result<Vec<EventKind>, AllocError>
    ensures { IfOk result (λ kinds. kinds.items ≡ completed response.now transaction.now) }
{
    if transaction.is_dropped {
        return Ok(Vec::new(alloc));
    }
    let reply = reply_without(response.resp_err);
    replied(alloc, &transaction.request, transaction.place, reply)
}

/// What a response tells of a request.
pub(crate) fn told_of_response(
    alloc: Global,
    response: &ResponseFlit,
    transaction: &Transaction,
) -> Result<Vec<EventKind>, AllocError>
    ensures { IfOk result (λ kinds. kinds.items ≡ told_of_response response.now (Some transaction.now)) }
{
    if !transaction.request.is_told() || !is_response(response.opcode) {
        return Ok(Vec::new(alloc));
    }
    if is_retry(response.opcode) {
        dropped(alloc, &transaction.request, transaction.place)
    } else if is_comp(response.opcode) {
        completed(alloc, response, transaction)
    } else {
        Ok(Vec::new(alloc))
    }
}

/// The reply of one operation that was completed by data.
fn data_reply(request: &RequestFlit, resp_err: u8, operation: u8, chunk: &Chunk) -> Option<Reply>
    ensures { result ≡ data_reply request.now resp_err operation chunk.now }
{
    if is_error(resp_err) {
        return None;
    }
    Some(Reply::CompData(only(request.lanes_at(operation), &chunk.lanes)))
}

/// That one operation was completed by data, where they are there.
fn answered_at(
    flit: &DataFlit,
    request: &RequestFlit,
    place: u64,
    operation: u8,
) -> Option<EventKind>
    ensures { result ≡ answered_at flit.now request.now place operation }
{
    let chunk = chunk_at(&flit.chunks, request.quarter_at(operation))?;
    Some(EventKind::Reply(Completion {
        id: number_of(place, operation),
        reply: data_reply(request, flit.resp_err, operation, &chunk),
    }))
}

/// That each operation whose data a flit has was completed by them.
fn answered(
    alloc: Global,
    flit: &DataFlit,
    request: &RequestFlit,
    place: u64,
) -> Result<Vec<EventKind>, AllocError>
    ensures { IfOk result (λ kinds. kinds.items ≡ answered flit.now request.now place) }
{
    (0..request.count())
        .filter_map(|operation| answered_at(flit, request, place, operation))
        .collect(alloc)
}

/// What data from the home tell of a request.
pub(crate) fn told_of_read(
    alloc: Global,
    flit: &DataFlit,
    transaction: &Transaction,
) -> Result<Vec<EventKind>, AllocError>
    ensures { IfOk result (λ kinds. kinds.items ≡ told_of_read flit.now (Some transaction.now)) }
{
    if !transaction.request.is_told() || !is_read_data(flit.opcode) || transaction.is_dropped {
        return Ok(Vec::new(alloc));
    }
    answered(alloc, flit, &transaction.request, transaction.place)
}
