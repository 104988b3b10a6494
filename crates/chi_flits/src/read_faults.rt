//! Why data from the home cannot come next, by what is known of their TxnID.

ghost use Rattle.std.specs.Prelude.{◌≡◌};
ghost use Rattle.chi_flits.specs.Faults.{answer_fault, answered_fault, has_part, lane_unknown, lanes_fault, read_fault, wrong_answer};

use crate::answer::is_error;
use crate::fault::{FlitFault, fault_if};
use crate::flit::{Chunk, DataFlit, RequestFlit};
use crate::lanes::chunk_at;
use crate::opcode::is_read_data;
use crate::transaction::Transaction;

/// Whether a flit has data of a request.
pub(crate) fn has_part(flit: &DataFlit, request: &RequestFlit) -> bool
    ensures { result ≡ has_part flit.now request.now }
{
    (0..request.count()).any(|operation| chunk_at(
        &flit.chunks,
        request.quarter_at(operation),
    ).is_some())
}

fn lane_unknown(request: &RequestFlit, operation: u8, chunk: &Chunk) -> bool
    ensures { result ≡ lane_unknown request.now operation chunk.now }
{
    chunk.unknown & request.lanes_at(operation) != 0
}

/// What is wrong with the data that a flit answers for one operation.
fn lanes_fault(
    flit: &DataFlit,
    transaction: &Transaction,
    operation: u8,
    chunk: &Chunk,
) -> Option<FlitFault>
    ensures { result ≡ lanes_fault flit.now transaction.now operation chunk.now }
{
    let request = &transaction.request;
    if transaction.is_answered(request.quarter_at(operation)) {
        return Some(FlitFault::OtherData);
    }
    let is_unknown = !is_error(flit.resp_err) && lane_unknown(request, operation, chunk);
    fault_if(is_unknown, FlitFault::UnknownLane)
}

/// The same, where the flit has data of it.
fn answered_fault(flit: &DataFlit, transaction: &Transaction, operation: u8) -> Option<FlitFault>
    ensures { result ≡ answered_fault flit.now transaction.now operation }
{
    let chunk = chunk_at(&flit.chunks, transaction.request.quarter_at(operation))?;
    lanes_fault(flit, transaction, operation, &chunk)
}

/// The first operation of which the data that a flit answers have a fault.
fn wrong_answer(flit: &DataFlit, transaction: &Transaction) -> Option<u8>
    ensures { result ≡ wrong_answer flit.now transaction.now }
{
    (0..transaction.request.count()).find(|operation| answered_fault(
        flit,
        transaction,
        *operation,
    ).is_some())
}

/// Why data cannot come to an open request.
fn answer_fault(flit: &DataFlit, transaction: &Transaction) -> Option<FlitFault>
    ensures { result ≡ answer_fault flit.now transaction.now }
{
    let request = &transaction.request;
    if !request.answers_data() {
        return Some(FlitFault::DataUnasked);
    }
    if transaction.is_completed {
        return Some(FlitFault::CompletedTwice);
    }
    if !has_part(flit, request) {
        return Some(FlitFault::OtherData);
    }
    let operation = wrong_answer(flit, transaction)?;
    answered_fault(flit, transaction, operation)
}

/// Why data from the home cannot come, by what is known of their TxnID.
pub(crate) fn read_fault(flit: &DataFlit, transaction: &Option<Transaction>) -> Option<FlitFault>
    ensures { result ≡ read_fault flit.now transaction.now }
{
    let Some(transaction) = transaction else {
        return fault_if(is_read_data(flit.opcode), FlitFault::NotOpen);
    };
    if !is_read_data(flit.opcode) || !transaction.request.is_told() {
        return None;
    }
    if transaction.is_over() {
        return Some(FlitFault::NotOpen);
    }
    answer_fault(flit, transaction)
}
