//! Why data to the home cannot come next, by what is known of their DBID.

ghost use Rattle.std.specs.Prelude.{◌≡◌};
ghost use Rattle.chi_flits.specs.Faults.{cancel_fault, chunk_fault, data_fault, enable_unknown, enabled_fault, is_part, parts_fault, sent_fault, sent_unknown, write_fault, wrong_sent};

use crate::fault::{FlitFault, fault_if};
use crate::flit::{Chunk, DataFlit, RequestFlit};
use crate::lanes::{are_whole, chunk_at, enables_at};
use crate::opcode::{is_cancel, is_write_data};
use crate::read_faults::has_part;
use crate::transfer::Transfer;

fn enable_unknown(request: &RequestFlit, operation: u8, chunk: &Chunk) -> bool
    ensures { result ≡ enable_unknown request.now operation chunk.now }
{
    enables_at(request, operation, chunk.unknown_be) != 0
}

fn sent_unknown(request: &RequestFlit, operation: u8, chunk: &Chunk) -> bool
    ensures { result ≡ sent_unknown request.now operation chunk.now }
{
    enables_at(request, operation, chunk.be) & chunk.unknown != 0
}

/// Whether a byte of WriteNoSnpFull is not enabled.
fn is_part(request: &RequestFlit, operation: u8, chunk: &Chunk) -> bool
    ensures { result ≡ is_part request.now operation chunk.now }
{
    request.opcode == 0x1d
        && enables_at(request, operation, chunk.be) != request.lanes_at(operation)
}

/// What is wrong with data that were not dropped.
fn enabled_fault(request: &RequestFlit, operation: u8, chunk: &Chunk) -> Option<FlitFault>
    ensures { result ≡ enabled_fault request.now operation chunk.now }
{
    if enable_unknown(request, operation, chunk) {
        return Some(FlitFault::UnknownEnable);
    }
    if sent_unknown(request, operation, chunk) {
        return Some(FlitFault::UnknownSent);
    }
    fault_if(is_part(request, operation, chunk), FlitFault::NotFull)
}

/// What is wrong with the data that a flit has of one operation.
fn chunk_fault(
    flit: &DataFlit,
    transfer: &Transfer,
    operation: u8,
    chunk: &Chunk,
) -> Option<FlitFault>
    ensures { result ≡ chunk_fault flit.now transfer.now operation chunk.now }
{
    let request = &transfer.request;
    if chunk_at(&transfer.chunks, request.quarter_at(operation)).is_some() {
        return Some(FlitFault::OtherData);
    }
    if flit.drops() {
        return None;
    }
    enabled_fault(request, operation, chunk)
}

/// The same, where the flit has data of it.
fn sent_fault(flit: &DataFlit, transfer: &Transfer, operation: u8) -> Option<FlitFault>
    ensures { result ≡ sent_fault flit.now transfer.now operation }
{
    let chunk = chunk_at(&flit.chunks, transfer.request.quarter_at(operation))?;
    chunk_fault(flit, transfer, operation, &chunk)
}

/// The first operation of which the data that a flit has have a fault.
fn wrong_sent(flit: &DataFlit, transfer: &Transfer) -> Option<u8>
    ensures { result ≡ wrong_sent flit.now transfer.now }
{
    (0..transfer.request.count()).find(|operation| sent_fault(flit, transfer, *operation).is_some())
}

/// The fault of the first operation that has one.
fn parts_fault(flit: &DataFlit, transfer: &Transfer) -> Option<FlitFault>
    ensures { result ≡ parts_fault flit.now transfer.now }
{
    let operation = wrong_sent(flit, transfer)?;
    sent_fault(flit, transfer, operation)
}

/// Why a request's data cannot be cancelled, or not be cancelled.
fn cancel_fault(flit: &DataFlit, transfer: &Transfer) -> Option<FlitFault>
    ensures { result ≡ cancel_fault flit.now transfer.now }
{
    if is_cancel(flit.opcode) && transfer.request.opcode != 0x1c {
        return Some(FlitFault::CancelsOther);
    }
    let is_mixed = if is_cancel(flit.opcode) {
        transfer.has_data
    } else {
        transfer.has_cancel
    };
    fault_if(is_mixed, FlitFault::CancelsSome)
}

/// Why data cannot come for a request that waits for some.
fn data_fault(flit: &DataFlit, transfer: &Transfer) -> Option<FlitFault>
    ensures { result ≡ data_fault flit.now transfer.now }
{
    if !has_part(flit, &transfer.request) {
        return Some(FlitFault::OtherData);
    }
    if let Some(fault) = cancel_fault(flit, transfer) {
        return Some(fault);
    }
    parts_fault(flit, transfer)
}

/// Why data to the home cannot come, by what is known of their DBID.
pub(crate) fn write_fault(flit: &DataFlit, transfer: &Option<Transfer>) -> Option<FlitFault>
    ensures { result ≡ write_fault flit.now transfer.now }
{
    let Some(transfer) = transfer else {
        return fault_if(is_write_data(flit.opcode), FlitFault::NotGiven);
    };
    if !is_write_data(flit.opcode) || !transfer.request.is_told() {
        return None;
    }
    if are_whole(&transfer.request, &transfer.chunks) {
        return Some(FlitFault::NotGiven);
    }
    data_fault(flit, transfer)
}
