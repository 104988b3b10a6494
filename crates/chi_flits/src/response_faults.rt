//! Why a request or a response cannot come next, by what is known of its TxnID and its DBID.

ghost use Rattle.std.specs.Prelude.{◌≡◌};
ghost use Rattle.chi_flits.specs.Faults.{comp_fault, dbid_fault, held_fault, is_held, open_fault, request_fault, response_fault};

use crate::answer::is_error;
use crate::fault::{FlitFault, fault_if};
use crate::flit::{RequestFlit, ResponseFlit};
use crate::lanes::are_whole;
use crate::opcode::{gives_dbid, is_comp, is_response, is_retry, takes_txn};
use crate::transaction::Transaction;
use crate::transfer::Transfer;

/// Why a request cannot take a TxnID of which this is known.
pub(crate) fn request_fault(
    request: &RequestFlit,
    transaction: &Option<Transaction>,
) -> Option<FlitFault>
    ensures { result ≡ request_fault request.now transaction.now }
{
    let held = transaction.as_ref()?;
    let is_taken = takes_txn(request.opcode) && held.request.is_told() && !held.is_over();
    fault_if(is_taken, FlitFault::TakesOpen)
}

/// Whether data are still to come by a DBID.
pub(crate) fn is_held(transfer: &Transfer) -> bool
    ensures { result ≡ is_held transfer.now }
{
    transfer.request.is_told() && !are_whole(&transfer.request, &transfer.chunks)
}

/// Why a DBID of which this is known cannot be given.
fn held_fault(held: &Option<Transfer>) -> Option<FlitFault>
    ensures { result ≡ held_fault held.now }
{
    let transfer = held.as_ref()?;
    fault_if(is_held(transfer), FlitFault::DbidTaken)
}

/// Why it cannot be given to a request that is told.
fn dbid_fault(transaction: &Transaction, held: &Option<Transfer>) -> Option<FlitFault>
    ensures { result ≡ dbid_fault transaction.now held.now }
{
    if transaction.has_dbid || !transaction.request.needs_data() {
        return Some(FlitFault::SecondDbid);
    }
    held_fault(held)
}

/// Why a request cannot be completed without data.
fn comp_fault(response: &ResponseFlit, transaction: &Transaction) -> Option<FlitFault>
    ensures { result ≡ comp_fault response.now transaction.now }
{
    if transaction.is_completed || transaction.has_answers() {
        return Some(FlitFault::CompletedTwice);
    }
    let wants_data = transaction.request.answers_data() && !is_error(response.resp_err);
    fault_if(wants_data, FlitFault::NoData)
}

/// Why a response cannot come to an open request.
fn open_fault(
    response: &ResponseFlit,
    transaction: &Transaction,
    held: &Option<Transfer>,
) -> Option<FlitFault>
    ensures { result ≡ open_fault response.now transaction.now held.now }
{
    if is_retry(response.opcode) {
        let is_late = transaction.has_dbid || transaction.is_completed || transaction.has_answers();
        return fault_if(is_late, FlitFault::RetryLate);
    }
    if gives_dbid(response.opcode) {
        if let Some(fault) = dbid_fault(transaction, held) {
            return Some(fault);
        }
    }
    if is_comp(response.opcode) {
        comp_fault(response, transaction)
    } else {
        None
    }
}

/// Why a response cannot come, by what is known of its TxnID and of its DBID.
pub(crate) fn response_fault(
    response: &ResponseFlit,
    transaction: &Option<Transaction>,
    held: &Option<Transfer>,
) -> Option<FlitFault>
    ensures { result ≡ response_fault response.now transaction.now held.now }
{
    let Some(transaction) = transaction else {
        return fault_if(is_response(response.opcode), FlitFault::NotOpen);
    };
    if !is_response(response.opcode) {
        return None;
    }
    if !transaction.request.is_told() {
        return if gives_dbid(response.opcode) {
            held_fault(held)
        } else {
            None
        };
    }
    if transaction.is_over() {
        return Some(FlitFault::NotOpen);
    }
    open_fault(response, transaction, held)
}
