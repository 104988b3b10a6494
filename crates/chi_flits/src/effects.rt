//! What a flit changes of what is known of its TxnID or its DBID.

ghost use Rattle.std.specs.Prelude.{◌≡◌, Some};
ghost use Rattle.chi_flits.specs.declared.flit.FlitKind.{FlitKind};
ghost use Rattle.chi_flits.specs.Effects.{begun, is_of, opened, with_answer, with_write};
ghost use Rattle.chi_flits.specs.Answers.{key};

use crate::flit::{DataFlit, RequestFlit, ResponseFlit};
use crate::lanes::with_chunks;
use crate::opcode::{gives_dbid, is_cancel, is_comp, is_retry};
use crate::transaction::Transaction;
use crate::transfer::Transfer;

/// A request that took its TxnID, to which nothing was answered.
pub(crate) fn opened(place: u64, request: &RequestFlit) -> Transaction
    ensures { result ≡ opened place request.now }
{
    Transaction {
        request: *request,
        place,
        is_retried: false,
        has_dbid: false,
        is_completed: false,
        answered: [false; 4],
        is_dropped: false,
    }
}

/// A request that was given a DBID, of which no data came.
pub(crate) fn begun(transaction: &Transaction) -> Transfer
    ensures { result ≡ begun transaction.now }
{
    Transfer {
        request: transaction.request,
        place: transaction.place,
        chunks: [None; 4],
        has_cancel: false,
        has_data: false,
        is_dropped: false,
    }
}

/// With a response more.
pub(crate) fn with_response(transaction: &Transaction, response: &ResponseFlit) -> Transaction
    ensures { result ≡ with_answer (FlitKind.Response response.now) transaction.now }
{
    Transaction {
        is_retried: is_retry(response.opcode) || transaction.is_retried,
        has_dbid: gives_dbid(response.opcode) || transaction.has_dbid,
        is_completed: is_comp(response.opcode) || transaction.is_completed,
        ..*transaction
    }
}

/// With data from the home more.
pub(crate) fn with_read(transaction: &Transaction, flit: &DataFlit) -> Transaction
    ensures { result ≡ with_answer (FlitKind.ReadData flit.now) transaction.now }
{
    Transaction {
        answered: [
            flit.chunks[0].is_some() || transaction.answered[0],
            flit.chunks[1].is_some() || transaction.answered[1],
            flit.chunks[2].is_some() || transaction.answered[2],
            flit.chunks[3].is_some() || transaction.answered[3],
        ],
        ..*transaction
    }
}

/// With data to the home more.
pub(crate) fn with_write(transfer: &Transfer, flit: &DataFlit) -> Transfer
    ensures { result ≡ with_write flit.now transfer.now }
{
    Transfer {
        chunks: with_chunks(flit, &transfer.chunks),
        has_cancel: is_cancel(flit.opcode) || transfer.has_cancel,
        has_data: !is_cancel(flit.opcode) || transfer.has_data,
        is_dropped: flit.drops() || transfer.is_dropped,
        ..*transfer
    }
}

/// Whether data are of a request that holds a TxnID.
pub(crate) fn is_of(transaction: &Transaction, transfer: &Transfer) -> bool
    ensures { result ≡ is_of (key transfer.now.request.src transfer.now.request.txn) transaction.now (Some transfer.now) }
{
    transfer.place == transaction.place
}
