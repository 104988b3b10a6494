//! What is known of a TxnID.

use crate::flit::RequestFlit;

/// The request that took a TxnID last, and how many flits came before it; and what the home answered to it: a RetryAck, a DBID, a
/// completion without data, and data of which quarters of its line. `is_dropped` says that its data were cancelled, or in error.
#[derive(Clone, Copy, Debug)]
pub(crate) struct Transaction {
    pub request: RequestFlit,
    pub place: u64,
    pub is_retried: bool,
    pub has_dbid: bool,
    pub is_completed: bool,
    pub answered: [bool; 4],
    pub is_dropped: bool,
}
