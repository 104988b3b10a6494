//! What the engines let a caller choose: the store, its tries, what requesters do after RetryAck, and how many race.

use crate::workers::Workers;
use chi_requester::Policy;

/// The store that serves the requests: one cache line in a cell under a lock, which never answers by RetryAck, or a
/// row of granule words without one. There `attempts` is how many tries a request gets before it is answered by
/// RetryAck: 1 to 16, and with another number the store is not opened.
#[derive(Clone, Copy, Debug, PartialEq, Eq)]
pub enum Store {
    Lock,
    Book { attempts: u8 },
}

/// How a script is executed. A run ignores `workers`.
#[derive(Clone, Copy, Debug, PartialEq, Eq)]
pub struct Options {
    pub store: Store,
    pub policy: Policy,
    pub workers: Workers,
}
