//! A seat of a locked store.

use crate::rule::LinePass;
use chi_history::Numbers;

/// What a caller holds of a [`LockStore`](crate::LockStore): the numbers of some requesters, and the pass by
/// which their accesses are served. It is not copied.
#[derive(Drop)]
pub struct LockSeat {
    pub(crate) pass: LinePass,
    pub(crate) numbers: Numbers,
}
