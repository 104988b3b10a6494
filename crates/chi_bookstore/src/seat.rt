//! What callers of the lock-free home hold.

use crate::rule::TableSeat;
use chi_history::Numbers;

/// A seat at a `BookStore`: it holds the numbers of some requesters. It is never copied.
#[derive(Drop)]
pub struct BookSeat {
    pub(crate) table_seat: TableSeat,
    pub(crate) numbers: Numbers,
}
