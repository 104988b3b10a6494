//! Points, as a monitor prints them.

/// That the request of a requester which holds this TxnID takes effect, and when that was seen: a count of one clock.
#[derive(Clone, Copy, Debug)]
pub struct Point {
    pub time: u64,
    pub src: u16,
    pub txn: u16,
}
