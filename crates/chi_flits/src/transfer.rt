//! What is known of a DBID.

use crate::flit::{Chunk, RequestFlit};

/// The request to which a DBID was given last, and how many flits came before it; and its data that came: at each quarter of its
/// line, and whether there were some that were cancelled, some that were not, and some that write nothing, since they were cancelled
/// or in error.
#[derive(Clone, Copy, Debug)]
pub(crate) struct Transfer {
    pub request: RequestFlit,
    pub place: u64,
    pub chunks: [Option<Chunk>; 4],
    pub has_cancel: bool,
    pub has_data: bool,
    pub is_dropped: bool,
}
