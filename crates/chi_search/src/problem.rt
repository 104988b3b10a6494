//! The problem that a search of one granule solves.

use crate::earliest::EarliestStarts;
use crate::effect::Effect;
use chi_trace::Operation;

/// The operations of one granule, in the order of their ends, and its word at the end where that was observed. `effects` has what
/// is known of each operation, or is empty, and `earliest` the earliest starts.
#[derive(Clone, Copy)]
pub(crate) struct Problem<'a> {
    pub ops: &'a [Operation],
    pub final_word: Option<u64>,
    pub effects: &'a [Effect],
    pub earliest: &'a EarliestStarts,
}
