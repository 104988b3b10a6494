//! How far a granule's operations can be explained.

use chi_lanes::Reply;
use chi_search::Words;
use chi_trace::Operation;

/// Where a granule's operations stop being explained: the first time up to which no order explains them.
///
/// - `op`: an operation whose answer came at the time: the first of `suspects`, where there is one, and else that of the first
///   request.
/// - `suspects`: those whose answers came at the time, without the answer of each of which the granule's operations up to then can
///   be explained.
/// - `overlapping`: the granule's operations that were open at the time, or ended at it, in the order of their starts.
/// - `words`: those that the granule can hold up to the time before, where that was found. Where the time is 0 it is not.
/// - `before`: the last of the other operations that had ended by the time, in the order in which they were told.
/// - `order`: the last operations of an order that explains the granule's operations up to the time before, each as it was known by
///   then. There are none where the time is 0.
/// - `legal`: answers of the operation with which the granule's operations up to the time can be explained. Which are found is
///   not promised, only that each is one.
#[derive(Debug, Drop)]
pub struct Stop {
    pub time: u64,
    pub op: Operation,
    pub suspects: Vec<Operation>,
    pub overlapping: Vec<Operation>,
    pub words: Words,
    pub before: Vec<Operation>,
    pub order: Vec<Operation>,
    pub legal: Vec<Reply>,
}

/// How far a granule's operations can be explained.
///
/// - `Whole`: all of them can; these are the words that they can leave, each once, where that was found.
/// - `Stops`: only up to the time before this.
/// - `Undecided`: that was not found within the budget.
#[derive(Debug, Drop)]
pub enum Reach {
    Whole(Words),
    Stops(Stop),
    Undecided,
}
