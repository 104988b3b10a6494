//! What the memory does when the operations of a trace are executed on it in an order.

ghost use Rattle.std.specs.Prelude.{◌≡◌, ℕ, true, All, IfOk};
ghost use Rattle.std.specs.BTreeMap.{get};
ghost use Rattle.std.specs.Ordering.{nat_cmp};
ghost use Rattle.chi_trace.specs.Explains.{is_place};
ghost use Rattle.chi_trace.specs.Executions.{replies_in, told_after};
ghost use Rattle.chi_trace.specs.Words.{find_word, memory_of};

use crate::effect::apply_operation;
use crate::trace::Trace;
use crate::words::GranuleWords;
use chi_lanes::Reply;
use std::alloc::{AllocError, Global};
use std::collections::BTreeMap;

/// What the memory did: its reply to each operation, in the order of their execution, and the words that it has after them, of
/// each granule of which one was told at the opening or that has an operation of the order.
#[derive(Debug, Drop)]
pub struct Executed {
    pub replies: Vec<Reply>,
    pub words: GranuleWords,
}

/// The words, by their granules.
fn by_granule(alloc: Global, words: &GranuleWords) -> Result<BTreeMap<u64, u64>, AllocError>
    ensures { IfOk result (λ map. (g : ℕ) → get nat_cmp map g ≡ find_word words.now g) }
{
    let mut map = BTreeMap::new(alloc);
    for told in words.as_slice() {
        map.insert(told.granule, told.word)?;
    }
    Ok(map)
}

/// Executes the operations in this order, one after the other, on the memory that has the words at the opening. Whether their
/// replies were seen does not count.
///
/// ```
/// let executed = execute(alloc, &trace, &order)?;
/// ```
pub fn execute(alloc: Global, trace: &Trace, order: &[usize]) -> Result<Executed, AllocError>
    requires { All (λ i. is_place trace.now.operations i ≡ true) order.now }
    ensures replies { IfOk result (λ executed. executed.replies.items ≡ replies_in trace.now.operations (memory_of trace.now.opening) order.now) }
    ensures words { IfOk result (λ executed. (g : ℕ) → find_word executed.words g ≡ told_after trace.now order.now g) }
{
    let ops = trace.operations();
    let mut words = by_granule(alloc, trace.opening())?;
    let mut replies = Vec::with_capacity(alloc, order.len())?;
    for place in order {
        let op = &ops[*place];
        let granule = op.granule();
        let before = words.get(&granule).copied().unwrap_or(0);
        let (after, reply) = apply_operation(op, before);
        words.insert(granule, after)?;
        replies.push(reply)?;
    }
    let words = GranuleWords::of_map(alloc, &words)?;
    Ok(Executed { replies, words })
}
