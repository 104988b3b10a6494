//! An operation at the word that it finds.

ghost use Rattle.std.specs.Prelude.{◌≡◌, ◌+◌, ◌^◌, ◌<◌, ◌≤◌, ◌↔◌, IsTrue, None, IfSome};
ghost use Rattle.chi_trace.specs.Granules.{Fits, next};
ghost use Rattle.chi_search.specs.Moves.{IsIdle};

use crate::effect::{operand_mask, word_in};
use chi_lanes::Reply;
use chi_trace::{Operation, apply_operation};

/// Whether two replies are the same.
pub(crate) fn is_same(reply: Reply, other: Reply) -> bool
    ensures { IsTrue result ↔ (reply ≡ other) }
{
    match (reply, other) {
        (Reply::Comp, Reply::Comp) => true,
        (Reply::CompData(lanes), Reply::CompData(others)) => lanes == others,
        _ => false,
    }
}

// Whether the reply has data that are seen not to be those of the word.
fn has_other_data(op: &Operation, word: u64) -> bool
    requires { op.now.access.addr + op.now.access.len ≤ 2 ^ 52 }
    ensures { IsTrue result → Fits op.now word → ⊥ }
{
    match op.reply {
        Some(reply) => match reply {
            Reply::CompData(lanes) => (word_in(op, &lanes) ^ word) & operand_mask(op) != 0,
            Reply::Comp => false,
        },
        None => false,
    }
}

/// The word that the operation leaves of a word, where its reply, if it was seen, is the one that the word gives.
///
/// ```
/// if let Some(after) = step(&op, word) {
///     word = after;
/// }
/// ```
pub fn step(op: &Operation, word: u64) -> Option<u64>
    requires { op.now.access.addr + op.now.access.len ≤ 2 ^ 52 }
    ensures fits { IfSome result (λ after. Fits op.now word) }
    ensures after { IfSome result (λ after. after ≡ next op.now word) }
    ensures unfit { result ≡ None → Fits op.now word → ⊥ }
{
    if has_other_data(op, word) {
        return None;
    }
    let (after, reply) = apply_operation(op, word);
    match op.reply {
        Some(seen) => {
            if is_same(seen, reply) {
                Some(after)
            } else {
                None
            }
        }
        None => Some(after),
    }
}

/// Whether the operation fits the word, and is seen to leave each word that it fits as it is.
pub(crate) fn stays(op: &Operation, word: u64) -> bool
    requires { op.now.access.addr + op.now.access.len ≤ 2 ^ 52 }
    ensures { IsTrue result → IsIdle op.now }
{
    // Only an operation with a reply that has data can be seen to change nothing.
    match op.reply {
        Some(Reply::CompData(_)) => match step(op, word) {
            Some(after) => is_idle(op, word, after),
            None => false,
        },
        _ => false,
    }
}

/// Whether the operation is seen to leave each word that it fits as it is: its reply has the old data, and one word that
/// it fits stays.
pub(crate) fn is_idle(op: &Operation, word: u64, after: u64) -> bool
    requires fits { Fits op.now word }
    requires after { after ≡ next op.now word }
    ensures { IsTrue result → IsIdle op.now }
{
    let _addr = op.access.addr();
    match op.reply {
        Some(reply) => match reply {
            Reply::CompData(_) => word == after,
            Reply::Comp => false,
        },
        None => false,
    }
}
