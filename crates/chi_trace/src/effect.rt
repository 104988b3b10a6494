//! An operation, applied to the word of its granule.

ghost use Rattle.std.specs.Prelude.{◌≡◌, ◌+◌, ◌^◌, ◌≤◌};
ghost use Rattle.chi_lanes.specs.After.{answer};
ghost use Rattle.chi_lanes.specs.Memory.{IsMemory, Memory, granule_start, word_at};
ghost use Rattle.chi_trace.specs.Granules.{next, with_word};

use crate::operation::Operation;
use chi_lanes::{Reply, apply};

/// The word that an operation leaves of its granule's word, and the reply that it gets at that word, whichever was seen.
///
/// ```
/// let (after, reply) = apply_operation(&op, word);
/// ```
pub fn apply_operation(op: &Operation, word: u64) -> (u64, Reply)
    requires { op.now.access.addr + op.now.access.len ≤ 2 ^ 52 }
    ensures word { result.0 ≡ next op.now word }
    ensures answered { result.1 ≡ answer op.now.access (with_word (granule_start op.now.access.addr) word) }
    ensures reply { (m : Memory) → IsMemory m → word ≡ word_at m (granule_start op.now.access.addr) → result.1 ≡ answer op.now.access m }
{
    // What is true of each access is known here once it is read.
    let _addr = op.access.addr();
    let (after, reply) = apply(word, &op.access);
    (after, reply)
}
