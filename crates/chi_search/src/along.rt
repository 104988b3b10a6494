//! The word that operations leave, one after the other.

ghost use Rattle.std.specs.Prelude.{◌≡◌, ℕ, ◌<◌, All, IfOk, IfSome, None, length};
ghost use Rattle.chi_trace.specs.Granules.{Play, last_word};
ghost use Rattle.chi_search.specs.Frontiers.{LeavesAlong};
ghost use Rattle.chi_search.specs.Searchable.{AreWithin};

use crate::at_word::step;
use crate::frontier::Frontier;
use crate::state::first_state;
use crate::states::{count, read};
use chi_trace::Operation;
use std::alloc::{AllocError, Global};

// The word that the operations at these places leave of a word, one after the other, where each fits the word that it finds.
fn played(ops: &[Operation], word: u64, order: &[usize]) -> Option<u64>
    requires { AreWithin ops.now }
    ensures leaves { IfSome result (λ left. Play ops.now word order.now × (last_word ops.now word order.now ≡ left)) }
    ensures unfit { result ≡ None → All (λ i. i < length ops.now) order.now → Play ops.now word order.now → ⊥ }
{
    let mut left = word;
    for place in order {
        if *place >= ops.len() {
            return None;
        }
        left = step(&ops[*place], left)?;
    }
    Some(left)
}

impl Frontier {
    /// The word that the operations at these places, of those that it keeps, leave one after the other: from the first of its positions
    /// from which each fits the word that it finds. There is none where they fit from no position.
    ///
    /// ```
    /// if let Some(word) = frontier.word_along(alloc, &order[..place])? {
    ///     show(word);
    /// }
    /// ```
    pub fn word_along(&self, alloc: Global, order: &[usize]) -> Result<Option<u64>, AllocError>
        ensures leaves { IfOk result (λ found. IfSome found (LeavesAlong self.now order.now)) }
        ensures none { IfOk result (λ found. found ≡ None → All (λ i. i < length self.now.operations) order.now → (v : ℕ) → LeavesAlong self.now order.now v → ⊥) }
    {
        let mut state = first_state(alloc, 0);
        for place in 0..count(&self.states) {
            read(&self.states, place, &mut state)?;
            if let Some(left) = played(&self.operations, state.word, order) {
                return Ok(Some(left));
            }
        }
        Ok(None)
    }
}
