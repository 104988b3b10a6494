//! How far the operations that were told are seen to be explained, where that is not decided of all.

ghost use Rattle.std.specs.Prelude.{◌≡◌, ℕ, ◌<◌, ◌≤◌, List, false, length, IfOk, IfSome};
ghost use Rattle.chi_search.specs.Looks.{LookedSome};
ghost use Rattle.chi_trace.specs.Explains.{at, is_answered};
ghost use Rattle.chi_trace.specs.declared.operation.Operation.{Operation};
ghost use Rattle.chi_judge.specs.Explained.{IsAsFar};
ghost use Rattle.chi_judge.specs.Reaches.{IsExplained, IsJudgeOf};

use crate::judge::Judge;
use chi_search::Progress;
use chi_trace::Operation;
use chi_trace::laws::granules_stand_alone;
use std::alloc::{AllocError, Global};

/// How many operations there are up to the last that was answered.
fn answered_count(ops: &[Operation]) -> usize
    ensures within { result ≤ length ops.now }
    ensures others { (i : ℕ) → result ≤ i → i < length ops.now → is_answered (at ops.now i) ≡ false }
{
    let mut count = ops.len();
    while count > 0 && ops[count - 1].reply.is_none() {
        count -= 1;
    }
    count
}

impl Judge {
    /// The latest time up to which the operations that were told are seen to be explained: of the ends of those that are kept, up to
    /// the last that was answered, and of the time before these. A bisection tries the ends, each within so many states.
    ///
    /// ```
    /// let time = judge.explained_to(alloc, 1_000_000, &mut NoProgress)?;
    /// ```
    pub fn explained_to<P: Progress>(
        &self,
        alloc: Global,
        budget: u64,
        progress: &mut P,
    ) -> Result<Option<u64>, AllocError>
        requires goes_on { self.now.is_stopped ≡ false }
        ensures explained { IfOk result (λ found. IfSome found (λ time. (trace : List Operation) (g w : ℕ) → IsJudgeOf trace g w self.now → IsExplained time trace g w)) }
        ensures far { IfOk result (λ found. (trace : List Operation) (g w : ℕ) → IsJudgeOf trace g w self.now → IsAsFar P.looked progress.old progress.new budget trace g w found) }
        ensures looked { IfOk result (λ _. LookedSome P.looked progress.old progress.new) }
    {
        granules_stand_alone();
        let ops = Vec::from_slice(alloc, &self.kept)?;
        let count = answered_count(&ops);
        let place = self.first_place(alloc, &ops, count, false, budget, progress)?;
        if place == 0 {
            return Ok(self.since.checked_sub(1));
        }
        Ok(Some(ops[place - 1].end))
    }
}
