//! What the judge of a granule says of it, however much is kept of that.

ghost use Rattle.std.specs.Prelude.{◌≡◌, false, ℕ, List, IfOk, IfSome};
ghost use Rattle.chi_search.specs.Looks.{LookedAtLeast, LookedMore, LookedSome};
ghost use Rattle.chi_judge.specs.Explained.{IsAsFar};
ghost use Rattle.chi_judge.specs.Reaches.{IfUndecided, IsExplained, IsJudgeOf};
ghost use Rattle.chi_judge.specs.Standings.{IfExplained, IfUndecided as IfNotDecided, IfUnexplained, IsExplainable, IsInexplicable};
ghost use Rattle.chi_trace.specs.declared.operation.Operation.{Operation};
ghost use Rattle.chi_watch.specs.Reaching.{IsOfSomeTrace, ReachesBy};

use crate::kept::{Kept, KeptGranule};
use chi_judge::{Judge, Reach, Standing};
use chi_search::Progress;
use std::alloc::{AllocError, Global};

/// How far the operations that a judge was told can be explained.
fn reach_of_judge<P: Progress>(
    alloc: Global,
    judge: &Judge,
    budget: u64,
    progress: &mut P,
) -> Result<Reach, AllocError>
    ensures right { IfOk result (ReachesBy judge.now) }
    ensures undecided { IfOk result (λ reach. IfUndecided reach (IsOfSomeTrace judge.now → LookedAtLeast P.looked progress.old progress.new budget)) }
    ensures looked { IfOk result (λ _. LookedSome P.looked progress.old progress.new) }
{
    judge.reach(alloc, budget, progress)
}

impl KeptGranule {
    /// Whether the operations that were told of it can be explained, and leave the final word, where one was told.
    pub(crate) fn check<P: Progress>(
        &self,
        alloc: Global,
        final_word: Option<u64>,
        budget: u64,
        progress: &mut P,
    ) -> Result<Standing, AllocError>
        ensures explained { IfOk result (λ s. IfExplained s (IsExplainable self.now.judge final_word)) }
        ensures unexplained { IfOk result (λ s. IfUnexplained s (IsInexplicable self.now.judge final_word)) }
        ensures undecided { IfOk result (λ s. IfNotDecided s (LookedMore P.looked progress.old progress.new budget)) }
        ensures goes_on { IfOk result (λ s. IfNotDecided s (self.now.judge.is_stopped ≡ false)) }
        ensures looked { IfOk result (λ _. LookedSome P.looked progress.old progress.new) }
    {
        match &self.kept {
            Kept::Followed(followed) => followed.judge.check(alloc, final_word, budget, progress),
            Kept::Settled(settled) | Kept::Ended(settled) => Judge::of_settled(
                alloc, settled,
            )?.check(alloc, final_word, budget, progress),
        }
    }

    /// How far they can be explained.
    pub(crate) fn reach<P: Progress>(
        &self,
        alloc: Global,
        budget: u64,
        progress: &mut P,
    ) -> Result<Reach, AllocError>
        ensures right { IfOk result (ReachesBy self.now.judge) }
        ensures undecided { IfOk result (λ reach. IfUndecided reach (IsOfSomeTrace self.now.judge → LookedAtLeast P.looked progress.old progress.new budget)) }
        ensures looked { IfOk result (λ _. LookedSome P.looked progress.old progress.new) }
    {
        match &self.kept {
            Kept::Followed(followed) => reach_of_judge(alloc, &followed.judge, budget, progress),
            Kept::Settled(settled) | Kept::Ended(settled) => {
                let judge = Judge::of_settled(alloc, settled)?;
                reach_of_judge(alloc, &judge, budget, progress)
            }
        }
    }

    /// The latest time up to which they are seen to be explained.
    pub(crate) fn explained_to<P: Progress>(
        &self,
        alloc: Global,
        budget: u64,
        progress: &mut P,
    ) -> Result<Option<u64>, AllocError>
        requires goes_on { self.now.judge.is_stopped ≡ false }
        ensures explained { IfOk result (λ found. IfSome found (λ time. (trace : List Operation) (g w : ℕ) → IsJudgeOf trace g w self.now.judge → IsExplained time trace g w)) }
        ensures far { IfOk result (λ found. (trace : List Operation) (g w : ℕ) → IsJudgeOf trace g w self.now.judge → IsAsFar P.looked progress.old progress.new budget trace g w found) }
        ensures looked { IfOk result (λ _. LookedSome P.looked progress.old progress.new) }
    {
        match &self.kept {
            Kept::Followed(followed) => followed.judge.explained_to(alloc, budget, progress),
            Kept::Settled(settled) | Kept::Ended(settled) => Judge::of_settled(
                alloc, settled,
            )?.explained_to(alloc, budget, progress),
        }
    }
}
