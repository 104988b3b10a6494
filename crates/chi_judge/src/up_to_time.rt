//! Up to which times the operations that are kept can be explained.

ghost use Rattle.std.specs.Prelude.{◌≡◌, ℕ, ◌+◌, ◌<◌, ◌≤◌, ◌⊎◌, List, None, true, false, length, IfOk, IfSome, IsTrue};
ghost use Rattle.chi_search.specs.Looks.{LookedAtLeast, LookedSome};
ghost use Rattle.chi_trace.specs.Cuts.{cut};
ghost use Rattle.chi_trace.specs.Explains.{at, is_answered};
ghost use Rattle.chi_trace.specs.declared.operation.Operation.{Operation};
ghost use Rattle.chi_judge.specs.Reaches.{EndAnOrder, IsExplained, IsJudgeOf};
ghost use Rattle.chi_judge.specs.Searches.{AreSeen, IsSeen};

use crate::judge::Judge;
use crate::search::{end_of_order_by, order_by};
use chi_search::{Found, Progress};
use chi_trace::Operation;
use chi_trace::laws::granules_stand_alone;
use std::alloc::{AllocError, Global};

impl Judge {
    /// Whether they are explained up to a time. It is as `undecided` says where so many states were looked at.
    pub(crate) fn is_explained<P: Progress>(
        &self,
        alloc: Global,
        ops: &[Operation],
        time: u64,
        undecided: bool,
        budget: u64,
        progress: &mut P,
    ) -> Result<bool, AllocError>
        requires kept { ops.now ≡ self.now.kept }
        ensures explained { IfOk result (λ is. IsTrue is → (trace : List Operation) (g w : ℕ) → IsJudgeOf trace g w self.now → IsSeen self.now time → IsExplained time trace g w ⊎ (IsTrue undecided × LookedAtLeast P.looked progress.old progress.new budget)) }
        ensures unexplained { IfOk result (λ is. is ≡ false → (trace : List Operation) (g w : ℕ) → IsJudgeOf trace g w self.now → IsSeen self.now time → (IsExplained time trace g w → ⊥) ⊎ ((undecided ≡ false) × LookedAtLeast P.looked progress.old progress.new budget)) }
        ensures looked { IfOk result (λ _. LookedSome P.looked progress.old progress.new) }
    {
        granules_stand_alone();
        match order_by(alloc, &self.before, ops, time, budget, progress)? {
            Found::Order(_) => Ok(true),
            Found::Nothing => Ok(false),
            Found::Undecided => Ok(undecided),
        }
    }

    /// Of the first so many, the place of the first up to whose end they are not explained, or how many these are where there is
    /// none. A search that looks at so many states counts as `undecided` says: as one that explains them, or not.
    pub(crate) fn first_place<P: Progress>(
        &self,
        alloc: Global,
        ops: &[Operation],
        count: usize,
        undecided: bool,
        budget: u64,
        progress: &mut P,
    ) -> Result<usize, AllocError>
        requires kept { ops.now ≡ self.now.kept }
        requires within { count ≤ length ops.now }
        requires seen { AreSeen self.now ops.now count }
        ensures within { IfOk result (λ place. place ≤ count) }
        ensures explained { IfOk result (λ place. (trace : List Operation) (g w : ℕ) → IsJudgeOf trace g w self.now → ((i : ℕ) → i + 1 ≡ place → IsExplained (at ops.now i).end trace g w) ⊎ (IsTrue undecided × LookedAtLeast P.looked progress.old progress.new budget)) }
        ensures unexplained { IfOk result (λ place. (trace : List Operation) (g w : ℕ) → IsJudgeOf trace g w self.now → place < count → (IsExplained (at ops.now place).end trace g w → ⊥) ⊎ ((undecided ≡ false) × LookedAtLeast P.looked progress.old progress.new budget)) }
        ensures looked { IfOk result (λ _. LookedSome P.looked progress.old progress.new) }
    {
        let mut low = 0;
        let mut high = count;
        while low < high {
            let middle = low + (high - low) / 2;
            if self.is_explained(alloc, ops, ops[middle].end, undecided, budget, progress)? {
                low = middle + 1;
            } else {
                high = middle;
            }
        }
        Ok(high)
    }

    /// The last operations of an order that explains them up to the time before, as many as are shown at most. There are none where
    /// there is no such time, and no answer where no order is found.
    pub(crate) fn end_of_order_before<P: Progress>(
        &self,
        alloc: Global,
        ops: &[Operation],
        time: u64,
        budget: u64,
        progress: &mut P,
    ) -> Result<Option<Vec<Operation>>, AllocError>
        requires kept { ops.now ≡ self.now.kept }
        ensures order { IfOk result (λ found. IfSome found (λ last. (earlier : ℕ) → earlier + 1 ≡ time → (trace : List Operation) (g w : ℕ) → IsJudgeOf trace g w self.now → IsSeen self.now earlier → EndAnOrder (cut earlier trace) g w last.items)) }
        ensures within { IfOk result (λ found. IfSome found (λ last. length last.items ≤ self.now.shown)) }
        ensures other { IfOk result (λ found. found ≡ None → (trace : List Operation) (g w : ℕ) → IsJudgeOf trace g w self.now → (earlier : ℕ) × (earlier + 1 ≡ time) × (IsSeen self.now earlier → (IsExplained earlier trace g w → ⊥) ⊎ LookedAtLeast P.looked progress.old progress.new budget)) }
        ensures looked { IfOk result (λ _. LookedSome P.looked progress.old progress.new) }
    {
        granules_stand_alone();
        if time == 0 {
            return Ok(Some(Vec::new(alloc)));
        }
        end_of_order_by(
            alloc,
            &self.before,
            ops,
            time - 1,
            self.shown,
            budget,
            progress,
        )
    }
}
