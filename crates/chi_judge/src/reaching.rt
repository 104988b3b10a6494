//! How far the operations that are kept can be explained.

ghost use Rattle.std.specs.Prelude.{◌≡◌, ℕ, ◌+◌, ◌-◌, ◌<◌, ◌≤◌, ◌⊎◌, ◌↔◌, All, List, [], None, Some, true, false, length, slice_get, IfOk, IfSome, IsTrue};
ghost use Rattle.std.specs.List.{Contains};
ghost use Rattle.chi_search.specs.Found.{IfUnknown, IfWords};
ghost use Rattle.chi_search.specs.Looks.{LookedAtLeast, LookedMore, LookedSome};
ghost use Rattle.chi_trace.specs.Explains.{at, is_answered};
ghost use Rattle.chi_trace.specs.declared.operation.Operation.{Operation};
ghost use Rattle.chi_judge.specs.Judges.{GoesOn};
ghost use Rattle.chi_judge.specs.Legal.{IsAnsweredAt};
ghost use Rattle.chi_judge.specs.Reaches.{AreLast, IfStops, IfUndecided, IfWhole, IsExplained, IsJudgeOf, IsStop, MissesNone};
ghost use Rattle.chi_judge.specs.Searches.{AreSeen, AreWordsBy, IsSeen, IsUnexplained};
ghost use Rattle.chi_judge.specs.Shown.{IsOfFirstRequest};

use crate::forgetting::ended_before;
use crate::judge::Judge;
use crate::legal::legal_replies;
use crate::reach::{Reach, Stop};
use crate::search::{order_after, words_after, words_by};
use crate::shown::{answered_at, before_at, open_at};
use crate::suspects::suspects_at;
use chi_search::{Found, Progress, Words};
use chi_trace::laws::granules_stand_alone;
use chi_trace::{Operation, operations_at};
use std::alloc::{AllocError, Global};

/// The place of the operation that is blamed: of the first that may be the one whose answer is wrong, and where there is none of
/// the first that was answered at the time.
fn blamed_at(ops: &[Operation], suspects: &[usize], time: u64) -> Option<usize>
    requires within { All (λ i. i < length ops.now) suspects.now }
    requires suspects { All (IsAnsweredAt ops.now time) suspects.now }
    ensures within { IfSome result (λ place. place < length ops.now) }
    ensures answered { IfSome result (IsAnsweredAt ops.now time) }
    ensures first { IfSome (slice_get suspects.now 0) (λ place. result ≡ Some place) }
    ensures request { suspects.now ≡ [] → IfSome result (λ place. IsOfFirstRequest ops.now time (at ops.now place).number) }
    ensures none { result ≡ None → All (λ op. is_answered op ≡ true → op.end ≡ time → ⊥) ops.now }
{
    match suspects.first() {
        Some(place) => Some(*place),
        None => answered_at(ops, time),
    }
}

impl Judge {
    /// Each word that all of them can leave, which some order explains.
    fn whole<P: Progress>(
        &self,
        alloc: Global,
        ops: &[Operation],
        budget: u64,
        progress: &mut P,
    ) -> Result<Reach, AllocError>
        requires kept { ops.now ≡ self.now.kept }
        requires goes_on { self.now.is_stopped ≡ false }
        requires explained { GoesOn self.now.before self.now.kept }
        ensures whole { IfOk result (λ reach. IfWhole reach (λ words. (trace : List Operation) (g w : ℕ) → IsJudgeOf trace g w self.now → AreLast trace g w words)) }
        ensures stops { IfOk result (λ reach. IfStops reach (λ stop. ⊥)) }
        ensures undecided { IfOk result (λ reach. IfUndecided reach ⊥) }
        ensures looked { IfOk result (λ _. LookedSome P.looked progress.old progress.new) }
    {
        granules_stand_alone();
        let mut left = budget;
        let words = words_after(alloc, &self.before, ops, &mut left, progress)?;
        Ok(Reach::Whole(words))
    }

    /// The words that they can leave up to the time before, where there is one.
    fn words_before<P: Progress>(
        &self,
        alloc: Global,
        ops: &[Operation],
        time: u64,
        budget: u64,
        progress: &mut P,
    ) -> Result<Words, AllocError>
        requires kept { ops.now ≡ self.now.kept }
        ensures words { IfOk result (λ found. IfWords found (λ words. (earlier : ℕ) → earlier + 1 ≡ time → AreWordsBy self.now earlier words)) }
        ensures no_words { IfOk result (λ found. time ≡ 0 → IfWords found (λ words. ⊥)) }
        ensures unknown { IfOk result (λ found. IfUnknown found ((trace : List Operation) (g w : ℕ) → IsJudgeOf trace g w self.now → (time ≡ 0) ⊎ LookedAtLeast P.looked progress.old progress.new budget)) }
        ensures looked { IfOk result (λ _. LookedSome P.looked progress.old progress.new) }
    {
        granules_stand_alone();
        if time == 0 {
            return Ok(Words::Unknown);
        }
        let mut left = budget;
        words_by(alloc, &self.before, ops, time - 1, &mut left, progress)
    }

    /// What is said of the place of an operation up to whose end they are not explained.
    fn stop_at<P: Progress>(
        &self,
        alloc: Global,
        ops: &[Operation],
        place: usize,
        budget: u64,
        progress: &mut P,
    ) -> Result<Reach, AllocError>
        requires kept { ops.now ≡ self.now.kept }
        requires within { place < length ops.now }
        requires seen { AreSeen self.now ops.now (place + 1) }
        requires unexplained { IsUnexplained self.now (at ops.now place).end }
        ensures whole { IfOk result (λ reach. IfWhole reach (λ words. ⊥)) }
        ensures stops { IfOk result (λ reach. IfStops reach (λ stop. (trace : List Operation) (g w : ℕ) → IsJudgeOf trace g w self.now → IsStop trace g w self.now.shown stop)) }
        ensures all { IfOk result (λ reach. IfStops reach (λ stop. (trace : List Operation) (g w : ℕ) → IsJudgeOf trace g w self.now → MissesNone P.looked progress.old progress.new budget trace g w stop)) }
        ensures undecided { IfOk result (λ reach. IfUndecided reach ((trace : List Operation) (g w : ℕ) → IsJudgeOf trace g w self.now → ((i : ℕ) → i + 1 ≡ place → IsExplained (at ops.now i).end trace g w) → LookedAtLeast P.looked progress.old progress.new budget)) }
        ensures looked { IfOk result (λ _. LookedSome P.looked progress.old progress.new) }
    {
        granules_stand_alone();
        let time = ops[place].end;
        let Some(order) = self.end_of_order_before(alloc, ops, time, budget, progress)? else {
            return Ok(Reach::Undecided);
        };
        let suspects = suspects_at(alloc, &self.before, ops, time, budget, progress)?;
        let Some(blamed) = blamed_at(ops, &suspects, time) else {
            return Ok(Reach::Undecided);
        };
        let words = self.words_before(alloc, ops, time, budget, progress)?;
        let legal = legal_replies(
            alloc,
            &self.before,
            ops,
            time,
            blamed,
            &words,
            budget,
            progress,
        )?;
        Ok(Reach::Stops(Stop {
            time,
            op: ops[blamed],
            suspects: operations_at(alloc, ops, &suspects)?,
            overlapping: open_at(alloc, ops, time)?,
            words,
            before: before_at(alloc, self.shown, &self.left, ops, time, blamed)?,
            order,
            legal,
        }))
    }

    /// Where they stop being explained, within the first so many, up to the end of the last of which they are not.
    fn stop_within<P: Progress>(
        &self,
        alloc: Global,
        ops: &[Operation],
        count: usize,
        budget: u64,
        progress: &mut P,
    ) -> Result<Reach, AllocError>
        requires kept { ops.now ≡ self.now.kept }
        requires within { count ≤ length ops.now }
        requires seen { AreSeen self.now ops.now count }
        requires last { (trace : List Operation) (g w : ℕ) → IsJudgeOf trace g w self.now → (0 < count) × (IsExplained (at ops.now (count - 1)).end trace g w → ⊥) }
        ensures whole { IfOk result (λ reach. IfWhole reach (λ words. ⊥)) }
        ensures stops { IfOk result (λ reach. IfStops reach (λ stop. (trace : List Operation) (g w : ℕ) → IsJudgeOf trace g w self.now → IsStop trace g w self.now.shown stop)) }
        ensures all { IfOk result (λ reach. IfStops reach (λ stop. (trace : List Operation) (g w : ℕ) → IsJudgeOf trace g w self.now → MissesNone P.looked progress.old progress.new budget trace g w stop)) }
        ensures undecided { IfOk result (λ reach. IfUndecided reach ((trace : List Operation) (g w : ℕ) → IsJudgeOf trace g w self.now → LookedAtLeast P.looked progress.old progress.new budget)) }
        ensures looked { IfOk result (λ _. LookedSome P.looked progress.old progress.new) }
    {
        if count == 0 {
            return Ok(Reach::Undecided);
        }
        let place = self.first_place(alloc, ops, count - 1, true, budget, progress)?;
        self.stop_at(alloc, ops, place, budget, progress)
    }

    /// How far the operations that were told can be explained. `budget` is how many states may be looked at in each search.
    ///
    /// ```
    /// match judge.reach(alloc, 1_000_000, &mut NoProgress)? {
    ///     Reach::Whole(words) => goes_on_from(&words),
    ///     Reach::Stops(stop) => show(&stop),
    ///     Reach::Undecided => take_more_time(),
    /// }
    /// ```
    pub fn reach<P: Progress>(
        &self,
        alloc: Global,
        budget: u64,
        progress: &mut P,
    ) -> Result<Reach, AllocError>
        ensures whole { IfOk result (λ reach. IfWhole reach (λ words. (trace : List Operation) (g w : ℕ) → IsJudgeOf trace g w self.now → AreLast trace g w words)) }
        ensures stops { IfOk result (λ reach. IfStops reach (λ stop. (trace : List Operation) (g w : ℕ) → IsJudgeOf trace g w self.now → IsStop trace g w self.now.shown stop)) }
        ensures all { IfOk result (λ reach. IfStops reach (λ stop. (trace : List Operation) (g w : ℕ) → IsJudgeOf trace g w self.now → MissesNone P.looked progress.old progress.new budget trace g w stop)) }
        ensures undecided { IfOk result (λ reach. IfUndecided reach ((trace : List Operation) (g w : ℕ) → IsJudgeOf trace g w self.now → LookedAtLeast P.looked progress.old progress.new budget)) }
        ensures looked { IfOk result (λ _. LookedSome P.looked progress.old progress.new) }
    {
        granules_stand_alone();
        let ops = Vec::from_slice(alloc, &self.kept)?;
        if self.is_stopped {
            let count = ended_before(&ops, self.horizon);
            return self.stop_within(alloc, &ops, count, budget, progress);
        }
        match order_after(alloc, &self.before, &ops, budget, progress)? {
            Found::Order(_) => self.whole(alloc, &ops, budget, progress),
            Found::Nothing => self.stop_within(alloc, &ops, ops.len(), budget, progress),
            Found::Undecided => Ok(Reach::Undecided),
        }
    }
}
