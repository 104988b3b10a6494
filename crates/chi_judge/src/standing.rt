//! Whether the operations that were told can be explained.

ghost use Rattle.std.specs.Prelude.{◌≡◌, ◌-◌, ◌≤◌, false, IfOk, IsTrue};
ghost use Rattle.chi_trace.specs.AtPlaces.{GranulesStandAlone};
ghost use Rattle.chi_search.specs.Looks.{LookedMore, LookedSome};
ghost use Rattle.chi_judge.specs.Standings.{IfExplained, IfUndecided, IfUnexplained, IsExplainable, IsInexplicable};

use crate::judge::Judge;
use crate::search::told_after;
use crate::settling::few_states_for;
use chi_search::{Found, Progress};
use chi_trace::laws::granules_stand_alone;
use std::alloc::{AllocError, Global};

/// How many times as many states are looked at there as at a look.
const MORE: u64 = 4;

/// Whether a granule's operations can be explained.
#[derive(Clone, Copy, Debug, PartialEq, Eq)]
pub enum Standing {
    Explained,
    Unexplained,
    Undecided,
}

impl Judge {
    // Whether an order of all that was told is soon found from where the last one stands.
    fn goes_on<P: Progress>(
        &self,
        alloc: Global,
        final_word: Option<u64>,
        budget: &mut u64,
        progress: &mut P,
    ) -> Result<bool, AllocError>
        requires goes_on { self.now.is_stopped ≡ false }
        ensures explained { GranulesStandAlone → IfOk result (λ is. IsTrue is → IsExplainable self.now final_word) }
        ensures spends { IfOk result (λ _. (budget.new ≤ budget.old) × LookedMore P.looked progress.old progress.new (budget.old - budget.new)) }
    {
        let count = self.ahead.len();
        if count == 0 {
            return Ok(false);
        }
        let Some(more) = self.kept.get(self.seen..) else {
            return Ok(false);
        };
        let last = &self.ahead[count - 1];
        let Some(after) = told_after(alloc, last, more)? else {
            return Ok(false);
        };
        let short = few_states_for(self.kept.len())
            .saturating_mul(MORE)
            .min(*budget);
        let mut left = short;
        let found = after.order(alloc, final_word, &mut left, progress)?;
        *budget -= short - left;
        match found {
            Found::Order(_) => Ok(true),
            Found::Nothing => Ok(false),
            Found::Undecided => Ok(false),
        }
    }

    /// Whether the operations that were told can be explained, and leave the final word, where one was told. Undecided where so many
    /// states as the budget were looked at.
    ///
    /// ```
    /// match judge.check(alloc, Some(0x2a), 1_000_000, &mut NoProgress)? {
    ///     Standing::Explained => goes_on(),
    ///     Standing::Unexplained => blame(),
    ///     Standing::Undecided => take_more_time(),
    /// }
    /// ```
    pub fn check<P: Progress>(
        &self,
        alloc: Global,
        final_word: Option<u64>,
        budget: u64,
        progress: &mut P,
    ) -> Result<Standing, AllocError>
        ensures explained { IfOk result (λ s. IfExplained s (IsExplainable self.now final_word)) }
        ensures unexplained { IfOk result (λ s. IfUnexplained s (IsInexplicable self.now final_word)) }
        ensures undecided { IfOk result (λ s. IfUndecided s (LookedMore P.looked progress.old progress.new budget)) }
        ensures goes_on { IfOk result (λ s. IfUndecided s (self.now.is_stopped ≡ false)) }
        ensures looked { IfOk result (λ _. LookedSome P.looked progress.old progress.new) }
    {
        granules_stand_alone();
        if self.is_stopped {
            return Ok(Standing::Unexplained);
        }
        if self.leads_to(final_word) {
            return Ok(Standing::Explained);
        }
        let mut left = budget;
        if self.goes_on(alloc, final_word, &mut left, progress)? {
            return Ok(Standing::Explained);
        }
        let Some(after) = told_after(alloc, &self.before, &self.kept)? else {
            return Ok(Standing::Undecided);
        };
        match after.order(alloc, final_word, &mut left, progress)? {
            Found::Order(_) => Ok(Standing::Explained),
            Found::Nothing => Ok(Standing::Unexplained),
            Found::Undecided => Ok(Standing::Undecided),
        }
    }

    /// Whether what was told is known not to be explained.
    ///
    /// ```
    /// let is_wrong = judge.is_stopped();
    /// ```
    pub fn is_stopped(&self) -> bool
        ensures { result ≡ self.now.is_stopped }
    {
        self.is_stopped
    }
}
