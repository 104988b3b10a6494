//! A granule whose operations are settled: its word is all that is kept.

ghost use Rattle.std.specs.Prelude.{◌≡◌, ℕ, ◌+◌, ◌≤◌, ◌↔◌, ◌⊎◌, [], false, List, None, IfOk, IfSome};
ghost use Rattle.chi_trace.specs.declared.operation.Operation.{Operation};
ghost use Rattle.chi_search.specs.Looks.{LookedSome};
ghost use Rattle.chi_judge.specs.declared.settled.Settled.{Settled};
ghost use Rattle.chi_judge.specs.Judges.{Keeps};
ghost use Rattle.chi_judge.specs.Settled.{judge_of};

use crate::judge::{FEW, FIRST_LOOK, Judge};
use crate::settling::few_states_for;
use chi_search::{Frontier, Progress};
use std::alloc::{AllocError, Global};

/// A granule whose operations are settled: the word that they leave, the time before which no operation starts that is told later,
/// and the one before which none ends.
#[derive(Clone, Copy, Debug, PartialEq, Eq)]
pub struct Settled {
    pub word: u64,
    pub horizon: u64,
    pub latest: u64,
}

impl Judge {
    /// Looks at all that was told where it had ended before the horizon, however few that are, and keeps none of it where it can be
    /// explained and soon comes to few words. No operation that is told later starts before the horizon. `settle` is for a granule of
    /// which more is to come.
    ///
    /// ```
    /// judge.settle_all(alloc, now, &mut NoProgress)?;
    /// ```
    pub fn settle_all<P: Progress>(
        &mut self,
        alloc: Global,
        horizon: u64,
        progress: &mut P,
    ) -> Result<(), AllocError>
        ensures keeps { IfOk result (λ _. (words : List ℕ) (told : List Operation) (now : ℕ) → horizon ≤ now + 1 → Keeps words told now self.old → Keeps words told now self.new) }
        ensures horizon { IfOk result (λ _. (self.new.horizon ≤ horizon) ⊎ (self.new.horizon ≡ self.old.horizon)) }
        ensures latest { IfOk result (λ _. self.new.latest ≡ self.old.latest) }
        ensures shown { IfOk result (λ _. self.new.shown ≡ self.old.shown) }
        ensures looked { IfOk result (λ _. LookedSome P.looked progress.old progress.new) }
    {
        if self.is_stopped || self.latest >= horizon || horizon <= self.horizon {
            return Ok(());
        }
        let from_start = few_states_for(self.kept.len());
        self.move_on(alloc, horizon, true, from_start, progress)?;
        Ok(())
    }

    /// Whether operations are kept, or any are shown.
    fn keeps_some(&self) -> bool
        ensures { result ≡ false ↔ ((self.now.left ≡ []) × (self.now.shown ≡ 0) × (self.now.kept ≡ []) × (self.now.ahead ≡ []) × (self.now.seen ≡ 0)) }
    {
        self.shown > 0
            || self.seen > 0
            || !self.left.is_empty()
            || !self.kept.is_empty()
            || !self.ahead.is_empty()
    }

    /// What is left of the granule where all that was told leads to one word, nothing else is kept, and nothing is shown.
    ///
    /// ```
    /// if let Some(settled) = judge.settled(alloc)? {
    ///     granules.insert(granule, settled)?;
    /// }
    /// ```
    pub fn settled(&self, alloc: Global) -> Result<Option<Settled>, AllocError>
        ensures settled { IfOk result (λ found. IfSome found (λ s. self.now ≡ judge_of s)) }
        ensures none { IfOk result (λ found. found ≡ None → (s : Settled) → self.now ≡ judge_of s → ⊥) }
    {
        let Some(word) = self.word else {
            return Ok(None);
        };
        if self.keeps_some() || self.since != self.horizon || self.is_stopped {
            return Ok(None);
        }
        let (horizon, latest) = (self.horizon, self.latest);
        if !self.before.is_at_word(alloc, word, horizon, latest)? {
            return Ok(None);
        }
        Ok(Some(Settled {
            word,
            horizon,
            latest,
        }))
    }

    /// The judge of a granule whose operations are settled. Nothing is shown of it.
    ///
    /// ```
    /// let mut judge = Judge::of_settled(alloc, &settled)?;
    /// ```
    pub fn of_settled(alloc: Global, settled: &Settled) -> Result<Judge, AllocError>
        ensures { IfOk result (λ judge. judge ≡ judge_of settled.now) }
    {
        let Settled {
            word,
            horizon,
            latest,
        } = *settled;
        Ok(Judge {
            before: Frontier::at_word(alloc, word, horizon, latest)?,
            left: Vec::new(alloc),
            shown: 0,
            kept: Vec::new(alloc),
            word: Some(word),
            since: horizon,
            horizon,
            latest,
            is_stopped: false,
            ahead: Vec::new(alloc),
            seen: 0,
            next_look: FIRST_LOOK,
            is_behind: false,
            waits: false,
            limit: FEW,
        })
    }
}
