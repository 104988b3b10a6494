//! A look at what can be explained, while operations are told.

ghost use Rattle.std.specs.Prelude.{◌≡◌, ℕ, ◌+◌, ◌≤◌, ◌<◌, ◌⊎◌, false, List, IfOk, IsTrue, length};
ghost use Rattle.chi_trace.specs.declared.operation.Operation.{Operation};
ghost use Rattle.chi_search.specs.Looks.{LookedSome};
ghost use Rattle.chi_judge.specs.Judges.{IsNextHorizon, Keeps};

use crate::ahead::{each_told, found_along, keep_along};
use crate::judge::{FEW, FIRST_LOOK, Judge};
use chi_search::{Found, Progress};
use std::alloc::{AllocError, Global};

/// From how many operations more on it looks again, where an order goes on from the last one, or may do so then.
const MORE: usize = 64;

/// With how many that are kept it is taken that some are always open.
const SOME: usize = 8;

/// How many operations more are kept then before it tries again to keep fewer.
const MANY: usize = 128;

/// From which part of those that are kept on, where none does and that is more.
const PART: usize = 4;

/// How many states may be looked at from where an order stands, where few operations are kept.
const FEW_STATES: u64 = 4096;

/// How many for each operation, where many are.
const FEW_STATES_EACH: u64 = 8;

/// How many times as many from the start.
const FROM_START: u64 = 16;

/// How many from the start at least once the granule was quiet: as many as a verdict may look at where no budget is given.
const QUIET_STATES: u64 = 1_000_000;

/// How many states may be looked at from where an order stands, where so many operations are kept.
pub(crate) fn few_states_for(kept: usize) -> u64 {
    (kept as u64)
        .saturating_mul(FEW_STATES_EACH)
        .max(FEW_STATES)
}

/// At how many that are kept it tries again to keep fewer, once so many are left: at twice as many, and where some are always open
/// no sooner than after some more; or at four times as many, where none could be left out.
fn limit_after(kept: usize, are_fewer: bool) -> usize {
    if !are_fewer {
        return kept.saturating_mul(4);
    }
    let more = if kept < SOME { FEW } else { MANY };
    kept.saturating_mul(2).max(kept.saturating_add(more))
}

/// At how many that are kept it looks again at the latest: at this limit, where it tries to keep fewer, and once before where few are.
fn latest_look(kept: usize, limit: usize) -> usize {
    if limit <= FEW && kept < FIRST_LOOK {
        FIRST_LOOK
    } else {
        limit
    }
}

impl Judge {
    // Tells the searches along orders all that is kept.
    fn tell_ahead(&mut self, alloc: Global) -> Result<(), AllocError>
        ensures keeps { IfOk result (λ _. (words : List ℕ) (told : List Operation) (now : ℕ) → Keeps words told now self.old → Keeps words told now self.new) }
        ensures same { IfOk result (λ _. self.new ≡ record self.old { ahead = self.new.ahead; seen = length self.old.kept }) }
    {
        let Some(more) = self.kept.get(self.seen..) else {
            self.ahead = Vec::new(alloc);
            self.seen = self.kept.len();
            return Ok(());
        };
        self.ahead = each_told(alloc, &self.ahead, more)?;
        self.seen = self.kept.len();
        Ok(())
    }

    // Whether it is known that an order explains what had happened before the horizon, or one is found from where the last ones stand,
    // or from the start. Where none is found from there either they are left out, since no order goes on from them.
    fn goes_ahead<P: Progress>(
        &mut self,
        alloc: Global,
        horizon: u64,
        from_start: u64,
        progress: &mut P,
    ) -> Result<bool, AllocError>
        requires goes_on { self.now.is_stopped ≡ false }
        requires later { self.now.horizon < horizon }
        ensures keeps { IfOk result (λ _. (words : List ℕ) (told : List Operation) (now : ℕ) → Keeps words told now self.old → Keeps words told now self.new) }
        ensures next { IfOk result (λ is. IsTrue is → (words : List ℕ) (told : List Operation) (now : ℕ) → horizon ≤ now + 1 → Keeps words told now self.old → IsNextHorizon words told now self.new horizon) }
        ensures same { IfOk result (λ _. self.new ≡ record self.old { ahead = self.new.ahead; seen = length self.old.kept }) }
        ensures looked { IfOk result (λ _. LookedSome P.looked progress.old progress.new) }
    {
        self.tell_ahead(alloc)?;
        if self.is_known_before(horizon) {
            return Ok(true);
        }
        let budget = few_states_for(self.kept.len());
        let mut waits = !self.is_behind;
        match found_along(
            alloc,
            &self.before,
            &self.kept,
            &self.ahead,
            horizon - 1,
            budget,
            from_start,
            &mut waits,
            progress,
        )? {
            Some((count, next)) => {
                keep_along(&mut self.ahead, count, next)?;
                Ok(true)
            }
            None => {
                if !waits {
                    self.ahead = Vec::new(alloc);
                }
                self.waits = waits;
                Ok(false)
            }
        }
    }

    /// Looks whether what had happened before the horizon can be explained, and answers whether that was seen. Where it cannot be,
    /// no more are kept.
    fn look<P: Progress>(
        &mut self,
        alloc: Global,
        horizon: u64,
        from_start: u64,
        progress: &mut P,
    ) -> Result<bool, AllocError>
        requires goes_on { self.now.is_stopped ≡ false }
        requires later { self.now.horizon < horizon }
        ensures keeps { IfOk result (λ _. (words : List ℕ) (told : List Operation) (now : ℕ) → Keeps words told now self.old → Keeps words told now self.new) }
        ensures horizon { IfOk result (λ _. (self.new.horizon ≡ horizon) ⊎ (self.new.horizon ≡ self.old.horizon)) }
        ensures latest { IfOk result (λ _. self.new.latest ≡ self.old.latest) }
        ensures shown { IfOk result (λ _. self.new.shown ≡ self.old.shown) }
        ensures told { IfOk result (λ _. self.new.seen ≡ length self.new.kept) }
        ensures next { IfOk result (λ is. IsTrue is → self.new.is_stopped ≡ false → (words : List ℕ) (told : List Operation) (now : ℕ) → horizon ≤ now + 1 → Keeps words told now self.old → IsNextHorizon words told now self.new horizon) }
        ensures looked { IfOk result (λ _. LookedSome P.looked progress.old progress.new) }
    {
        if self.goes_ahead(alloc, horizon, from_start, progress)? {
            return Ok(true);
        }
        if self.waits {
            return Ok(false);
        }
        match self.order_before(alloc, horizon, progress)? {
            Found::Order(_) => Ok(true),
            Found::Nothing => {
                self.horizon = horizon;
                self.is_stopped = true;
                Ok(true)
            }
            Found::Undecided => Ok(false),
        }
    }

    /// Looks at what had happened before the horizon, and where it tries to and can it keeps fewer. Answers whether it was seen that
    /// this can be explained, or cannot.
    pub(crate) fn move_on<P: Progress>(
        &mut self,
        alloc: Global,
        horizon: u64,
        tries: bool,
        from_start: u64,
        progress: &mut P,
    ) -> Result<bool, AllocError>
        requires goes_on { self.now.is_stopped ≡ false }
        requires later { self.now.horizon < horizon }
        ensures keeps { IfOk result (λ _. (words : List ℕ) (told : List Operation) (now : ℕ) → horizon ≤ now + 1 → Keeps words told now self.old → Keeps words told now self.new) }
        ensures horizon { IfOk result (λ _. (self.new.horizon ≡ horizon) ⊎ (self.new.horizon ≡ self.old.horizon)) }
        ensures latest { IfOk result (λ _. self.new.latest ≡ self.old.latest) }
        ensures shown { IfOk result (λ _. self.new.shown ≡ self.old.shown) }
        ensures looked { IfOk result (λ _. LookedSome P.looked progress.old progress.new) }
    {
        let is_seen = self.look(alloc, horizon, from_start, progress)?;
        if tries && is_seen && !self.is_stopped && self.horizon < horizon {
            self.forget(alloc, horizon, progress)?;
        }
        Ok(is_seen)
    }

    // When it looks again, and tries again to keep fewer.
    fn plan(&mut self, tries: bool, is_seen: bool)
        ensures same { self.new ≡ self.old }
    {
        let kept = self.kept.len();
        if !is_seen && self.waits {
            self.next_look = kept.saturating_add(MORE);
            return;
        }
        if tries {
            self.limit = limit_after(kept, kept < self.limit);
        }
        let more = if self.ahead.is_empty() {
            MORE.max(kept / PART)
        } else {
            MORE
        };
        self.next_look = if is_seen {
            kept.saturating_add(more).min(latest_look(kept, self.limit))
        } else {
            kept.saturating_mul(2)
        };
    }

    /// Looks whether what was told can be explained up to the time before the horizon, where enough more is kept than when it last
    /// looked, or it saw nothing then and all that is kept ended before the horizon: no operation that is told later starts before
    /// the horizon. Where twice as many are kept as were left, it keeps fewer, if it can.
    ///
    /// ```
    /// judge.settle(alloc, earliest_open_start, &mut NoProgress)?;
    /// ```
    pub fn settle<P: Progress>(
        &mut self,
        alloc: Global,
        horizon: u64,
        progress: &mut P,
    ) -> Result<(), AllocError>
        ensures keeps { IfOk result (λ _. (words : List ℕ) (told : List Operation) (now : ℕ) → horizon ≤ now + 1 → Keeps words told now self.old → Keeps words told now self.new) }
        ensures horizon { IfOk result (λ _. (self.new.horizon ≤ horizon) ⊎ (self.new.horizon ≡ self.old.horizon)) }
        ensures latest { IfOk result (λ _. self.new.latest ≡ self.old.latest) }
        ensures shown { IfOk result (λ _. self.new.shown ≡ self.old.shown) }
        ensures looked { IfOk result (λ _. LookedSome P.looked progress.old progress.new) }
    {
        let kept = self.kept.len();
        let was_quiet = self.is_behind && self.latest < horizon;
        let is_due = was_quiet || kept >= self.next_look;
        if self.is_stopped || !is_due || horizon <= self.horizon {
            return Ok(());
        }
        let tries = kept >= self.limit;
        let mut from_start = few_states_for(kept).saturating_mul(FROM_START);
        if was_quiet {
            from_start = from_start.max(QUIET_STATES);
        }
        let is_seen = self.move_on(alloc, horizon, tries, from_start, progress)?;
        self.is_behind = !is_seen && !was_quiet;
        self.plan(tries, is_seen);
        Ok(())
    }
}
