//! Operations that are settled, and are kept no longer.

ghost use Rattle.std.specs.Prelude.{◌≡◌, ℕ, ◌+◌, ◌≤◌, ◌<◌, false, List, All, IfOk, IsTrue, length, take};
ghost use Rattle.chi_trace.specs.Explains.{at};
ghost use Rattle.chi_trace.specs.declared.operation.Operation.{Operation};
ghost use Rattle.chi_search.specs.Found.{IfNothing, IfOrder};
ghost use Rattle.chi_search.specs.Looks.{LookedSome};
ghost use Rattle.chi_judge.specs.Judges.{IsNextHorizon, Keeps, stopped_at};

use crate::ahead::leave_where_few;
use crate::judge::Judge;
use crate::known_word::word_once_left;
use crate::search::{order_by, told_after};
use crate::shown::last_with;
use chi_search::{Found, Progress};
use chi_trace::Operation;
use std::alloc::{AllocError, Global};

/// How many states may be looked at for positions, where few operations are kept.
const POSITION_STATES: u64 = 8192;

/// How many for each operation, where more are.
const POSITION_STATES_EACH: u64 = 48;

/// How many at most.
const MOST_POSITION_STATES: u64 = 262_144;

/// How many may be looked at for an order, where few operations are kept.
const ORDER_STATES: u64 = 65_536;

/// How many for each operation, where many are.
const ORDER_STATES_EACH: u64 = 64;

/// From how many positions the search goes on at most: with many it takes long to find an order.
const MOST_POSITIONS: usize = 4096;

/// How many states may be looked at for an order, where so many operations are kept.
fn order_states(kept: usize) -> u64 {
    (kept as u64)
        .saturating_mul(ORDER_STATES_EACH)
        .max(ORDER_STATES)
}

/// How many states may be looked at for positions, where so many operations are kept.
fn position_states(kept: usize) -> u64 {
    (kept as u64)
        .saturating_mul(POSITION_STATES_EACH)
        .max(POSITION_STATES)
        .min(MOST_POSITION_STATES)
}

/// How many of the operations, which stand in the order of their ends, ended before a time.
pub(crate) fn ended_before(ops: &[Operation], time: u64) -> usize
    ensures within { result ≤ length ops.now }
    ensures before { All (λ op. op.end < time) (take result ops.now) }
    ensures first { result < length ops.now → time ≤ (at ops.now result).end }
{
    let mut count = 0;
    for op in ops {
        if op.end >= time {
            return count;
        }
        count += 1;
    }
    count
}

/// The least start of operations, or this time where none starts before it.
fn least_start(ops: &[Operation], time: u64) -> u64
    ensures time { result ≤ time }
    ensures each { All (λ op. result ≤ op.start) ops.now }
{
    let mut least = time;
    for op in ops {
        least = least.min(op.start);
    }
    least
}

impl Judge {
    /// An order of what had happened before the horizon.
    pub(crate) fn order_before<P: Progress>(
        &self,
        alloc: Global,
        horizon: u64,
        progress: &mut P,
    ) -> Result<Found, AllocError>
        requires goes_on { self.now.is_stopped ≡ false }
        requires later { self.now.horizon < horizon }
        ensures order { IfOk result (λ found. IfOrder found (λ order. (words : List ℕ) (told : List Operation) (now : ℕ) → horizon ≤ now + 1 → Keeps words told now self.now → IsNextHorizon words told now self.now horizon)) }
        ensures nothing { IfOk result (λ found. IfNothing found ((words : List ℕ) (told : List Operation) (now : ℕ) → Keeps words told now self.now → Keeps words told now (stopped_at horizon self.now))) }
        ensures looked { IfOk result (λ _. LookedSome P.looked progress.old progress.new) }
    {
        let budget = order_states(self.kept.len());
        order_by(
            alloc,
            &self.before,
            &self.kept,
            horizon - 1,
            budget,
            progress,
        )
    }

    /// Leaves those that ended before the horizon to the search before the others, where that soon comes to few positions. What had
    /// happened before the horizon was seen to be explained. Where these are fewer than half of those that are kept it does not: from
    /// several positions a verdict takes longer. Answers whether it did.
    pub(crate) fn forget<P: Progress>(
        &mut self,
        alloc: Global,
        horizon: u64,
        progress: &mut P,
    ) -> Result<bool, AllocError>
        requires goes_on { self.now.is_stopped ≡ false }
        requires later { self.now.horizon < horizon }
        requires told { self.now.seen ≡ length self.now.kept }
        ensures keeps { IfOk result (λ _. (words : List ℕ) (told : List Operation) (now : ℕ) → IsNextHorizon words told now self.old horizon → Keeps words told now self.old → Keeps words told now self.new) }
        ensures horizon { IfOk result (λ is. IsTrue is → self.new.horizon ≡ horizon) }
        ensures latest { IfOk result (λ _. self.new.latest ≡ self.old.latest) }
        ensures shown { IfOk result (λ _. self.new.shown ≡ self.old.shown) }
        ensures refused { IfOk result (λ is. is ≡ false → self.new ≡ self.old) }
        ensures looked { IfOk result (λ _. LookedSome P.looked progress.old progress.new) }
    {
        let count = ended_before(&self.kept, horizon);
        if count < self.kept.len() / 2 {
            return Ok(false);
        }
        let least = least_start(&self.kept[count..], horizon);
        let Some(after) = told_after(alloc, &self.before, &self.kept[..count])? else {
            return Ok(false);
        };
        let mut budget = position_states(self.kept.len());
        let Some(before) = after.advanced(alloc, least, MOST_POSITIONS, &mut budget, progress)?
        else {
            return Ok(false);
        };
        let kept = Vec::from_slice(alloc, &self.kept[count..])?;
        let last = last_with(alloc, self.shown, &self.left, &self.kept[..count])?;
        let word = word_once_left(
            alloc,
            self.word,
            &before,
            kept.is_empty(),
            &mut budget,
            progress,
        )?;
        leave_where_few(alloc, &mut self.ahead, kept.len());
        self.seen = kept.len();
        self.before = before;
        self.left = last;
        self.kept = kept;
        self.word = word;
        self.since = horizon;
        self.horizon = horizon;
        Ok(true)
    }
}
