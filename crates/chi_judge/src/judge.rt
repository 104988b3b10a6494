//! The operations of one granule that ended last.

ghost use Rattle.std.specs.Prelude.{◌≡◌, ◌≤◌, ◌↔◌, ℕ, [], ◌∷◌, ◌++◌, false, List, IfOk, IsTrue, OnErr, OnOk};
ghost use Rattle.chi_trace.specs.declared.operation.Operation.{Operation};
ghost use Rattle.chi_judge.specs.Judges.{CanBeKept, Keeps};

use crate::known_word::word_after;
use chi_fields::ADDRESSES;
use chi_search::Frontier;
use chi_trace::Operation;
use std::alloc::{AllocError, Global};
use std::marker::Model;

/// The operations of one granule that ended last, and the search over those before them. They are told in the order of their
/// ends, and are kept until it is sure that what came before can be explained. The last of those before them are kept to be
/// shown. A word to which all that was told leads is known while each operation fits the word that those that ended before it leave.
///
/// ```
/// let mut judge = Judge::new(alloc, 0, 16)?;
/// for ended in &ops {
///     judge.settle(alloc, earliest_open_start, &mut NoProgress)?;
///     judge.add(ended)?;
/// }
/// let reach = judge.reach(alloc, 1_000_000, &mut NoProgress)?;
/// ```
#[derive(Drop)]
pub struct Judge {
    pub(crate) before: Frontier,
    pub(crate) left: Vec<Operation>,
    pub(crate) shown: usize,
    pub(crate) kept: Vec<Operation>,
    pub(crate) word: Option<u64>,
    pub(crate) since: u64,
    pub(crate) horizon: u64,
    pub(crate) latest: u64,
    pub(crate) is_stopped: bool,
    pub(crate) ahead: Vec<Frontier>,
    pub(crate) seen: usize,
    pub(crate) next_look: usize,
    pub(crate) is_behind: bool,
    pub(crate) waits: bool,
    pub(crate) limit: usize,
}

impl Model for Judge {
    ghost use Rattle.chi_judge.specs.Judges.{IsJudge, JudgeValue};

    ghost Value = { JudgeValue };

    ghost view = { λ r. record { before = r.before; left = r.left.items; shown = r.shown; kept = r.kept.items; ahead = r.ahead.items; seen = r.seen; word = r.word; since = r.since; horizon = r.horizon; latest = r.latest; is_stopped = r.is_stopped } };

    ghost invariant = { λ r. IsJudge (record { before = r.before; left = r.left.items; shown = r.shown; kept = r.kept.items; ahead = r.ahead.items; seen = r.seen; word = r.word; since = r.since; horizon = r.horizon; latest = r.latest; is_stopped = r.is_stopped }) };
}

/// How many operations it keeps at least before it looks whether it may keep fewer.
pub(crate) const FEW: usize = 16;

/// At how many it looks before that, so that a verdict goes on from the order that was found.
pub(crate) const FIRST_LOOK: usize = 8;

/// Keeps one operation more. The first takes the room of one, since of many granules that are watched no more is kept.
fn keep(kept: &mut Vec<Operation>, op: &Operation) -> Result<(), AllocError>
    ensures items { OnOk result (kept.new.items ≡ kept.old.items ++ op.now ∷ []) }
    ensures refused { OnErr result (kept.new.items ≡ kept.old.items) }
{
    if kept.is_empty() {
        kept.reserve_exact(1)?;
    }
    kept.push(*op)?;
    Ok(())
}

impl Judge {
    /// Nothing is told of the granule, which holds this word. Where its operations stop being explained so many of those before
    /// are shown.
    ///
    /// ```
    /// let judge = Judge::new(alloc, 0, 16)?;
    /// ```
    #[tactic(auto, using(crate::proofs::KnownWord::nothing_leads))]
    pub fn new(alloc: Global, word: u64, shown: usize) -> Result<Judge, AllocError>
        ensures keeps { IfOk result (λ judge. Keeps (word ∷ []) [] 0 judge) }
        ensures untold { IfOk result (λ judge. (judge.horizon ≡ 0) × (judge.latest ≡ 0)) }
        ensures goes_on { IfOk result (λ judge. judge.is_stopped ≡ false) }
        ensures shown { IfOk result (λ judge. judge.shown ≡ shown) }
    {
        Ok(Judge {
            before: Frontier::new(alloc, &[word])?,
            left: Vec::new(alloc),
            shown,
            kept: Vec::new(alloc),
            word: Some(word),
            since: 0,
            horizon: 0,
            latest: 0,
            is_stopped: false,
            ahead: Vec::new(alloc),
            seen: 0,
            next_look: FIRST_LOOK,
            is_behind: false,
            waits: false,
            limit: FEW,
        })
    }

    /// Tells an operation, where it may be told next: it ends no earlier than those before it, starts no earlier than the horizon,
    /// ends no earlier than it starts, and lies within 2^52 bytes.
    ///
    /// ```
    /// let is_told = judge.add(&ended)?;
    /// ```
    pub fn add(&mut self, op: &Operation) -> Result<bool, AllocError>
        ensures taken { IfOk result (λ is. IsTrue is ↔ CanBeKept self.old op.now) }
        ensures keeps { IfOk result (λ is. IsTrue is → (words : List ℕ) (told : List Operation) (now : ℕ) → now ≤ op.now.end → Keeps words told now self.old → Keeps words (told ++ op.now ∷ []) op.now.end self.new) }
        ensures horizon { IfOk result (λ _. self.new.horizon ≡ self.old.horizon) }
        ensures latest { IfOk result (λ is. IsTrue is → self.new.latest ≤ op.now.end) }
        ensures stopped { IfOk result (λ _. self.new.is_stopped ≡ self.old.is_stopped) }
        ensures refused { IfOk result (λ is. is ≡ false → self.new ≡ self.old) }
        ensures shown { IfOk result (λ _. self.new.shown ≡ self.old.shown) }
    {
        let within = op.access.addr() <= ADDRESSES - op.access.len() as u64;
        if op.start > op.end || op.start < self.horizon || op.end < self.latest || !within {
            return Ok(false);
        }
        if !self.is_stopped {
            keep(&mut self.kept, op)?;
            self.latest = op.end;
            self.word = word_after(self.word, op);
        }
        Ok(true)
    }
}
