//! The search of one granule while its operations are told.

ghost use Rattle.std.specs.Prelude.{◌≡◌, ◌≢◌, ℕ, ◌+◌, ◌-◌, ◌^◌, ◌<◌, ◌≤◌, ◌↔◌, ◌⊎◌, [], ◌∷◌, ◌++◌, false, List, None, Some, IfErr, IfOk, IfSome, IsTrue, length, map};
ghost use Rattle.std.specs.List.{AllPairs, Contains};
ghost use Rattle.chi_trace.specs.declared.operation.Operation.{Operation};
ghost use Rattle.chi_trace.specs.Explains.{at};
ghost use Rattle.chi_trace.specs.Granules.{Finishes};
ghost use Rattle.chi_search.specs.Found.{IfNothing, IfOrder, IfUndecided, IfUnknown, IfWords};
ghost use Rattle.chi_search.specs.Frontiers.{CanBeTold, EndsWith, Follows, GoesAlong};
ghost use Rattle.chi_search.specs.Layers.{SomeLeads, Waits};
ghost use Rattle.chi_search.specs.Looks.{LookedMore};
ghost use Rattle.chi_search.specs.Positions.{Position, is_left};

use crate::layer::{advance, first_layer};
use crate::order::{Found, order_from};
use crate::passing::{moved_back, passed};
use crate::progress::Progress;
use crate::states::States;
use crate::words::{Words, words_from};
use chi_fields::ADDRESSES;
use chi_trace::Operation;
use std::alloc::{AllocError, Global};
use std::marker::Model;

/// The search of one granule while its operations are told, in the order of their ends. `advanced` goes on without those that
/// are settled for good, so that a granule that is never quiet can be followed for long.
///
/// ```
/// let mut frontier = Frontier::new(alloc, &[0])?;
/// for op in &ended {
///     frontier.add(op)?;
/// }
/// let next = frontier.advanced(alloc, earliest_open_start, 4096, &mut budget, &mut NoProgress)?;
/// ```
#[derive(Drop)]
pub struct Frontier {
    pub(crate) states: States,
    pub(crate) operations: Vec<Operation>,
    pub(crate) horizon: u64,
    pub(crate) latest: u64,
}

impl Model for Frontier {
    ghost use Rattle.chi_search.specs.Frontiers.{FrontierValue, IsFrontier};
    ghost use Rattle.chi_search.specs.StateSets.{positions};

    ghost Value = { FrontierValue };

    ghost view = { λ f. record { positions = positions f.states; operations = f.operations.items; horizon = f.horizon; latest = f.latest } };

    ghost invariant = { λ f. IsFrontier (record { positions = positions f.states; operations = f.operations.items; horizon = f.horizon; latest = f.latest }) };
}

impl Frontier {
    /// The search that begins with some words, before any operation is told.
    ///
    /// ```
    /// let frontier = Frontier::new(alloc, &[0])?;
    /// ```
    pub fn new(alloc: Global, words: &[u64]) -> Result<Frontier, AllocError>
        ensures follows { IfOk result (λ frontier. Follows words.now [] frontier) }
        ensures untold { IfOk result (λ frontier. (frontier.operations ≡ []) × (frontier.horizon ≡ 0) × (frontier.latest ≡ 0)) }
    {
        let states = first_layer(alloc, words)?;
        Ok(Frontier {
            states,
            operations: Vec::new(alloc),
            horizon: 0,
            latest: 0,
        })
    }

    /// The same search, to be told other operations.
    ///
    /// ```
    /// let mut other = frontier.copy(alloc)?;
    /// ```
    pub fn copy(&self, alloc: Global) -> Result<Frontier, AllocError>
        ensures follows { IfOk result (λ copy. (words : List ℕ) (told : List Operation) → Follows words told self.now → Follows words told copy) }
        ensures along { IfOk result (λ copy. (words : List ℕ) (told : List Operation) → GoesAlong words told self.now → GoesAlong words told copy) }
        ensures same { IfOk result (λ copy. (copy.operations ≡ self.now.operations) × (copy.horizon ≡ self.now.horizon) × (copy.latest ≡ self.now.latest)) }
    {
        let states = moved_back(alloc, &self.states, 0)?;
        let operations = Vec::from_slice(alloc, &self.operations)?;
        Ok(Frontier {
            states,
            operations,
            horizon: self.horizon,
            latest: self.latest,
        })
    }

    /// Tells an operation, where it may be told next: it ends no earlier than those before it, starts no earlier than the
    /// horizon, ends no earlier than it starts, and lies within 2^52 bytes.
    ///
    /// ```
    /// let is_told = frontier.add(&op)?;
    /// ```
    pub fn add(&mut self, op: &Operation) -> Result<bool, AllocError>
        ensures told { IfOk result (λ is. IsTrue is → (words : List ℕ) (told : List Operation) → Follows words told self.old → Follows words (told ++ op.now ∷ []) self.new) }
        ensures along { IfOk result (λ is. IsTrue is → (words : List ℕ) (told : List Operation) → GoesAlong words told self.old → GoesAlong words (told ++ op.now ∷ []) self.new) }
        ensures operations { IfOk result (λ is. IsTrue is → self.new.operations ≡ self.old.operations ++ op.now ∷ []) }
        ensures last { IfOk result (λ is. IsTrue is → (self.new.horizon ≡ self.old.horizon) × (self.new.latest ≡ op.now.end)) }
        ensures taken { IfOk result (λ is. IsTrue is ↔ (CanBeTold self.old op.now × (op.now.access.addr + op.now.access.len ≤ 2 ^ 52))) }
        ensures refused { IfOk result (λ is. is ≡ false → self.new ≡ self.old) }
        ensures failed { IfErr result (λ fault. self.new ≡ self.old) }
    {
        let within = op.access.addr() <= ADDRESSES - op.access.len() as u64;
        if op.start > op.end || op.start < self.horizon || op.end < self.latest || !within {
            return Ok(false);
        }
        self.operations.push(*op)?;
        self.latest = op.end;
        Ok(true)
    }

    /// The same search once no operation can come that starts before the horizon: it has gone on as far as what is told
    /// allows. Nothing, where the budget was spent or it would be at more than `most` positions.
    ///
    /// ```
    /// let next = frontier.advanced(alloc, earliest_open_start, 4096, &mut budget, &mut NoProgress)?;
    /// ```
    pub fn advanced<P: Progress>(
        &self,
        alloc: Global,
        horizon: u64,
        most: usize,
        budget: &mut u64,
        progress: &mut P,
    ) -> Result<Option<Frontier>, AllocError>
        ensures follows { IfOk result (λ next. IfSome next (λ frontier. (words : List ℕ) (told : List Operation) → Follows words told self.now → Follows words told frontier)) }
        ensures horizon { IfOk result (λ next. IfSome next (λ frontier. (horizon ≤ frontier.horizon) × (self.now.horizon ≤ frontier.horizon) × ((frontier.horizon ≡ horizon) ⊎ (frontier.horizon ≡ self.now.horizon)))) }
        ensures latest { IfOk result (λ next. IfSome next (λ frontier. frontier.latest ≡ self.now.latest)) }
        ensures waiting { IfOk result (λ next. IfSome next (λ frontier. (p : Position) → Contains frontier.positions p → Waits frontier.operations (Some frontier.horizon) p.first)) }
        ensures most { IfOk result (λ next. IfSome next (λ frontier. length frontier.positions ≤ most)) }
        ensures spent { IfOk result (λ next. next ≡ None → (budget.new ≡ 0) ⊎ (most < budget.old - budget.new)) }
        ensures spends { IfOk result (λ next. (budget.new ≤ budget.old) × LookedMore P.looked progress.old progress.new (budget.old - budget.new)) }
    {
        let horizon = horizon.max(self.horizon);
        let from = moved_back(alloc, &self.states, 0)?;
        match advance(
            alloc,
            &self.operations,
            Some(horizon),
            false,
            most,
            from,
            budget,
            progress,
        )? {
            Some(last) => {
                let by = passed(&last, self.operations.len());
                let states = moved_back(alloc, &last, by)?;
                let operations = Vec::from_slice(alloc, &self.operations[by..])?;
                Ok(Some(Frontier {
                    states,
                    operations,
                    horizon,
                    latest: self.latest,
                }))
            }
            None => Ok(None),
        }
    }

    /// An order of the operations that it keeps, from one of its positions, that leaves the final word where one was told, and is how an
    /// order of all that was told ends; that there is none, so that none explains it; or neither, since the budget was spent.
    ///
    /// ```
    /// match frontier.order(alloc, Some(0x2a), &mut budget, &mut NoProgress)? {
    ///     Found::Order(_) => explained(),
    ///     Found::Nothing => blame(),
    ///     Found::Undecided => take_more_time(),
    /// }
    /// ```
    pub fn order<P: Progress>(
        &self,
        alloc: Global,
        final_word: Option<u64>,
        budget: &mut u64,
        progress: &mut P,
    ) -> Result<Found, AllocError>
        ensures order { IfOk result (λ found. IfOrder found (λ order. (p : Position) × Contains self.now.positions p × Finishes self.now.operations (is_left (length self.now.operations) p) p.word final_word order)) }
        ensures ends { IfOk result (λ found. IfOrder found (λ order. (words : List ℕ) (told : List Operation) → Follows words told self.now → EndsWith told words (map (at self.now.operations) order))) }
        ensures leads { IfOk result (λ found. IfOrder found (λ order. (words : List ℕ) (told : List Operation) → Follows words told self.now → (v : ℕ) × SomeLeads told words v × IfSome final_word (λ seen. v ≡ seen))) }
        ensures along { IfOk result (λ found. IfOrder found (λ order. (words : List ℕ) (told : List Operation) → GoesAlong words told self.now → (v : ℕ) × SomeLeads told words v × IfSome final_word (λ seen. v ≡ seen))) }
        ensures nothing { IfOk result (λ found. IfNothing found ((words : List ℕ) (told : List Operation) → Follows words told self.now → (v : ℕ) → SomeLeads told words v → IfSome final_word (λ seen. v ≡ seen) → ⊥)) }
        ensures undecided { IfOk result (λ found. IfUndecided found (budget.new ≡ 0)) }
        ensures spends { IfOk result (λ found. (budget.new ≤ budget.old) × LookedMore P.looked progress.old progress.new (budget.old - budget.new)) }
    {
        order_from(
            alloc,
            &self.operations,
            final_word,
            &self.states,
            budget,
            progress,
        )
    }

    /// Each word that the operations that were told can leave. There is none where no order explains them.
    ///
    /// ```
    /// if let Words::Each(words) = frontier.words(alloc, &mut budget, &mut NoProgress)? {
    ///     show(words.is_empty());
    /// }
    /// ```
    pub fn words<P: Progress>(
        &self,
        alloc: Global,
        budget: &mut u64,
        progress: &mut P,
    ) -> Result<Words, AllocError>
        ensures words { IfOk result (λ found. IfWords found (λ each. (words : List ℕ) (told : List Operation) → Follows words told self.now → (v : ℕ) → Contains each v ↔ SomeLeads told words v)) }
        ensures once { IfOk result (λ found. IfWords found (λ each. AllPairs (λ v w. v ≢ w) each)) }
        ensures unknown { IfOk result (λ found. IfUnknown found (budget.new ≡ 0)) }
        ensures spends { IfOk result (λ found. (budget.new ≤ budget.old) × LookedMore P.looked progress.old progress.new (budget.old - budget.new)) }
    {
        words_from(alloc, &self.operations, &self.states, budget, progress)
    }

    /// The operations that it keeps, in the order in which they were told.
    ///
    /// ```
    /// if frontier.operations().len() > 64 {
    ///     frontier = go_on(&frontier)?;
    /// }
    /// ```
    pub fn operations(&self) -> &[Operation]
        ensures { result.now ≡ self.now.operations }
    {
        self.operations.as_slice()
    }
}
