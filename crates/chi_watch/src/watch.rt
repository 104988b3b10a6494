//! Granules that are watched while events come.

ghost use Rattle.std.specs.Prelude.{◌≡◌, ◌≢◌, ◌==◌, ◌||◌, not, ◌⊎◌, ◌+◌, ◌-◌, ◌^◌, length, min, option_to_list, ℕ, [], ◌∷◌, ◌++◌, true, false, List, None, Some, IfErr, IfOk, IfSome, IsTrue};
ghost use Rattle.std.specs.List.{list_any};
ghost use Rattle.chi_events.specs.declared.event.Event.{Event};
ghost use Rattle.chi_watch.specs.Endings.{IsExplainable};
ghost use Rattle.chi_watch.specs.Judged.{CanBeExplained, is_known};
ghost use Rattle.chi_search.specs.Looks.{Grew, GrewBy, for_verdict};
ghost use Rattle.chi_watch.specs.Quiet.{BecomesQuiet, granule_about};
ghost use Rattle.chi_events.specs.Granules.{granule_of_request};
ghost use Rattle.chi_watch.specs.Watches.{CanBeJudged, HasTaken, IsFound, IsUnexplained, Takes, Watches, fault_of, granule as granule_of};

use crate::ended::close_ended;
use crate::fault::WatchFault;
use crate::kept::KeptGranule;
use crate::settling::QuietGranule;
use crate::update_granules::update_granules;
use chi_events::laws::operations_are_told;
use chi_events::{Event, EventKind, Outstanding};
use chi_judge::Standing;
use chi_search::Progress;
use chi_trace::Operation;
use chi_trace::laws::{granules_stand_alone, parts_explain};
use std::alloc::{AllocError, Global};
use std::collections::{BTreeMap, VecDeque};
use std::marker::Model;

/// The granules that events tell of, each followed as far as what is told of it allows.
///
/// ```
/// let mut watch = Watch::new(alloc, 16)?;
/// for event in &events {
///     if let Some(granule) = watch.take(alloc, event, 1_000_000, &mut NoProgress)? {
///         show(granule);
///     }
/// }
/// ```
#[derive(Drop)]
pub struct Watch {
    pub(crate) outstanding: Outstanding,
    pub(crate) granules: BTreeMap<u64, KeptGranule>,
    pub(crate) ended: u64,
    pub(crate) shown: usize,
    pub(crate) quiet: VecDeque<QuietGranule>,
}

impl Model for Watch {
    ghost use Rattle.chi_watch.specs.Watches.{WatchValue};

    ghost Value = { WatchValue };

    ghost view = { λ w. record { outstanding = w.outstanding; granules = w.granules.entries; ended = w.ended; shown = w.shown } };
}

/// So many operations, and one more where one has ended.
fn one_more(count: u64, ended: &Option<Operation>) -> u64
    ensures { result ≡ min (count + length (option_to_list ended.now)) (2 ^ 64 - 1) }
{
    match ended {
        Some(_) => count.saturating_add(1),
        None => count,
    }
}

impl Watch {
    /// Nothing is watched, before any event. So many operations of a granule are shown at most before one that is blamed.
    ///
    /// ```
    /// let watch = Watch::new(alloc, 16)?;
    /// ```
    pub fn new(alloc: Global, shown: usize) -> Result<Watch, AllocError>
        ensures watches { IfOk result (Watches [] []) }
        ensures shown { IfOk result (λ watch. watch.shown ≡ shown) }
    {
        Ok(Watch {
            outstanding: Outstanding::new(alloc)?,
            granules: BTreeMap::new(alloc),
            ended: 0,
            shown,
            quiet: VecDeque::new(alloc),
        })
    }

    /// Whether a request of the granule is outstanding.
    pub(crate) fn is_open(&self, granule: u64) -> bool
        ensures { result ≡ list_any (λ p. granule_of_request p == granule) self.now.outstanding.requests }
    {
        self.outstanding.is_open(granule)
    }

    /// Whether no request of the granule is outstanding, or what was told of it is known not to be explained.
    pub(crate) fn can_be_judged(&self, kept: &KeptGranule, granule: u64) -> bool
        ensures { result ≡ (not (list_any (λ p. granule_of_request p == granule) self.now.outstanding.requests) || kept.now.judge.is_stopped) }
    {
        !self.is_open(granule) || kept.is_stopped()
    }

    /// The granule of the outstanding request that an event is about, or of the word that it tells, where something that is not told
    /// may have written to that before.
    fn granule_about(&self, event: &Event) -> Option<u64>
        ensures { result ≡ granule_about self.now event.now }
    {
        if let EventKind::Word(told) = event.kind {
            self.unknown_since(told.granule)?;
            return Some(told.granule);
        }
        let fields = self.outstanding.about(event)?;
        Some(fields.addr / 8)
    }

    /// Whether all that wrote to the granule is told, and no order explains what was told of it.
    fn is_found<P: Progress>(
        &self,
        alloc: Global,
        granule: u64,
        budget: u64,
        progress: &mut P,
    ) -> Result<bool, AllocError>
        ensures found { IfOk result (λ is. IsTrue is → IsFound self.now granule) }
        ensures none { IfOk result (λ is. is ≡ false → list_any (λ p. granule_of_request p == granule) self.now.outstanding.requests ≡ false → IfSome (granule_of self.now granule) (λ f. f.unknown_since ≡ None → IsExplainable f ⊎ GrewBy (P.looked for_verdict) progress.old progress.new budget)) }
        ensures looked { IfOk result (λ _. Grew (P.looked for_verdict) progress.old progress.new) }
    {
        let Some(kept) = self.granules.get(&granule) else {
            return Ok(false);
        };
        if kept.unknown_since().is_some() || !self.can_be_judged(kept, granule) {
            return Ok(false);
        }
        match kept.check(alloc, kept.final_word(), budget, progress)? {
            Standing::Unexplained => Ok(true),
            Standing::Explained | Standing::Undecided => Ok(false),
        }
    }

    /// Whether it is seen that no order explains a granule's operations, of which all is told. That is seen where no request of it is
    /// outstanding, and often before. `budget` is how many states may be looked at for an answer.
    ///
    /// ```
    /// let is_wrong = watch.is_unexplained(alloc, granule, 1_000_000, &mut NoProgress)?;
    /// ```
    pub fn is_unexplained<P: Progress>(
        &self,
        alloc: Global,
        granule: u64,
        budget: u64,
        progress: &mut P,
    ) -> Result<bool, AllocError>
        ensures found { IfOk result (λ is. IsTrue is → (events : List Event) → HasTaken events self.now → IsUnexplained events granule) }
        ensures quiet { IfOk result (λ is. IsTrue is → CanBeJudged self.now granule) }
        ensures judged { IfOk result (λ is. is ≡ false → list_any (λ p. granule_of_request p == granule) self.now.outstanding.requests ≡ false → (events : List Event) → HasTaken events self.now → is_known events granule ≡ true → CanBeExplained events granule ⊎ GrewBy (P.looked for_verdict) progress.old progress.new budget) }
        ensures looked { IfOk result (λ _. Grew (P.looked for_verdict) progress.old progress.new) }
    {
        operations_are_told();
        granules_stand_alone();
        parts_explain();
        let _count = self.outstanding.count();
        self.is_found(alloc, granule, budget, progress)
    }

    /// Takes an event, where it can come next: the operation that ended by it, if one did. With `looks` it is looked at what had
    /// happened before those that are open.
    pub(crate) fn step<P: Progress>(
        &mut self,
        alloc: Global,
        event: &Event,
        looks: bool,
        progress: &mut P,
    ) -> Result<Option<Operation>, WatchFault>
        ensures taken { IfOk result (λ ended. Takes event.now ended self.old self.new) }
        ensures fits { IfOk result (λ _. fault_of self.old event.now ≡ None) }
        ensures fault { IfErr result (λ fault. fault ≢ WatchFault.Memory → fault_of self.old event.now ≡ Some fault) }
        ensures shown { IfOk result (λ _. self.new.shown ≡ self.old.shown) }
        ensures time { IfOk result (λ _. self.new.outstanding.time ≡ event.now.time) }
        ensures looked { IfOk result (λ _. Grew (P.looked for_verdict) progress.old progress.new) }
    {
        self.admits(event)?;
        let ended = self.outstanding.take(event)?;
        close_ended(
            alloc,
            &mut self.granules,
            &self.outstanding,
            &ended,
            looks,
            progress,
        )?;
        update_granules(
            alloc,
            &mut self.granules,
            event.time,
            &event.kind,
            self.shown,
        )?;
        self.ended = one_more(self.ended, &ended);
        Ok(ended)
    }

    /// Takes an event, where it can come next, and answers the granule, where by this event it was seen that no order explains
    /// its operations. `budget` is how many states may be looked at for an answer.
    ///
    /// A granule is judged when its last outstanding request has ended, or was dropped or refused. Where requests of it are always
    /// outstanding, it is looked at again once 64 operations more have ended, or a quarter more where many are kept and no order is known to go on.
    ///
    /// ```
    /// let found = watch.take(alloc, &event, 1_000_000, &mut NoProgress)?;
    /// ```
    pub fn take<P: Progress>(
        &mut self,
        alloc: Global,
        event: &Event,
        budget: u64,
        progress: &mut P,
    ) -> Result<Option<u64>, WatchFault>
        ensures taken { IfOk result (λ found. (events : List Event) → HasTaken events self.old → HasTaken (events ++ event.now ∷ []) self.new) }
        ensures unexplained { IfOk result (λ found. IfSome found (λ g. (events : List Event) → HasTaken events self.old → IsUnexplained (events ++ event.now ∷ []) g)) }
        ensures about { IfOk result (λ found. IfSome found (λ g. granule_about self.old event.now ≡ Some g)) }
        ensures judged { IfOk result (λ found. found ≡ None → (g : ℕ) → BecomesQuiet self.old event.now self.new g → (events : List Event) → HasTaken events self.old → is_known (events ++ event.now ∷ []) g ≡ true → CanBeExplained (events ++ event.now ∷ []) g ⊎ GrewBy (P.looked for_verdict) progress.old progress.new budget) }
        ensures fits { IfOk result (λ found. fault_of self.old event.now ≡ None) }
        ensures fault { IfErr result (λ fault. fault ≢ WatchFault.Memory → fault_of self.old event.now ≡ Some fault) }
        ensures shown { IfOk result (λ _. self.new.shown ≡ self.old.shown) }
        ensures looked { IfOk result (λ _. Grew (P.looked for_verdict) progress.old progress.new) }
    {
        let about = self.granule_about(event);
        self.step_on(alloc, event, about, progress)?;
        let Some(granule) = about else {
            return Ok(None);
        };
        if self.is_unexplained(alloc, granule, budget, progress)? {
            Ok(Some(granule))
        } else {
            Ok(None)
        }
    }
}
