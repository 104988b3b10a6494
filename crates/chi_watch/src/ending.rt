//! What is said where the events end.

ghost use Rattle.std.specs.Prelude.{◌≡◌, ◌⊎◌, ℕ, [], List, All, IfOk, IsPermutation, filter, filter_map};
ghost use Rattle.std.specs.List.Sorted.{IsNonDecreasingBy};
ghost use Rattle.std.specs.BTreeMap.{get};
ghost use Rattle.std.specs.Ordering.{nat_cmp};
ghost use Rattle.chi_events.specs.Outstanding.{open_operation};
ghost use Rattle.chi_events.specs.declared.event.Event.{Event};
ghost use Rattle.chi_search.specs.Looks.{Grew, GrewBy, for_verdict};
ghost use Rattle.chi_trace.specs.AtPlaces.{is_in};
ghost use Rattle.chi_watch.specs.Endings.{AreToldTo, CanClose, IsListed};
ghost use Rattle.chi_watch.specs.Judged.{CanBeExplained, IsExplained};
ghost use Rattle.chi_watch.specs.Reaching.{IsFoundAtEnd, IsFoundIn, IsReachedBy, IsReachedIn, granules_of, stop_time};
ghost use Rattle.chi_watch.specs.Undecided.{IsExplainedAsFar, IsExplainedTo, states_for, undecided_of};
ghost use Rattle.chi_watch.specs.Watches.{HasTaken};

use crate::granules::close;
use crate::judge_all::judge_all;
use crate::kept::KeptGranule;
use crate::reaching::reach_of;
use crate::undecided::{UndecidedAtEnd, each_undecided};
use crate::watch::Watch;
use chi_events::Open;
use chi_events::laws::operations_are_told;
use chi_judge::Reach;
use chi_search::Progress;
use chi_trace::laws::{granules_explain, granules_stand_alone, parts_explain};
use std::alloc::{AllocError, Global};
use std::collections::BTreeMap;

/// A granule that no order explains, by its number; its word at the end, where one was told and is judged; and how far its operations
/// can be explained, with how many states were looked at for that where it was cut short.
#[derive(Debug, Drop)]
pub struct FoundAtEnd {
    pub granule: u64,
    pub final_word: Option<u64>,
    pub reach: Reach,
    pub cut_short: Option<u64>,
}

/// The granules whose operations no order explains, in the order of the times at which they stop being explained, and then of their
/// addresses; and those of which that is not decided, in the order of their addresses. Where there are none of either, all that was
/// told is explained.
#[derive(Debug, Drop)]
pub struct Ending {
    pub unexplained: Vec<FoundAtEnd>,
    pub undecided: Vec<UndecidedAtEnd>,
}

/// Tells each operation that is still open of its granule.
fn close_open<P: Progress>(
    alloc: Global,
    granules: &mut BTreeMap<u64, KeptGranule>,
    requests: &[Open],
    progress: &mut P,
) -> Result<(), AllocError>
    ensures told { IfOk result (λ _. All (CanClose (get nat_cmp granules.old)) requests.now → (g : ℕ) → AreToldTo (filter (is_in g) (filter_map open_operation requests.now)) (get nat_cmp granules.old g) (get nat_cmp granules.new g)) }
    ensures looked { IfOk result (λ _. Grew (P.looked for_verdict) progress.old progress.new) }
{
    for request in requests {
        if let Some(op) = request.operation() {
            close(alloc, granules, &op, 0, progress)?;
        }
    }
    Ok(())
}

/// What is said of a granule that no order explains.
fn found_at_end<P: Progress>(
    alloc: Global,
    granules: &BTreeMap<u64, KeptGranule>,
    granule: u64,
    budget: u64,
    progress: &mut P,
) -> Result<FoundAtEnd, AllocError>
    ensures granule { IfOk result (λ found. found.granule ≡ granule) }
    ensures found { IfOk result (IsFoundIn (get nat_cmp granules.now)) }
    ensures undecided { IfOk result (IsReachedIn (P.looked for_verdict) progress.old progress.new budget (get nat_cmp granules.now)) }
    ensures looked { IfOk result (λ _. Grew (P.looked for_verdict) progress.old progress.new) }
{
    let Some(kept) = granules.get(&granule) else {
        return Ok(FoundAtEnd {
            granule,
            final_word: None,
            reach: Reach::Undecided,
            cut_short: None,
        });
    };
    let found = reach_of(alloc, kept, budget, progress)?;
    Ok(FoundAtEnd {
        granule,
        final_word: kept.judged_word(),
        reach: found.reach,
        cut_short: found.cut_short,
    })
}

/// What is said of each granule that no order explains.
fn each_found_at_end<P: Progress>(
    alloc: Global,
    granules: &BTreeMap<u64, KeptGranule>,
    unexplained: &[u64],
    budget: u64,
    progress: &mut P,
) -> Result<Vec<FoundAtEnd>, AllocError>
    ensures granules { IfOk result (λ found. granules_of found.items ≡ unexplained.now) }
    ensures found { IfOk result (λ found. All (IsFoundIn (get nat_cmp granules.now)) found.items) }
    ensures undecided { IfOk result (λ found. All (IsReachedIn (P.looked for_verdict) progress.old progress.new budget (get nat_cmp granules.now)) found.items) }
    ensures looked { IfOk result (λ _. Grew (P.looked for_verdict) progress.old progress.new) }
{
    let mut found = Vec::new(alloc);
    for granule in unexplained {
        let it = found_at_end(alloc, granules, *granule, budget, progress)?;
        found.push(it)?;
    }
    Ok(found)
}

/// The time up to which no order explains a granule, where it is known, and else the last.
fn stop_time(found: &FoundAtEnd) -> u64
    ensures { result ≡ stop_time found.now.reach }
{
    match &found.reach {
        Reach::Stops(stop) => stop.time,
        Reach::Whole(_) | Reach::Undecided => u64::MAX,
    }
}

/// The granules in the order of these times.
fn by_time(mut found: Vec<FoundAtEnd>) -> Result<Vec<FoundAtEnd>, AllocError>
    ensures same { IfOk result (λ sorted. IsPermutation found.items sorted.items) }
    ensures earliest { IfOk result (λ sorted. IsNonDecreasingBy (λ f. stop_time f.reach) sorted.items) }
{
    found.sort_by_key(stop_time)?;
    Ok(found)
}

impl Watch {
    /// What is said where the events end. Each operation that is still open may have taken effect or not. Of a granule to which
    /// something that is not told may have written it is judged what had happened before. `budget` is how many states are looked at where
    /// one may be explained or not, and for each time up to which one that is not decided may be explained.
    ///
    /// ```
    /// let ending = watch.ending(alloc, 1_000_000, &mut NoProgress)?;
    /// ```
    pub fn ending<P: Progress>(
        self,
        alloc: Global,
        budget: u64,
        progress: &mut P,
    ) -> Result<Ending, AllocError>
        ensures explained { IfOk result (λ ending. ending.unexplained.items ≡ [] → ending.undecided.items ≡ [] → (events : List Event) → HasTaken events self → IsExplained events) }
        ensures each { IfOk result (λ ending. (g : ℕ) (events : List Event) → HasTaken events self → CanBeExplained events g ⊎ IsListed g (granules_of ending.unexplained.items) (undecided_of ending.undecided.items)) }
        ensures unexplained { IfOk result (λ ending. All (λ found. (events : List Event) → HasTaken events self → IsFoundAtEnd self.shown events found) ending.unexplained.items) }
        ensures earliest { IfOk result (λ ending. IsNonDecreasingBy (λ f. stop_time f.reach) ending.unexplained.items) }
        ensures reached { IfOk result (λ ending. All (λ found. (events : List Event) → HasTaken events self → IsReachedBy (P.looked for_verdict) progress.old progress.new budget found.reach found.cut_short) ending.unexplained.items) }
        ensures undecided { IfOk result (λ ending. All (λ _. GrewBy (P.looked for_verdict) progress.old progress.new budget) ending.undecided.items) }
        ensures explained_to { IfOk result (λ ending. All (λ u. (events : List Event) → HasTaken events self → IsExplainedTo events u) ending.undecided.items) }
        ensures far { IfOk result (λ ending. All (λ u. (events : List Event) → HasTaken events self → IsExplainedAsFar (P.looked for_verdict) progress.old progress.new (states_for budget ending.undecided.items) events u) ending.undecided.items) }
        ensures looked { IfOk result (λ _. Grew (P.looked for_verdict) progress.old progress.new) }
    {
        operations_are_told();
        granules_stand_alone();
        parts_explain();
        granules_explain();
        let mut granules = self.granules;
        let requests = self.outstanding.requests(alloc)?;
        close_open(alloc, &mut granules, &requests, progress)?;
        let listed = judge_all(alloc, &granules, budget, progress)?;
        let found = each_found_at_end(alloc, &granules, &listed.unexplained, budget, progress)?;
        let unexplained = by_time(found)?;
        let undecided = each_undecided(alloc, &granules, &listed.undecided, budget, progress)?;
        Ok(Ending {
            unexplained,
            undecided,
        })
    }
}
