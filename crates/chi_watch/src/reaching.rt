//! How far the operations of a granule can be explained.

ghost use Rattle.std.specs.Prelude.{List, IfOk};
ghost use Rattle.chi_events.specs.declared.event.Event.{Event};
ghost use Rattle.chi_search.specs.Looks.{Grew, LookedAtLeast, LookedSome, for_verdict};
ghost use Rattle.chi_judge.specs.Reaches.{IfUndecided};
ghost use Rattle.chi_watch.specs.Reaching.{IsOfSomeTrace, IsReach, IsReachedBy, ReachesBy};
ghost use Rattle.chi_watch.specs.Watches.{CanBeJudged, HasTaken, IsUnexplained};

use crate::kept::KeptGranule;
use crate::watch::Watch;
use chi_events::laws::operations_are_told;
use chi_judge::Reach;
use chi_search::Progress;
use chi_trace::laws::granules_stand_alone;
use std::alloc::{AllocError, Global};

/// How far the operations of a granule can be explained, with how many states were looked at for that where it was cut short.
#[derive(Debug, Drop)]
pub struct FoundReach {
    pub reach: Reach,
    pub cut_short: Option<u64>,
}

/// How far the operations that were told of a granule can be explained, which follows a verdict.
pub(crate) fn reach_of<P: Progress>(
    alloc: Global,
    kept: &KeptGranule,
    budget: u64,
    progress: &mut P,
) -> Result<FoundReach, AllocError>
    ensures right { IfOk result (λ found. ReachesBy kept.now.judge found.reach) }
    ensures undecided { IfOk result (λ found. IsOfSomeTrace kept.now.judge → IsReachedBy (P.looked for_verdict) progress.old progress.new budget found.reach found.cut_short) }
    ensures looked { IfOk result (λ _. Grew (P.looked for_verdict) progress.old progress.new) }
{
    progress.after_verdict(0, 0);
    let reach = kept.reach(alloc, budget, progress);
    let cut_short = progress.cut_short();
    progress.before_verdict();
    Ok(FoundReach {
        reach: reach?,
        cut_short,
    })
}

impl Watch {
    /// How far a granule's operations can be explained, of which all is told, and no request is outstanding, or that they are not
    /// explained is known. `budget` is how many states may be looked at in each search.
    ///
    /// ```
    /// let found = watch.reach(alloc, granule, 1_000_000, &mut NoProgress)?;
    /// ```
    pub fn reach<P: Progress>(
        &self,
        alloc: Global,
        granule: u64,
        budget: u64,
        progress: &mut P,
    ) -> Result<FoundReach, AllocError>
        ensures right { IfOk result (λ found. (events : List Event) → HasTaken events self.now → IsReach self.now.shown events granule found.reach) }
        ensures undecided { IfOk result (λ found. CanBeJudged self.now granule → (events : List Event) → HasTaken events self.now → IsUnexplained events granule → IsReachedBy (P.looked for_verdict) progress.old progress.new budget found.reach found.cut_short) }
        ensures looked { IfOk result (λ _. Grew (P.looked for_verdict) progress.old progress.new) }
    {
        operations_are_told();
        granules_stand_alone();
        let _count = self.outstanding.count();
        let Some(kept) = self.granules.get(&granule) else {
            return Ok(FoundReach {
                reach: Reach::Undecided,
                cut_short: None,
            });
        };
        if kept.unknown_since().is_some() || !self.can_be_judged(kept, granule) {
            return Ok(FoundReach {
                reach: Reach::Undecided,
                cut_short: None,
            });
        }
        reach_of(alloc, kept, budget, progress)
    }
}
