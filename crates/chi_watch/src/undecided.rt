//! Granules that are not decided at the end.

ghost use Rattle.std.specs.Prelude.{◌≡◌, All, IfOk};
ghost use Rattle.std.specs.BTreeMap.{get};
ghost use Rattle.std.specs.Ordering.{nat_cmp};
ghost use Rattle.chi_search.specs.Looks.{Grew, for_verdict};
ghost use Rattle.chi_watch.specs.Undecided.{GoesOnAt, IsAsFarIn, IsExplainedIn, undecided_of};

use crate::kept::KeptGranule;
use chi_search::Progress;
use std::alloc::{AllocError, Global};
use std::collections::BTreeMap;

/// A granule of which it is not decided whether its operations can be explained, by its number; and the latest time up to which
/// they are seen to be, where there is one.
#[derive(Clone, Copy, Debug)]
pub struct UndecidedAtEnd {
    pub granule: u64,
    pub explained: Option<u64>,
}

/// What is said of a granule that is not decided. `budget` is how many states are looked at for each time that is tried.
fn undecided_at_end<P: Progress>(
    alloc: Global,
    granules: &BTreeMap<u64, KeptGranule>,
    granule: u64,
    budget: u64,
    progress: &mut P,
) -> Result<UndecidedAtEnd, AllocError>
    requires goes_on { GoesOnAt (get nat_cmp granules.now granule) }
    ensures granule { IfOk result (λ undecided. undecided.granule ≡ granule) }
    ensures explained { IfOk result (IsExplainedIn (get nat_cmp granules.now)) }
    ensures far { IfOk result (IsAsFarIn (P.looked for_verdict) progress.old progress.new budget (get nat_cmp granules.now)) }
    ensures looked { IfOk result (λ _. Grew (P.looked for_verdict) progress.old progress.new) }
{
    let Some(kept) = granules.get(&granule) else {
        return Ok(UndecidedAtEnd {
            granule,
            explained: None,
        });
    };
    let explained = kept.explained_to(alloc, budget, progress)?;
    Ok(UndecidedAtEnd { granule, explained })
}

/// What is said of each granule that is not decided.
pub(crate) fn each_undecided<P: Progress>(
    alloc: Global,
    granules: &BTreeMap<u64, KeptGranule>,
    undecided: &[u64],
    budget: u64,
    progress: &mut P,
) -> Result<Vec<UndecidedAtEnd>, AllocError>
    requires go_on { All (λ g. GoesOnAt (get nat_cmp granules.now g)) undecided.now }
    ensures granules { IfOk result (λ found. undecided_of found.items ≡ undecided.now) }
    ensures explained { IfOk result (λ found. All (IsExplainedIn (get nat_cmp granules.now)) found.items) }
    ensures far { IfOk result (λ found. All (IsAsFarIn (P.looked for_verdict) progress.old progress.new budget (get nat_cmp granules.now)) found.items) }
    ensures looked { IfOk result (λ _. Grew (P.looked for_verdict) progress.old progress.new) }
{
    let mut found = Vec::new(alloc);
    for granule in undecided {
        let it = undecided_at_end(alloc, granules, *granule, budget, progress)?;
        found.push(it)?;
    }
    Ok(found)
}
