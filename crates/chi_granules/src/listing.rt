//! What is found of some granules of a trace.

ghost use Rattle.std.specs.Prelude.{◌≡◌, All, IfOk, map};
ghost use Rattle.chi_search.specs.Looks.{LookedAtLeast, LookedSome};
ghost use Rattle.chi_granules.specs.Judged.{IfUndecided, IsJudged};

use crate::judge::judged_in;
use chi_page::Drawn;
use chi_reading::Recorded;
use chi_search::Progress;
use chi_verdict::Grouped;
use std::alloc::{AllocError, Global};

/// What is found of the granules of these numbers, in this order. No more than `budget` states are looked at of each.
///
/// ```
/// let drawn = judged_granules(alloc, &recorded, &[0x1000 / 8, 0x1008 / 8], 1_000_000, &mut NoProgress)?;
/// ```
pub fn judged_granules<P: Progress>(
    alloc: Global,
    recorded: &Recorded,
    granule_numbers: &[u64],
    budget: u64,
    progress: &mut P,
) -> Result<Vec<Drawn>, AllocError>
    ensures judged { IfOk result (λ drawn. All (IsJudged recorded.now) drawn.items) }
    ensures granules { IfOk result (λ drawn. map (λ d. d.granule) drawn.items ≡ granule_numbers.now) }
    ensures undecided { IfOk result (λ drawn. All (λ d. IfUndecided d (LookedAtLeast P.looked progress.old progress.new budget)) drawn.items) }
    ensures looked { IfOk result (λ _. LookedSome P.looked progress.old progress.new) }
{
    let grouped = Grouped::of(alloc, recorded.trace())?;
    let mut drawn = Vec::with_capacity(alloc, granule_numbers.len())?;
    for number in granule_numbers {
        let mut left = budget;
        let judged = judged_in(alloc, recorded, &grouped, *number, &mut left, progress)?;
        drawn.push(judged)?;
    }
    Ok(drawn)
}
