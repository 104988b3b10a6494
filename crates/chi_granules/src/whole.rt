//! What is found of all granules of a trace.

ghost use Rattle.std.specs.Prelude.{◌≡◌, ◌==◌, All, IfOk, filter, map, not};
ghost use Rattle.chi_granules.specs.Judged.{AreAll, AreAround, AreGranules, IsJudged, IsShown};

use crate::listing::judged_granules;
use chi_excerpt::order_in;
use chi_judge::Standing;
use chi_page::Drawn;
use chi_reading::Recorded;
use chi_search::NoProgress;
use chi_verdict::Blame;
use std::alloc::{AllocError, Global};

/// The numbers of the granules of which there is an operation, or of which a word was observed at the end, in their order.
fn granule_numbers(alloc: Global, recorded: &Recorded) -> Result<Vec<u64>, AllocError>
    ensures { IfOk result (λ granule_numbers. AreGranules recorded.now granule_numbers.items) }
{
    let mut granule_numbers = Vec::new(alloc);
    for op in recorded.trace().operations() {
        granule_numbers.push(op.granule())?;
    }
    for told in recorded.final_words().as_slice() {
        granule_numbers.push(told.granule)?;
    }
    granule_numbers.sort()?;
    granule_numbers.dedup();
    Ok(granule_numbers)
}

/// What is found of the granules of a trace, each judged by itself. No more than `budget` states are looked at of each.
///
/// ```
/// let granules = all_granules(alloc, &recorded, 1_000_000)?;
/// ```
pub fn all_granules(
    alloc: Global,
    recorded: &Recorded,
    budget: u64,
) -> Result<Vec<Drawn>, AllocError>
    ensures judged { IfOk result (λ drawn. All (IsJudged recorded.now) drawn.items) }
    ensures each { IfOk result (λ drawn. AreAll recorded.now drawn.items) }
    ensures granules { IfOk result (λ drawn. AreGranules recorded.now (map (λ d. d.granule) drawn.items)) }
{
    let granule_numbers = granule_numbers(alloc, recorded)?;
    judged_granules(alloc, recorded, &granule_numbers, budget, &mut NoProgress)
}

/// These numbers without one.
fn without(alloc: Global, granule_numbers: &[u64], number: u64) -> Result<Vec<u64>, AllocError>
    ensures { IfOk result (λ others. others.items ≡ filter (λ other. not (other == number)) granule_numbers.now) }
{
    granule_numbers
        .iter()
        .copied()
        .filter(|other| *other != number)
        .collect(alloc)
}

/// The same of a trace that stops being explained. The granule that is blamed stands first, with the order that explains it up
/// to the time before.
///
/// ```
/// let granules = granules_around(alloc, &recorded, &blame, 1_000_000)?;
/// ```
pub fn granules_around(
    alloc: Global,
    recorded: &Recorded,
    blame: &Blame,
    budget: u64,
) -> Result<Vec<Drawn>, AllocError>
    ensures shown { IfOk result (λ drawn. All (IsShown recorded.now blame.now) drawn.items) }
    ensures each { IfOk result (λ drawn. AreAll recorded.now drawn.items) }
    ensures around { IfOk result (λ drawn. AreAround recorded.now blame.now drawn.items) }
{
    let others = without(alloc, &granule_numbers(alloc, recorded)?, blame.granule)?;
    let mut drawn = judged_granules(alloc, recorded, &others, budget, &mut NoProgress)?;
    let order = order_in(alloc, recorded, blame.granule, &blame.order)?;
    drawn.insert(
        0,
        Drawn {
            granule: blame.granule,
            finding: Standing::Unexplained,
            order,
        },
    )?;
    Ok(drawn)
}
