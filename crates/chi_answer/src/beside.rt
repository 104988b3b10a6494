//! The other granules of a line of 64 bytes that no order explains.

ghost use Rattle.std.specs.Prelude.{◌≡◌, ◌⊎◌, ◌-◌, ◌≤◌, IfOk};
ghost use Rattle.chi_search.specs.Looks.{LookedMore};
ghost use Rattle.chi_answer.specs.Beside.{AreBeside, IsGrown, IsToldOrExplained, TellsAll};

use chi_reading::Recorded;
use chi_search::{Found, Progress};
use chi_verdict::Grouped;
use std::alloc::{AllocError, Global};

/// How many granules of eight bytes a line of 64 bytes has.
const GRANULES: u64 = 8;

/// Adds a granule where it is not the blamed one, and no order explains its operations.
fn add_unexplained<P: Progress>(
    alloc: Global,
    beside: &mut Vec<u64>,
    recorded: &Recorded,
    grouped: &Grouped<'_>,
    granule: u64,
    other: u64,
    budget: &mut u64,
    progress: &mut P,
) -> Result<(), AllocError>
    requires { grouped.now ≡ recorded.now.trace }
    ensures grown { IfOk result (λ _. IsGrown recorded.now granule other beside.old.items beside.new.items) }
    ensures told { IfOk result (λ _. (other ≡ granule → ⊥) → IsToldOrExplained recorded.now beside.new.items other ⊎ (budget.new ≡ 0)) }
    ensures spends { IfOk result (λ _. (budget.new ≤ budget.old) × LookedMore P.looked progress.old progress.new (budget.old - budget.new)) }
{
    if other == granule {
        return Ok(());
    }
    match grouped.explain(alloc, recorded.final_words(), other, budget, progress)? {
        Found::Nothing => beside.push(other)?,
        Found::Order(_) | Found::Undecided => {}
    }
    Ok(())
}

/// The other granules of the line of 64 bytes of this one that no order explains, in the order of their addresses. `budget` is how many
/// states may be looked at, and is left with how many more might have been.
pub(crate) fn unexplained_beside<P: Progress>(
    alloc: Global,
    recorded: &Recorded,
    granule: u64,
    budget: &mut u64,
    progress: &mut P,
) -> Result<Vec<u64>, AllocError>
    ensures beside { IfOk result (λ beside. AreBeside recorded.now granule beside.items) }
    ensures all { IfOk result (λ beside. TellsAll (budget.new ≡ 0) recorded.now granule beside.items) }
    ensures spends { IfOk result (λ _. (budget.new ≤ budget.old) × LookedMore P.looked progress.old progress.new (budget.old - budget.new)) }
{
    let grouped = Grouped::of(alloc, recorded.trace())?;
    let first = granule / GRANULES * GRANULES;
    let mut beside = Vec::new(alloc);
    for place in 0..GRANULES {
        add_unexplained(
            alloc,
            &mut beside,
            recorded,
            &grouped,
            granule,
            first + place,
            budget,
            progress,
        )?;
    }
    Ok(beside)
}
