//! The words that a granule can hold.

ghost use Rattle.std.specs.Prelude.{◌≡◌, ℕ, ◌-◌, ◌≤◌, ◌↔◌, List, IfOk};
ghost use Rattle.std.specs.List.{Contains};
ghost use Rattle.chi_search.specs.Found.{IfUnknown, IfWords};
ghost use Rattle.chi_search.specs.Looks.{LookedMore};
ghost use Rattle.chi_trace.specs.Explains.{IsTrace};
ghost use Rattle.chi_trace.specs.Traces.{CanHold, IsLegal};
ghost use Rattle.chi_trace.specs.Words.{AreWords};

use crate::granule::words_left;
use chi_search::{Progress, Words};
use chi_trace::laws::{orders_of_granules_explain, parts_explain};
use chi_trace::{GranuleWords, Operation, Trace};
use std::alloc::{AllocError, Global};

/// The words that a granule can hold after the operations, where these can be explained.
pub(crate) fn words_after_all<P: Progress>(
    alloc: Global,
    opening: &GranuleWords,
    ops: &[Operation],
    granule: u64,
    budget: &mut u64,
    progress: &mut P,
) -> Result<Words, AllocError>
    requires words { AreWords opening.now }
    requires traced { IsTrace ops.now }
    ensures words { IfOk result (λ found. IfWords found (λ each. (order : List ℕ) → IsLegal (record { opening = opening.now; operations = ops.now }) order
        → (v : ℕ) → Contains each v ↔ CanHold (record { opening = opening.now; operations = ops.now }) granule v)) }
    ensures unknown { IfOk result (λ found. IfUnknown found (budget.new ≡ 0)) }
    ensures spends { IfOk result (λ found. (budget.new ≤ budget.old) × LookedMore P.looked progress.old progress.new (budget.old - budget.new)) }
{
    orders_of_granules_explain();
    parts_explain();
    words_left(alloc, ops, granule, opening.word(granule), budget, progress)
}

/// Each word that a granule can hold at the end of a trace that can be explained, whatever the words that were observed there.
/// `granule` is its number, counted from address 0: its address divided by 8. `budget` is how many states may be looked at, and
/// is left with how many more might have been.
///
/// ```
/// let mut budget = 1_000_000;
/// let words = words_held(alloc, &trace, 0x1000 / 8, &mut budget, &mut NoProgress)?;
/// ```
pub fn words_held<P: Progress>(
    alloc: Global,
    trace: &Trace,
    granule: u64,
    budget: &mut u64,
    progress: &mut P,
) -> Result<Words, AllocError>
    ensures words { IfOk result (λ found. IfWords found (λ each. (order : List ℕ) → IsLegal trace.now order → (v : ℕ) → Contains each v ↔ CanHold trace.now granule v)) }
    ensures unknown { IfOk result (λ found. IfUnknown found (budget.new ≡ 0)) }
    ensures spends { IfOk result (λ found. (budget.new ≤ budget.old) × LookedMore P.looked progress.old progress.new (budget.old - budget.new)) }
{
    words_after_all(
        alloc,
        trace.opening(),
        trace.operations(),
        granule,
        budget,
        progress,
    )
}
