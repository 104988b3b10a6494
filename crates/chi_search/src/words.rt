//! The words that the operations of one granule can leave.

ghost use Rattle.std.specs.Prelude.{◌≡◌, ◌≢◌, ℕ, ◌-◌, ◌≤◌, ◌↔◌, IfOk};
ghost use Rattle.std.specs.List.{AllPairs, Contains};
ghost use Rattle.chi_search.specs.Found.{IfUnknown, IfWords};
ghost use Rattle.chi_search.specs.Layers.{AreReady, SomeEnds, SomeLeads};
ghost use Rattle.chi_search.specs.Looks.{LookedMore};
ghost use Rattle.chi_search.specs.Searchable.{AreSorted, AreWithin};

use crate::layer::{advance, first_layer, words_in};
use crate::order::PLAIN_STATES;
use crate::passing::moved_back;
use crate::progress::Progress;
use crate::states::States;
use chi_trace::Operation;
use std::alloc::{AllocError, Global};

/// What is found: each word that some order leaves, once; or that this is not known, since the budget was spent.
#[derive(Debug, Drop)]
pub enum Words {
    Each(Vec<u64>),
    Unknown,
}

/// How many states at least are looked at without rules.
const LEAST_PLAIN: u64 = 1024;

// So many states for each operation are looked at by rules, and no fewer than this.
const RULED_STATES: u64 = 16;

const LEAST_RULED: u64 = 32_768;

// Each word that the operations can leave from some state of the set, by rules or without them.
fn words_by<P: Progress>(
    alloc: Global,
    ops: &[Operation],
    by_rules: bool,
    from: &States,
    budget: &mut u64,
    progress: &mut P,
) -> Result<Words, AllocError>
    requires sorted { AreSorted ops.now }
    requires within { AreWithin ops.now }
    requires ready { AreReady ops.now from.now }
    ensures words { IfOk result (λ found. IfWords found (λ each. (v : ℕ) → Contains each v ↔ SomeEnds ops.now from.now v)) }
    ensures once { IfOk result (λ found. IfWords found (λ each. AllPairs (λ v w. v ≢ w) each)) }
    ensures unknown { IfOk result (λ found. IfUnknown found (budget.new ≡ 0)) }
    ensures spends { IfOk result (λ found. (budget.new ≤ budget.old) × LookedMore P.looked progress.old progress.new (budget.old - budget.new)) }
{
    // That the budget is one of 64 bits is known here once it is read.
    let _budget = *budget;
    let first = moved_back(alloc, from, 0)?;
    match advance(
        alloc,
        ops,
        None,
        by_rules,
        usize::MAX,
        first,
        budget,
        progress,
    )? {
        Some(last) => {
            let each = words_in(alloc, &last)?;
            Ok(Words::Each(each))
        }
        None => Ok(Words::Unknown),
    }
}

/// Each word that the operations can leave from some state of the set. A few states for each operation are looked at without
/// rules, then a few by rules, which take time at each, and then as many as are left without rules again.
pub(crate) fn words_from<P: Progress>(
    alloc: Global,
    ops: &[Operation],
    from: &States,
    budget: &mut u64,
    progress: &mut P,
) -> Result<Words, AllocError>
    requires sorted { AreSorted ops.now }
    requires within { AreWithin ops.now }
    requires ready { AreReady ops.now from.now }
    ensures words { IfOk result (λ found. IfWords found (λ each. (v : ℕ) → Contains each v ↔ SomeEnds ops.now from.now v)) }
    ensures once { IfOk result (λ found. IfWords found (λ each. AllPairs (λ v w. v ≢ w) each)) }
    ensures unknown { IfOk result (λ found. IfUnknown found (budget.new ≡ 0)) }
    ensures spends { IfOk result (λ found. (budget.new ≤ budget.old) × LookedMore P.looked progress.old progress.new (budget.old - budget.new)) }
{
    let count = ops.len() as u64;
    let plain = count
        .saturating_mul(PLAIN_STATES)
        .max(LEAST_PLAIN)
        .min(*budget);
    let mut left = plain;
    let found = words_by(alloc, ops, false, from, &mut left, progress)?;
    *budget -= plain - left;
    if let Words::Each(_) = found {
        return Ok(found);
    }
    let by_rules = count
        .saturating_mul(RULED_STATES)
        .max(LEAST_RULED)
        .min(*budget);
    left = by_rules;
    let found = words_by(alloc, ops, true, from, &mut left, progress)?;
    *budget -= by_rules - left;
    if let Words::Each(_) = found {
        return Ok(found);
    }
    words_by(alloc, ops, false, from, budget, progress)
}

/// Each word that the operations of one granule can leave, from some of these words on. The operations stand in the order of
/// their ends (`are_searchable`). `budget` is how many states may be looked at, and is left with how many more might have
/// been.
///
/// ```
/// let mut budget = 1_000_000;
/// match words_of(alloc, &ops, &[0], &mut budget, &mut NoProgress)? {
///     Words::Each(words) => go_on_from(&words),
///     Words::Unknown => take_more_time(),
/// }
/// ```
pub fn words_of<P: Progress>(
    alloc: Global,
    ops: &[Operation],
    words: &[u64],
    budget: &mut u64,
    progress: &mut P,
) -> Result<Words, AllocError>
    requires sorted { AreSorted ops.now }
    requires within { AreWithin ops.now }
    ensures words { IfOk result (λ found. IfWords found (λ each. (v : ℕ) → Contains each v ↔ SomeLeads ops.now words.now v)) }
    ensures once { IfOk result (λ found. IfWords found (λ each. AllPairs (λ v w. v ≢ w) each)) }
    ensures unknown { IfOk result (λ found. IfUnknown found (budget.new ≡ 0)) }
    ensures spends { IfOk result (λ found. (budget.new ≤ budget.old) × LookedMore P.looked progress.old progress.new (budget.old - budget.new)) }
{
    let first = first_layer(alloc, words)?;
    words_from(alloc, ops, &first, budget, progress)
}
