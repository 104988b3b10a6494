//! The search of one granule's operations in a trace.

ghost use Rattle.std.specs.Prelude.{◌≡◌, ℕ, ◌-◌, ◌≤◌, ◌↔◌, List, Some, IfOk};
ghost use Rattle.std.specs.List.{Contains};
ghost use Rattle.chi_search.specs.Found.{IfNothing, IfOrder, IfUndecided, IfUnknown, IfWords};
ghost use Rattle.chi_search.specs.Looks.{LookedMore};
ghost use Rattle.chi_trace.specs.AtPlaces.{at_places};
ghost use Rattle.chi_trace.specs.Explains.{IsTrace};
ghost use Rattle.chi_trace.specs.Granules.{ExplainsGranule, is_of};
ghost use Rattle.chi_verdict.specs.Groups.{AreInside, IsGrouped, places_of};

use crate::grouping::{Placed, of_granule};
use chi_search::{Found, Progress, Words, order_of, words_of};
use chi_trace::Operation;
use chi_trace::laws::places_explain;
use std::alloc::{AllocError, Global};

/// The operations at these places.
fn at_places(alloc: Global, ops: &[Operation], run: &[Placed]) -> Result<Vec<Operation>, AllocError>
    requires { AreInside ops.now run.now }
    ensures { IfOk result (λ own. own.items ≡ at_places ops.now (places_of run.now)) }
{
    let mut own = Vec::with_capacity(alloc, run.len())?;
    for placed in run {
        own.push(ops[placed.place])?;
    }
    Ok(own)
}

/// A granule by its number, and the places of its operations.
#[derive(Clone, Copy)]
pub(crate) struct Group<'a> {
    pub granule: u64,
    pub run: &'a [Placed],
}

/// Searches for an order of one granule's operations, which stand at these places. `budget` is how many states may be looked
/// at, and is left with how many more might have been.
pub(crate) fn search_granule<P: Progress>(
    alloc: Global,
    ops: &[Operation],
    group: &Group,
    word: u64,
    final_word: Option<u64>,
    budget: &mut u64,
    progress: &mut P,
) -> Result<Found, AllocError>
    requires traced { IsTrace ops.now }
    requires grouped { IsGrouped ops.now (is_of ops.now group.now.granule) group.now.run.now }
    ensures order { IfOk result (λ found. IfOrder found (λ order. ExplainsGranule ops.now group.now.granule word final_word order)) }
    ensures nothing { IfOk result (λ found. IfNothing found ((order : List ℕ) → ExplainsGranule ops.now group.now.granule word final_word order → ⊥)) }
    ensures undecided { IfOk result (λ found. IfUndecided found (budget.new ≡ 0)) }
    ensures spends { IfOk result (λ found. (budget.new ≤ budget.old) × LookedMore P.looked progress.old progress.new (budget.old - budget.new)) }
{
    let run = group.run;
    let own = at_places(alloc, ops, run)?;
    places_explain();
    match order_of(alloc, &own, word, final_word, budget, progress)? {
        Found::Order(places) => {
            let mut order = Vec::with_capacity(alloc, places.len())?;
            for place in &places {
                order.push(run[*place].place)?;
            }
            Ok(Found::Order(order))
        }
        Found::Nothing => Ok(Found::Nothing),
        Found::Undecided => Ok(Found::Undecided),
    }
}

/// Each word that the operations of one granule can leave, from a word on.
pub(crate) fn words_left<P: Progress>(
    alloc: Global,
    ops: &[Operation],
    granule: u64,
    word: u64,
    budget: &mut u64,
    progress: &mut P,
) -> Result<Words, AllocError>
    requires traced { IsTrace ops.now }
    ensures words { IfOk result (λ found. IfWords found (λ each. (v : ℕ) → Contains each v ↔ ((order : List ℕ) × ExplainsGranule ops.now granule word (Some v) order))) }
    ensures unknown { IfOk result (λ found. IfUnknown found (budget.new ≡ 0)) }
    ensures spends { IfOk result (λ found. (budget.new ≤ budget.old) × LookedMore P.looked progress.old progress.new (budget.old - budget.new)) }
{
    let run = of_granule(alloc, ops, granule)?;
    let own = at_places(alloc, ops, &run)?;
    places_explain();
    words_of(alloc, &own, &[word], budget, progress)
}
