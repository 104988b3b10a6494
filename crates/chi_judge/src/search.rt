//! A search that is told more operations.

ghost use Rattle.std.specs.Prelude.{◌≡◌, ◌+◌, ◌-◌, ◌≤◌, ◌<◌, ◌⊎◌, ℕ, ◌++◌, ◌↔◌, List, All, None, IfOk, IfSome, length, take};
ghost use Rattle.std.specs.List.{Contains};
ghost use Rattle.chi_search.specs.Found.{IfNothing, IfOrder, IfUndecided, IfUnknown, IfWords};
ghost use Rattle.chi_search.specs.Frontiers.{Follows, GoesAlong, MayBeTold};
ghost use Rattle.chi_search.specs.Layers.{SomeLeads};
ghost use Rattle.chi_search.specs.Looks.{LookedMore, LookedSome};
ghost use Rattle.chi_trace.specs.Cuts.{cut};
ghost use Rattle.chi_trace.specs.Explains.{at};
ghost use Rattle.chi_trace.specs.Segments.{AreLasting};
ghost use Rattle.chi_trace.specs.declared.operation.Operation.{Operation};
ghost use Rattle.chi_judge.specs.Judges.{GoesNowhere, GoesOn, IsEndOfSome, LeadsBy, LiesWithin};

use crate::later_makers::makers_after;
use chi_search::{Found, Frontier, Progress, Words};
use chi_trace::{Operation, cut, operations_at};
use std::alloc::{AllocError, Global};

/// The search once more operations are told, one after the other. There is none where one of them cannot be told next.
pub(crate) fn told_after(
    alloc: Global,
    before: &Frontier,
    more: &[Operation],
) -> Result<Option<Frontier>, AllocError>
    ensures follows { IfOk result (λ after. IfSome after (λ frontier. (words : List ℕ) (told : List Operation) → Follows words told before.now → Follows words (told ++ more.now) frontier)) }
    ensures along { IfOk result (λ after. IfSome after (λ frontier. (words : List ℕ) (told : List Operation) → GoesAlong words told before.now → GoesAlong words (told ++ more.now) frontier)) }
    ensures operations { IfOk result (λ after. IfSome after (λ frontier. frontier.operations ≡ before.now.operations ++ more.now)) }
    ensures next { IfOk result (λ after. IfSome after (λ frontier. (rest : List Operation) → MayBeTold before.now (more.now ++ rest) → MayBeTold frontier rest)) }
    ensures horizon { IfOk result (λ after. IfSome after (λ frontier. frontier.horizon ≡ before.now.horizon)) }
    ensures latest { IfOk result (λ after. IfSome after (λ frontier. (time : ℕ) → before.now.latest ≤ time → All (λ op. op.end ≤ time) more.now → frontier.latest ≤ time)) }
    ensures refused { IfOk result (λ after. after ≡ None → MayBeTold before.now more.now → All LiesWithin more.now → ⊥) }
{
    let mut after = before.copy(alloc)?;
    for op in more {
        if !after.add(op)? {
            return Ok(None);
        }
    }
    Ok(Some(after))
}

/// Each word that is left once more operations are told, one after the other. They are not known where the budget was spent,
/// or one of them cannot be told next.
pub(crate) fn words_after<P: Progress>(
    alloc: Global,
    before: &Frontier,
    more: &[Operation],
    budget: &mut u64,
    progress: &mut P,
) -> Result<Words, AllocError>
    ensures words { IfOk result (λ found. IfWords found (λ each. (words : List ℕ) (told : List Operation) → Follows words told before.now → (v : ℕ) → Contains each v ↔ SomeLeads (told ++ more.now) words v)) }
    ensures unknown { IfOk result (λ found. IfUnknown found (MayBeTold before.now more.now → All LiesWithin more.now → budget.new ≡ 0)) }
    ensures spends { IfOk result (λ _. (budget.new ≤ budget.old) × LookedMore P.looked progress.old progress.new (budget.old - budget.new)) }
{
    match told_after(alloc, before, more)? {
        Some(after) => after.words(alloc, budget, progress),
        None => Ok(Words::Unknown),
    }
}

/// The same by a time: of the operations that had started, with the replies of those that had ended.
pub(crate) fn words_by<P: Progress>(
    alloc: Global,
    before: &Frontier,
    more: &[Operation],
    time: u64,
    budget: &mut u64,
    progress: &mut P,
) -> Result<Words, AllocError>
    ensures words { IfOk result (λ found. IfWords found (λ each. (words : List ℕ) (told : List Operation) → Follows words told before.now → (v : ℕ) → Contains each v ↔ SomeLeads (told ++ cut time more.now) words v)) }
    ensures unknown { IfOk result (λ found. IfUnknown found (MayBeTold before.now more.now → All LiesWithin more.now → budget.new ≡ 0)) }
    ensures spends { IfOk result (λ _. (budget.new ≤ budget.old) × LookedMore P.looked progress.old progress.new (budget.old - budget.new)) }
{
    let known = cut(alloc, more, time)?;
    words_after(alloc, before, &known, budget, progress)
}

/// Whether the search goes on to some word once more operations are told, one after the other: an order says that it does. It is
/// undecided where the budget was spent, or one of them cannot be told next.
pub(crate) fn order_after<P: Progress>(
    alloc: Global,
    before: &Frontier,
    more: &[Operation],
    budget: u64,
    progress: &mut P,
) -> Result<Found, AllocError>
    ensures order { IfOk result (λ found. IfOrder found (λ order. GoesOn before.now more.now)) }
    ensures along { IfOk result (λ found. IfOrder found (λ order. (words : List ℕ) (told : List Operation) → GoesAlong words told before.now → (v : ℕ) × SomeLeads (told ++ more.now) words v)) }
    ensures nothing { IfOk result (λ found. IfNothing found (GoesNowhere before.now more.now)) }
    ensures undecided { IfOk result (λ found. IfUndecided found (MayBeTold before.now more.now → All LiesWithin more.now → LookedMore P.looked progress.old progress.new budget)) }
    ensures looked { IfOk result (λ _. LookedSome P.looked progress.old progress.new) }
{
    let mut left = budget;
    match told_after(alloc, before, more)? {
        Some(after) => after.order(alloc, None, &mut left, progress),
        None => Ok(Found::Undecided),
    }
}

/// The same by a time, of a search along an order of operations: an order says that what had happened by then is explained.
pub(crate) fn order_until<P: Progress>(
    alloc: Global,
    from: &Frontier,
    time: u64,
    budget: u64,
    progress: &mut P,
) -> Result<Found, AllocError>
    ensures explained { IfOk result (λ found. IfOrder found (λ order. (words : List ℕ) (told : List Operation) → AreLasting told → GoesAlong words told from.now → LeadsBy time words told)) }
    ensures looked { IfOk result (λ _. LookedSome P.looked progress.old progress.new) }
{
    let makers = makers_after(alloc, from.operations(), time)?;
    order_after(alloc, from, &makers, budget, progress)
}

/// The same by a time: of the operations that had started, with the replies of those that had ended.
pub(crate) fn order_by<P: Progress>(
    alloc: Global,
    before: &Frontier,
    more: &[Operation],
    time: u64,
    budget: u64,
    progress: &mut P,
) -> Result<Found, AllocError>
    ensures order { IfOk result (λ found. IfOrder found (λ order. GoesOn before.now (cut time more.now))) }
    ensures nothing { IfOk result (λ found. IfNothing found (GoesNowhere before.now (cut time more.now))) }
    ensures undecided { IfOk result (λ found. IfUndecided found (MayBeTold before.now more.now → All LiesWithin more.now → LookedMore P.looked progress.old progress.new budget)) }
    ensures looked { IfOk result (λ _. LookedSome P.looked progress.old progress.new) }
{
    let known = cut(alloc, more, time)?;
    order_after(alloc, before, &known, budget, progress)
}

/// The last operations, so many at most, of an order of what had happened by a time. There are none where no order is found.
pub(crate) fn end_of_order_by<P: Progress>(
    alloc: Global,
    before: &Frontier,
    more: &[Operation],
    time: u64,
    most: usize,
    budget: u64,
    progress: &mut P,
) -> Result<Option<Vec<Operation>>, AllocError>
    ensures last { IfOk result (λ found. IfSome found (λ last. IsEndOfSome before.now (cut time more.now) most last.items)) }
    ensures none { IfOk result (λ found. found ≡ None → GoesNowhere before.now (cut time more.now) ⊎ (MayBeTold before.now more.now → All LiesWithin more.now → LookedMore P.looked progress.old progress.new budget)) }
    ensures looked { IfOk result (λ _. LookedSome P.looked progress.old progress.new) }
{
    let known = cut(alloc, more, time)?;
    let Some(after) = told_after(alloc, before, &known)? else {
        return Ok(None);
    };
    let mut left = budget;
    match after.order(alloc, None, &mut left, progress)? {
        Found::Order(order) => {
            let from = order.len().saturating_sub(most);
            Ok(Some(operations_at(alloc, after.operations(), &order[from..])?))
        }
        Found::Nothing => Ok(None),
        Found::Undecided => Ok(None),
    }
}
