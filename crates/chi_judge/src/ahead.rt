//! Searches along orders, which go on while a granule is never quiet.

ghost use Rattle.std.specs.Prelude.{ℕ, ◌++◌, List, All, IfOk, IfSome};
ghost use Rattle.chi_trace.specs.declared.operation.Operation.{Operation};
ghost use Rattle.chi_search.specs.Frontiers.{Follows, GoesAlong};
ghost use Rattle.chi_search.specs.Looks.{LookedSome};
ghost use Rattle.chi_trace.specs.Segments.{AreLasting};
ghost use Rattle.chi_judge.specs.Judges.{LeadsBy};

use crate::judge::FEW;
use crate::search::{order_until, told_after};
use chi_search::{Found, Frontier, Progress};
use chi_trace::Operation;
use std::alloc::{AllocError, Global};

/// How many are kept at most.
const MOST: usize = 2;

/// How far back one may stand from which a search goes on.
const BACK: [usize; 2] = [1, 2];

/// How many of the last operations of an order a search does not go along, since what is told later decides how they stand.
const LAST: usize = 24;

/// The searches that are told more operations, one after the other: those that can be.
pub(crate) fn each_told(
    alloc: Global,
    searches: &[Frontier],
    more: &[Operation],
) -> Result<Vec<Frontier>, AllocError>
    ensures { IfOk result (λ each. (words : List ℕ) (told : List Operation) → All (GoesAlong words told) searches.now → All (GoesAlong words (told ++ more.now)) each.items) }
{
    let mut each = Vec::new(alloc);
    for search in searches {
        if let Some(next) = told_after(alloc, search, more)? {
            each.push(next)?;
        }
    }
    Ok(each)
}

// An order up to the last operations that had ended by a time; the whole order where they are few and all had ended. They stand in the
// order of their ends.
fn settled_part<'a>(ops: &[Operation], order: &'a [usize], time: u64) -> &'a [usize] {
    if order.len() <= LAST && ops.last().is_some_and(|op| op.end <= time) {
        return order;
    }
    let mut settled = 0;
    for (count, place) in order.iter().enumerate() {
        if ops.get(*place).is_some_and(|op| op.end <= time) {
            settled = count.saturating_add(1);
        }
    }
    order.get(..settled.saturating_sub(LAST)).unwrap_or(order)
}

/// The search along the most of an order of what had happened by a time, from where this one stands, where there is one within so
/// many states. It is told where they were too few to say so.
pub(crate) fn next_along<P: Progress>(
    alloc: Global,
    from: &Frontier,
    time: u64,
    budget: u64,
    is_undecided: &mut bool,
    progress: &mut P,
) -> Result<Option<Frontier>, AllocError>
    ensures along { IfOk result (λ next. IfSome next (λ f. (words : List ℕ) (told : List Operation) → GoesAlong words told from.now → GoesAlong words told f)) }
    ensures leads { IfOk result (λ next. IfSome next (λ f. (words : List ℕ) (told : List Operation) → AreLasting told → GoesAlong words told from.now → LeadsBy time words told)) }
    ensures looked { IfOk result (λ _. LookedSome P.looked progress.old progress.new) }
{
    match order_until(alloc, from, time, budget, progress)? {
        Found::Order(order) => {
            let part = settled_part(from.operations(), &order, time);
            from.after(alloc, part)
        }
        Found::Nothing => Ok(None),
        Found::Undecided => {
            *is_undecided = true;
            Ok(None)
        }
    }
}

// The search along an order from the start: from before the operations that are kept.
fn first_along<P: Progress>(
    alloc: Global,
    before: &Frontier,
    kept: &[Operation],
    time: u64,
    budget: u64,
    progress: &mut P,
) -> Result<Option<Frontier>, AllocError>
    ensures along { IfOk result (λ next. IfSome next (λ f. (words : List ℕ) (told : List Operation) → Follows words told before.now → GoesAlong words (told ++ kept.now) f)) }
    ensures leads { IfOk result (λ next. IfSome next (λ f. (words : List ℕ) (told : List Operation) → AreLasting (told ++ kept.now) → Follows words told before.now → LeadsBy time words (told ++ kept.now))) }
    ensures looked { IfOk result (λ _. LookedSome P.looked progress.old progress.new) }
{
    match told_after(alloc, before, kept)? {
        Some(from) => next_along(alloc, &from, time, budget, &mut false, progress),
        None => Ok(None),
    }
}

// The search along an order from one of these, of which all were told all that is kept: from the last, or the one that stands before
// it, within twice as many states; where it may wait not from that one before it is clear that none goes on from the last. With it
// how many of these there are up to the one that it goes on from. It is told where the states were too few.
fn further_along<P: Progress>(
    alloc: Global,
    searches: &[Frontier],
    time: u64,
    budget: u64,
    waits: bool,
    is_undecided: &mut bool,
    progress: &mut P,
) -> Result<Option<(usize, Frontier)>, AllocError>
    ensures along { IfOk result (λ found. IfSome found (λ next. (words : List ℕ) (told : List Operation) → All (GoesAlong words told) searches.now → GoesAlong words told next.1)) }
    ensures leads { IfOk result (λ found. IfSome found (λ next. (words : List ℕ) (told : List Operation) → AreLasting told → All (GoesAlong words told) searches.now → LeadsBy time words told)) }
    ensures looked { IfOk result (λ _. LookedSome P.looked progress.old progress.new) }
{
    let mut share = budget;
    for back in BACK {
        if waits && *is_undecided {
            break;
        }
        let Some(place) = searches.len().checked_sub(back) else {
            break;
        };
        let Some(from) = searches.get(place) else {
            break;
        };
        if let Some(next) = next_along(alloc, from, time, share, is_undecided, progress)? {
            return Ok(Some((place + 1, next)));
        }
        share = share.saturating_mul(2);
    }
    Ok(None)
}

/// The search along an order of what had happened by a time: from one of these, which all were told all that is kept, or from the
/// start. With it how many of these it goes on from. Where it may wait and an order may still go on from one of these it does not
/// begin at the start.
pub(crate) fn found_along<P: Progress>(
    alloc: Global,
    before: &Frontier,
    kept: &[Operation],
    searches: &[Frontier],
    time: u64,
    budget: u64,
    from_start: u64,
    waits: &mut bool,
    progress: &mut P,
) -> Result<Option<(usize, Frontier)>, AllocError>
    ensures along { IfOk result (λ found. IfSome found (λ next. (words : List ℕ) (told : List Operation) → Follows words told before.now → All (GoesAlong words (told ++ kept.now)) searches.now → GoesAlong words (told ++ kept.now) next.1)) }
    ensures leads { IfOk result (λ found. IfSome found (λ next. (words : List ℕ) (told : List Operation) → AreLasting (told ++ kept.now) → Follows words told before.now → All (GoesAlong words (told ++ kept.now)) searches.now → LeadsBy time words (told ++ kept.now))) }
    ensures looked { IfOk result (λ _. LookedSome P.looked progress.old progress.new) }
{
    let mut is_undecided = false;
    if let Some(found) = further_along(
        alloc,
        searches,
        time,
        budget,
        *waits,
        &mut is_undecided,
        progress,
    )? {
        return Ok(Some(found));
    }
    *waits = *waits && is_undecided;
    if *waits {
        return Ok(None);
    }
    match first_along(alloc, before, kept, time, from_start, progress)? {
        Some(next) => Ok(Some((0, next))),
        None => Ok(None),
    }
}

/// Keeps the first so many, and one more. The first is left out where they are too many.
pub(crate) fn keep_along(
    searches: &mut Vec<Frontier>,
    count: usize,
    next: Frontier,
) -> Result<(), AllocError>
    ensures { IfOk result (λ _. (words : List ℕ) (told : List Operation) → All (GoesAlong words told) searches.old.items → GoesAlong words told next → All (GoesAlong words told) searches.new.items) }
{
    searches.truncate(count);
    if searches.len() >= MOST {
        searches.remove(0);
    }
    searches.push(next)?;
    Ok(())
}

/// Leaves all out where so few operations are kept, since an order is soon found from the start then.
pub(crate) fn leave_where_few(alloc: Global, searches: &mut Vec<Frontier>, kept: usize)
    ensures { (words : List ℕ) (told : List Operation) → All (GoesAlong words told) searches.old.items → All (GoesAlong words told) searches.new.items }
{
    if kept < FEW {
        *searches = Vec::new(alloc);
    }
}
