//! Which operations may be the ones whose answer is wrong.

ghost use Rattle.std.specs.Prelude.{◌≡◌, ◌<◌, ◌⊎◌, ℕ, false, All, IfOk, IsTrue, length};
ghost use Rattle.std.specs.List.{Contains};
ghost use Rattle.chi_search.specs.Looks.{LookedAtLeast, LookedSome};
ghost use Rattle.chi_trace.specs.Explains.{at};
ghost use Rattle.chi_judge.specs.Legal.{IsAnsweredAt, IsSuspectAt, MayBeSuspectAt};

use crate::legal::order_with;
use chi_search::{Found, Frontier, Progress};
use chi_trace::Operation;
use std::alloc::{AllocError, Global};

/// Whether the operation at a place was answered at the time, and without its answer the search is seen to go on to a word by then.
fn is_suspect<P: Progress>(
    alloc: Global,
    before: &Frontier,
    ops: &[Operation],
    time: u64,
    place: usize,
    budget: u64,
    progress: &mut P,
) -> Result<bool, AllocError>
    requires { place < length ops.now }
    ensures suspect { IfOk result (λ is. IsTrue is → IsSuspectAt before.now ops.now time place) }
    ensures other { IfOk result (λ is. is ≡ false → MayBeSuspectAt before.now ops.now time place → LookedAtLeast P.looked progress.old progress.new budget) }
    ensures looked { IfOk result (λ _. LookedSome P.looked progress.old progress.new) }
{
    let op = &ops[place];
    if op.end != time || op.reply.is_none() {
        return Ok(false);
    }
    match order_with(alloc, before, ops, time, place, None, budget, progress)? {
        Found::Order(_) => Ok(true),
        Found::Nothing => Ok(false),
        Found::Undecided => Ok(false),
    }
}

/// The number of the request of the operation at a place.
pub(crate) fn number_at(ops: &[Operation], place: usize) -> u64
    ensures { result ≡ (at ops.now place).number }
{
    match ops.get(place) {
        Some(op) => op.number,
        None => 0,
    }
}

/// The places of the operations that were answered at the time, without the answer of each of which the search is seen to go on to
/// a word by then, within so many states each. They stand in the order of their requests.
pub(crate) fn suspects_at<P: Progress>(
    alloc: Global,
    before: &Frontier,
    ops: &[Operation],
    time: u64,
    budget: u64,
    progress: &mut P,
) -> Result<Vec<usize>, AllocError>
    ensures within { IfOk result (λ places. All (λ i. i < length ops.now) places.items) }
    ensures answered { IfOk result (λ places. All (IsAnsweredAt ops.now time) places.items) }
    ensures suspects { IfOk result (λ places. All (IsSuspectAt before.now ops.now time) places.items) }
    ensures all { IfOk result (λ places. (i : ℕ) → i < length ops.now → MayBeSuspectAt before.now ops.now time i → Contains places.items i ⊎ LookedAtLeast P.looked progress.old progress.new budget) }
    ensures looked { IfOk result (λ _. LookedSome P.looked progress.old progress.new) }
{
    let mut places = Vec::new(alloc);
    for place in 0..ops.len() {
        if is_suspect(alloc, before, ops, time, place, budget, progress)? {
            places.push(place)?;
        }
    }
    places.sort_by_key(|place| number_at(ops, *place))?;
    Ok(places)
}
