//! Which granule of a trace stops being explained before others do.

ghost use Rattle.std.specs.Prelude.{◌≡◌, ◌<◌, ◌≤◌, All, IfOk, IfSome, IsPermutation};
ghost use Rattle.std.specs.List.{filter};
ghost use Rattle.std.specs.List.Sorted.{IsNonDecreasingBy};
ghost use Rattle.chi_search.specs.Looks.{LookedSome};
ghost use Rattle.chi_trace.specs.AtPlaces.{is_in};
ghost use Rattle.chi_trace.specs.Explains.{IsOperation, IsTrace};
ghost use Rattle.chi_trace.specs.Granules.{granule_of};
ghost use Rattle.chi_trace.specs.Words.{word_or_zero};
ghost use Rattle.chi_judge.specs.Reaches.{IsExplained};

use crate::first::{Failing, stop_of};
use chi_judge::{Judge, Standing};
use chi_search::Progress;
use chi_trace::laws::granules_stand_alone;
use chi_trace::{GranuleWords, Operation, cut};
use std::alloc::{AllocError, Global};

/// Operations, sorted by their granules.
fn by_granules(alloc: Global, ops: &[Operation]) -> Result<Vec<Operation>, AllocError>
    ensures moved { IfOk result (λ sorted. IsPermutation ops.now sorted.items) }
    ensures sorted { IfOk result (λ sorted. IsNonDecreasingBy (λ (op : Operation). granule_of op) sorted.items) }
{
    let mut sorted = Vec::from_slice(alloc, ops)?;
    sorted.sort_by_key(|op| op.granule())?;
    Ok(sorted)
}

/// A granule's operations as a trace, of operations that are sorted by their granules.
fn own_trace(
    alloc: Global,
    sorted: &[Operation],
    granule: u64,
) -> Result<Vec<Operation>, AllocError>
    requires sorted { IsNonDecreasingBy (λ (op : Operation). granule_of op) sorted.now }
    requires observed { All IsOperation sorted.now }
    ensures moved { IfOk result (λ own. IsPermutation (filter (is_in granule) sorted.now) own.items) }
    ensures traced { IfOk result (λ own. IsTrace own.items) }
{
    let from = sorted.partition_point(|op| op.granule() < granule);
    let rest = &sorted[from..];
    let count = rest.partition_point(|op| op.granule() <= granule);
    let mut own = Vec::from_slice(alloc, &rest[..count])?;
    own.sort_by_key(|op| op.start)?;
    Ok(own)
}

/// A time before this one up to which a granule's operations, told as a trace of their own, are not explained: the first, where one is
/// found.
fn own_stop<P: Progress>(
    alloc: Global,
    opening: &GranuleWords,
    own: &[Operation],
    granule: u64,
    time: u64,
    budget: u64,
    progress: &mut P,
) -> Result<Option<u64>, AllocError>
    requires { IsTrace own.now }
    ensures before { IfOk result (λ found. IfSome found (λ stop. stop < time)) }
    ensures unexplained { IfOk result (λ found. IfSome found (λ stop. IsExplained stop own.now granule (word_or_zero opening.now granule) → ⊥)) }
    ensures looked { IfOk result (λ _. LookedSome P.looked progress.old progress.new) }
{
    if time == 0 {
        return Ok(None);
    }
    let known = cut(alloc, own, time - 1)?;
    let word = opening.word(granule);
    let judge = Judge::of_trace(alloc, &known, granule, word, 0)?;
    match judge.check(alloc, None, budget, progress)? {
        Standing::Unexplained => {
            let failing = Failing {
                granule,
                time: time - 1,
            };
            match stop_of(alloc, opening, own, failing, 0, budget, progress)? {
                Some(stop) => Ok(Some(stop.time)),
                None => Ok(None),
            }
        }
        Standing::Explained => Ok(None),
        Standing::Undecided => Ok(None),
    }
}

/// The same of a granule among operations that are sorted by their granules.
fn stop_among<P: Progress>(
    alloc: Global,
    opening: &GranuleWords,
    sorted: &[Operation],
    granule: u64,
    time: u64,
    budget: u64,
    progress: &mut P,
) -> Result<Option<u64>, AllocError>
    requires sorted { IsNonDecreasingBy (λ (op : Operation). granule_of op) sorted.now }
    requires observed { All IsOperation sorted.now }
    ensures before { IfOk result (λ found. IfSome found (λ stop. stop < time)) }
    ensures unexplained { IfOk result (λ found. IfSome found (λ stop. IsExplained stop sorted.now granule (word_or_zero opening.now granule) → ⊥)) }
    ensures looked { IfOk result (λ _. LookedSome P.looked progress.old progress.new) }
{
    granules_stand_alone();
    let own = own_trace(alloc, sorted, granule)?;
    own_stop(alloc, opening, &own, granule, time, budget, progress)
}

/// Of a granule whose operations are not explained up to a time, and of the later ones, one that is found to stop first, with a time up
/// to which it is not explained. Each is only looked at up to the earliest time so far.
pub(crate) fn earliest<P: Progress>(
    alloc: Global,
    opening: &GranuleWords,
    ops: &[Operation],
    failing: Failing,
    budget: u64,
    progress: &mut P,
) -> Result<Failing, AllocError>
    requires traced { IsTrace ops.now }
    requires unexplained { IsExplained failing.time ops.now failing.granule (word_or_zero opening.now failing.granule) → ⊥ }
    ensures by { IfOk result (λ first. first.time ≤ failing.time) }
    ensures unexplained { IfOk result (λ first. IsExplained first.time ops.now first.granule (word_or_zero opening.now first.granule) → ⊥) }
    ensures looked { IfOk result (λ _. LookedSome P.looked progress.old progress.new) }
{
    granules_stand_alone();
    let sorted = by_granules(alloc, ops)?;
    let mut first = failing;
    let mut next = failing.granule;
    for op in &sorted {
        let granule = op.granule();
        if granule >= next {
            next = granule.saturating_add(1);
            let found = stop_among(
                alloc, opening, &sorted, granule, first.time, budget, progress,
            )?;
            if let Some(time) = found {
                first = Failing { granule, time };
            }
        }
    }
    Ok(first)
}
