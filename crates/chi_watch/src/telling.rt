//! What is told of a granule that is watched.

ghost use Rattle.std.specs.Prelude.{◌≡◌, IfOk, Some};
ghost use Rattle.chi_search.specs.Looks.{Grew, for_verdict};
ghost use Rattle.chi_watch.specs.Changes.{CanEnd, IsHeard, IsKnownFrom, IsSettledAt, IsTold, IsUnknownSince, IsWritten};

use crate::followed::Gap;
use crate::kept::KeptGranule;
use crate::words_told::write_at;
use chi_events::WordTold;
use chi_judge::{Judge, happened_until};
use chi_search::Progress;
use chi_trace::Operation;
use std::alloc::{AllocError, Global};

/// Tells that something which is not told may have written to the granule from this time on.
pub(crate) fn tell_unknown(
    alloc: Global,
    granule: &mut KeptGranule,
    time: u64,
) -> Result<(), AllocError>
    ensures { IfOk result (λ _. IsUnknownSince granule.old.unknown_since time granule.old granule.new) }
{
    if granule.unknown_since().is_some() {
        return Ok(());
    }
    let mut followed = granule.opened(alloc)?;
    followed.judge.cut_before(alloc, time)?;
    followed.unknown_since = Some(time);
    *granule = KeptGranule::keep(alloc, followed)?;
    Ok(())
}

/// Tells a judge the write that stands for a word.
fn add_write(judge: &mut Judge, time: u64, told: &WordTold) -> Result<(), AllocError>
    ensures { IfOk result (λ _. IsWritten time told.now judge.old judge.new) }
{
    if let Some(write) = write_at(time, told) {
        judge.add(&write)?;
    }
    Ok(())
}

/// Tells the word that a granule holds from this time on, where something that is not told may have written to it.
pub(crate) fn tell_word(
    alloc: Global,
    granule: &mut KeptGranule,
    time: u64,
    told: &WordTold,
) -> Result<(), AllocError>
    ensures { IfOk result (λ _. IsKnownFrom granule.old.unknown_since time told.now granule.old granule.new) }
{
    let Some(since) = granule.unknown_since() else {
        return Ok(());
    };
    let mut followed = granule.opened(alloc)?;
    add_write(&mut followed.judge, time, told)?;
    followed.gaps.push(Gap { since, until: time })?;
    followed.unknown_since = None;
    followed.last = time;
    *granule = KeptGranule::keep(alloc, followed)?;
    Ok(())
}

/// Tells a judge an operation that has ended, as far as it had happened before a time. No operation to come starts before the
/// horizon.
fn add_heard<P: Progress>(
    alloc: Global,
    judge: &mut Judge,
    op: &Operation,
    since: Option<u64>,
    horizon: u64,
    progress: &mut P,
) -> Result<(), AllocError>
    ensures heard { IfOk result (λ _. CanEnd horizon judge.old op.now → IsHeard op.now since horizon judge.old judge.new) }
    ensures looked { IfOk result (λ _. Grew (P.looked for_verdict) progress.old progress.new) }
{
    if let Some(heard) = happened_until(op, since) {
        judge.settle(alloc, horizon, progress)?;
        judge.add(&heard)?;
    }
    Ok(())
}

/// Tells an operation of a granule that has ended, as far as all that wrote to the granule is told. No operation to come starts
/// before the horizon.
pub(crate) fn tell<P: Progress>(
    alloc: Global,
    granule: &mut KeptGranule,
    op: &Operation,
    horizon: u64,
    progress: &mut P,
) -> Result<(), AllocError>
    ensures told { IfOk result (λ _. CanEnd horizon granule.old.judge op.now → IsTold op.now horizon granule.old granule.new) }
    ensures final_word { IfOk result (λ _. granule.new.final_word ≡ granule.old.final_word) }
    ensures looked { IfOk result (λ _. Grew (P.looked for_verdict) progress.old progress.new) }
{
    let since = granule.unknown_by(op.start);
    let mut followed = granule.opened(alloc)?;
    add_heard(alloc, &mut followed.judge, op, since, horizon, progress)?;
    followed.last = op.end;
    *granule = KeptGranule::keep(alloc, followed)?;
    Ok(())
}

/// Tells the word after a granule's last request.
pub(crate) fn tell_final(
    alloc: Global,
    granule: &mut KeptGranule,
    word: u64,
) -> Result<(), AllocError>
    ensures { IfOk result (λ _. granule.new ≡ record granule.old { final_word = Some word }) }
{
    let mut followed = granule.opened(alloc)?;
    followed.final_word = Some(word);
    *granule = KeptGranule::keep(alloc, followed)?;
    Ok(())
}

/// Settles what was told of a granule, where it can, so that little is kept of it. No operation to come starts before the horizon.
pub(crate) fn settle<P: Progress>(
    alloc: Global,
    granule: &mut KeptGranule,
    horizon: u64,
    progress: &mut P,
) -> Result<(), AllocError>
    ensures settled { IfOk result (λ _. IsSettledAt horizon granule.old granule.new) }
    ensures looked { IfOk result (λ _. Grew (P.looked for_verdict) progress.old progress.new) }
{
    let mut followed = granule.opened(alloc)?;
    followed.judge.settle_all(alloc, horizon, progress)?;
    *granule = KeptGranule::keep(alloc, followed)?;
    Ok(())
}
