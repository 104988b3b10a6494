//! The granules that are watched, by their numbers.

ghost use Rattle.std.specs.Prelude.{◌≡◌, ℕ, ◌+◌, ◌^◌, ◌≤◌, Some, None, false, IfOk, IfSome, IsTrue, is_some};
ghost use Rattle.std.specs.BTreeMap.{get};
ghost use Rattle.std.specs.Ordering.{nat_cmp};
ghost use Rattle.chi_trace.specs.Granules.{granule_of};
ghost use Rattle.chi_watch.specs.Changes.{HasOneMore, GranuleBecomesKnown, GranuleBecomesUnknown, GranuleIsSettled, IsMarked, IsTouched, IsTouchedAndMarked};
ghost use Rattle.chi_search.specs.Looks.{Grew, for_verdict};
ghost use Rattle.chi_watch.specs.Followed.{FollowedValue};

use crate::followed::untouched;
use crate::kept::KeptGranule;
use crate::telling::{settle, tell, tell_final, tell_unknown, tell_word};
use chi_events::WordTold;
use chi_search::Progress;
use chi_trace::Operation;
use std::alloc::{AllocError, Global};
use std::collections::BTreeMap;

/// Watches a granule, from this word on, where it was not watched before.
pub(crate) fn touch(
    alloc: Global,
    granules: &mut BTreeMap<u64, KeptGranule>,
    granule: u64,
    word: u64,
    shown: usize,
) -> Result<(), AllocError>
    ensures { IfOk result (λ _. IsTouched shown (get nat_cmp granules.old) (get nat_cmp granules.new) granule word) }
{
    if granules.contains_key(&granule) {
        return Ok(());
    }
    let followed = Box::new(alloc, untouched(alloc, word, shown)?)?;
    let kept = KeptGranule::keep(alloc, followed)?;
    granules.insert(granule, kept)?;
    Ok(())
}

/// Tells an operation that has ended of its granule.
pub(crate) fn close<P: Progress>(
    alloc: Global,
    granules: &mut BTreeMap<u64, KeptGranule>,
    op: &Operation,
    horizon: u64,
    progress: &mut P,
) -> Result<(), AllocError>
    ensures told { IfOk result (λ _. HasOneMore op.now horizon (get nat_cmp granules.old) (get nat_cmp granules.new)) }
    ensures looked { IfOk result (λ _. Grew (P.looked for_verdict) progress.old progress.new) }
{
    let granule = op.granule();
    match granules.get_mut(&granule) {
        Some(kept) => tell(alloc, kept, op, horizon, progress),
        None => Ok(()),
    }
}

/// Tells the word that a granule holds from this time on: at the opening, or where something that is not told may have written to it.
pub(crate) fn tell_word_at(
    alloc: Global,
    granules: &mut BTreeMap<u64, KeptGranule>,
    time: u64,
    told: &WordTold,
    shown: usize,
) -> Result<(), AllocError>
    ensures { IfOk result (λ _. GranuleBecomesKnown shown time told.now (get nat_cmp granules.old) (get nat_cmp granules.new)) }
{
    touch(alloc, granules, told.granule, told.word, shown)?;
    match granules.get_mut(&told.granule) {
        Some(kept) => tell_word(alloc, kept, time, told),
        None => Ok(()),
    }
}

/// Notes the word after a granule's last request.
fn set_last(
    alloc: Global,
    granules: &mut BTreeMap<u64, KeptGranule>,
    granule: u64,
    word: u64,
) -> Result<(), AllocError>
    requires watched { IsTrue (is_some (get nat_cmp granules.now granule)) }
    ensures { IfOk result (λ _. IsMarked granule (λ f. record f { final_word = Some word }) (get nat_cmp granules.old) (get nat_cmp granules.new)) }
{
    match granules.get_mut(&granule) {
        Some(kept) => tell_final(alloc, kept, word),
        None => Ok(()),
    }
}

/// Tells the word after a granule's last request.
pub(crate) fn tell_last(
    alloc: Global,
    granules: &mut BTreeMap<u64, KeptGranule>,
    granule: u64,
    word: u64,
    shown: usize,
) -> Result<(), AllocError>
    ensures { IfOk result (λ _. IsTouchedAndMarked shown granule (λ f. record f { final_word = Some word }) (get nat_cmp granules.old) (get nat_cmp granules.new)) }
{
    touch(alloc, granules, granule, 0, shown)?;
    set_last(alloc, granules, granule, word)
}

/// Tells that something that is not told may have written to a granule from this time on.
pub(crate) fn tell_unknown_at(
    alloc: Global,
    granules: &mut BTreeMap<u64, KeptGranule>,
    granule: u64,
    time: u64,
    shown: usize,
) -> Result<(), AllocError>
    ensures { IfOk result (λ _. GranuleBecomesUnknown shown granule time (get nat_cmp granules.old) (get nat_cmp granules.new)) }
{
    touch(alloc, granules, granule, 0, shown)?;
    match granules.get_mut(&granule) {
        Some(kept) => tell_unknown(alloc, kept, time),
        None => Ok(()),
    }
}

/// Settles what was told of a granule, where it can. No operation to come starts before the horizon.
pub(crate) fn settle_granule<P: Progress>(
    alloc: Global,
    granules: &mut BTreeMap<u64, KeptGranule>,
    granule: u64,
    horizon: u64,
    progress: &mut P,
) -> Result<(), AllocError>
    ensures settled { IfOk result (λ _. GranuleIsSettled granule horizon (get nat_cmp granules.old) (get nat_cmp granules.new)) }
    ensures looked { IfOk result (λ _. Grew (P.looked for_verdict) progress.old progress.new) }
{
    match granules.get_mut(&granule) {
        Some(kept) => settle(alloc, kept, horizon, progress),
        None => Ok(()),
    }
}
