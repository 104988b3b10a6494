//! What an event changes of the granules that are followed.

ghost use Rattle.std.specs.Prelude.{ℕ, ◌+◌, ◌^◌, ◌<◌, ◌≤◌, IfOk};
ghost use Rattle.std.specs.BTreeMap.{get};
ghost use Rattle.std.specs.Ordering.{nat_cmp};
ghost use Rattle.chi_events.specs.declared.event.EventKind.{EventKind};
ghost use Rattle.chi_watch.specs.Changes.{HasLength, BecomesUnknownWhere, IsUpdated};
ghost use Rattle.chi_watch.specs.WordsTold.{covers};

use crate::granules::{tell_last, tell_unknown_at, tell_word_at, touch};
use crate::kept::KeptGranule;
use chi_events::EventKind;
use std::alloc::{AllocError, Global};
use std::collections::BTreeMap;

/// Tells that something that is not told may have written to the granules of so many bytes from an address on, from this time on.
fn tell_each_unknown(
    alloc: Global,
    granules: &mut BTreeMap<u64, KeptGranule>,
    addr: u64,
    length: u64,
    time: u64,
    shown: usize,
) -> Result<(), AllocError>
    requires { (0 < length) × (addr + length ≤ 2 ^ 52) }
    ensures { IfOk result (λ _. (g : ℕ) → BecomesUnknownWhere shown (covers g (EventKind.Unknown addr length)) time (get nat_cmp granules.old g) (get nat_cmp granules.new g)) }
{
    let end = (addr + length - 1) / 8 + 1;
    for granule in addr / 8..end {
        tell_unknown_at(alloc, granules, granule, time, shown)?;
    }
    Ok(())
}

/// Updates the granules by an event of this time. Of one that is watched from now on so many operations are shown at most.
pub(crate) fn update_granules(
    alloc: Global,
    granules: &mut BTreeMap<u64, KeptGranule>,
    time: u64,
    kind: &EventKind,
    shown: usize,
) -> Result<(), AllocError>
    requires { HasLength kind.now }
    ensures { IfOk result (λ _. IsUpdated shown time kind.now (get nat_cmp granules.old) (get nat_cmp granules.new)) }
{
    match kind {
        EventKind::Request(request) => touch(alloc, granules, request.fields.addr / 8, 0, shown),
        EventKind::Word(told) => tell_word_at(alloc, granules, time, told, shown),
        EventKind::Final(told) => tell_last(alloc, granules, told.granule, told.word, shown),
        EventKind::Unknown { addr, length } => {
            tell_each_unknown(alloc, granules, *addr, *length, time, shown)
        }
        _ => Ok(()),
    }
}
