//! The operation that ended by an event, if one did.

ghost use Rattle.std.specs.Prelude.{◌≤◌, IfOk};
ghost use Rattle.std.specs.BTreeMap.{get};
ghost use Rattle.std.specs.Ordering.{nat_cmp};
ghost use Rattle.chi_trace.specs.Granules.{granule_of};
ghost use Rattle.chi_watch.specs.Changes.{IsClosedBy};
ghost use Rattle.chi_events.specs.Granules.{StartsBy};
ghost use Rattle.chi_search.specs.Looks.{Grew, for_verdict};

use crate::granules::close;
use crate::kept::KeptGranule;
use chi_events::Outstanding;
use chi_search::Progress;
use chi_trace::Operation;
use std::alloc::{AllocError, Global};
use std::collections::BTreeMap;

/// The time before which no operation of the granule starts that is still to end; or 0, where it is not looked at what had
/// happened before it.
fn horizon_of(outstanding: &Outstanding, op: &Operation, looks: bool) -> u64
    ensures time { result ≤ op.now.start }
    ensures starts { StartsBy outstanding.now.requests (granule_of op.now) result }
{
    if looks {
        outstanding.earliest(op.granule(), op.start)
    } else {
        0
    }
}

/// Tells the operation that ended of its granule, while these requests are outstanding.
pub(crate) fn close_ended<P: Progress>(
    alloc: Global,
    granules: &mut BTreeMap<u64, KeptGranule>,
    outstanding: &Outstanding,
    ended: &Option<Operation>,
    looks: bool,
    progress: &mut P,
) -> Result<(), AllocError>
    ensures closed { IfOk result (λ _. IsClosedBy ended.now outstanding.now.requests (get nat_cmp granules.old) (get nat_cmp granules.new)) }
    ensures looked { IfOk result (λ _. Grew (P.looked for_verdict) progress.old progress.new) }
{
    let Some(op) = ended else {
        return Ok(());
    };
    let horizon = horizon_of(outstanding, op, looks);
    close(alloc, granules, op, horizon, progress)
}
