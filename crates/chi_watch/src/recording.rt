//! Events that a watch takes without judging, and what it knows of them then.

ghost use Rattle.std.specs.Prelude.{◌≡◌, ◌≢◌, List, None, Some, IfErr, IfOk};
ghost use Rattle.chi_events.specs.declared.event.Event.{Event};
ghost use Rattle.chi_watch.specs.Judged.{unknown_at, unknown_since};
ghost use Rattle.chi_watch.specs.Watches.{HasTaken, Takes, fault_of, unknown_in};

use crate::fault::WatchFault;
use crate::watch::Watch;
use chi_events::{Event, Outstanding};
use chi_search::NoProgress;
use chi_trace::Operation;
use std::alloc::Global;

impl Watch {
    /// Takes an event, where it can come next, and judges nothing: the operation that ended by it, if one did. All that is told is
    /// kept. Use `take` where a granule is to be judged as soon as it can be.
    ///
    /// ```
    /// let ended = watch.record(alloc, &event)?;
    /// ```
    pub fn record(&mut self, alloc: Global, event: &Event) -> Result<Option<Operation>, WatchFault>
        ensures taken { IfOk result (λ ended. Takes event.now ended self.old self.new) }
        ensures shown { IfOk result (λ _. self.new.shown ≡ self.old.shown) }
        ensures fits { IfOk result (λ _. fault_of self.old event.now ≡ None) }
        ensures fault { IfErr result (λ fault. fault ≢ WatchFault.Memory → fault_of self.old event.now ≡ Some fault) }
    {
        self.step(alloc, event, false, &mut NoProgress)
    }

    /// From which time on something that is not told may have written to a granule, where it may.
    ///
    /// ```
    /// let is_judged = watch.unknown_since(0x1000 / 8).is_none();
    /// ```
    pub fn unknown_since(&self, granule: u64) -> Option<u64>
        ensures since { result ≡ unknown_in self.now granule }
        ensures told { (events : List Event) → HasTaken events self.now → result ≡ unknown_since events granule }
    {
        match self.granules.get(&granule) {
            Some(kept) => kept.unknown_since(),
            None => None,
        }
    }

    /// The same for an operation of the granule that starts at this time: not where its word was told after that, and by the time.
    ///
    /// ```
    /// let known = happened_until(&op, watch.unknown_at(op.granule(), op.start));
    /// ```
    pub fn unknown_at(&self, granule: u64, time: u64) -> Option<u64>
        ensures { (events : List Event) → HasTaken events self.now → result ≡ unknown_at events granule time }
    {
        match self.granules.get(&granule) {
            Some(kept) => kept.unknown_by(time),
            None => None,
        }
    }

    /// The requests that are outstanding.
    ///
    /// ```
    /// let count = watch.outstanding().requests().len();
    /// ```
    pub fn outstanding(&self) -> &Outstanding
        ensures { result.now ≡ self.now.outstanding }
    {
        &self.outstanding
    }
}
