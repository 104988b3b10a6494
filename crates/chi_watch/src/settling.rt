//! Granules that became quiet, which are settled once it is later.

ghost use Rattle.std.specs.Prelude.{◌≡◌, ◌≢◌, List, None, Some, IfErr, IfOk};
ghost use Rattle.chi_events.specs.declared.event.Event.{Event};
ghost use Rattle.chi_search.specs.Looks.{Grew, for_verdict};
ghost use Rattle.chi_trace.specs.declared.operation.Operation.{Operation};
ghost use Rattle.chi_watch.specs.Watches.{Takes, Watches, fault_of};

use crate::fault::WatchFault;
use crate::granules::settle_granule;
use crate::watch::Watch;
use chi_events::Event;
use chi_search::Progress;
use chi_trace::Operation;
use std::alloc::{AllocError, Global};

/// A granule that became quiet, and when.
#[derive(Clone, Copy)]
pub struct QuietGranule {
    pub(crate) granule: u64,
    pub(crate) since: u64,
}

impl Watch {
    /// Notes a granule that may have become quiet at this time, where no operation is to be shown: then one that is settled takes little
    /// room.
    fn note_quiet(&mut self, granule: Option<u64>, time: u64) -> Result<(), AllocError>
        ensures { IfOk result (λ _. self.new ≡ self.old) }
    {
        let Some(granule) = granule else {
            return Ok(());
        };
        if self.shown > 0 {
            return Ok(());
        }
        self.quiet.push_back(QuietGranule {
            granule,
            since: time,
        })?;
        Ok(())
    }

    /// The granule that was noted first, where that was before this time. It is noted no longer.
    fn next_quiet(&mut self, time: u64) -> Option<u64>
        ensures same { self.new ≡ self.old }
    {
        let first = *self.quiet.front()?;
        if first.since >= time {
            return None;
        }
        self.quiet.pop_front();
        Some(first.granule)
    }

    /// Settles the granule that was noted first, where that was before this time and it is quiet still. An event makes one granule quiet
    /// at most, so that one for each event is enough.
    fn settle_next<P: Progress>(
        &mut self,
        alloc: Global,
        time: u64,
        progress: &mut P,
    ) -> Result<(), AllocError>
        requires at { time ≡ self.now.outstanding.time }
        ensures watches { IfOk result (λ _. (events : List Event) (ended : List Operation) → Watches events ended self.old → Watches events ended self.new) }
        ensures same { IfOk result (λ _. self.new ≡ record self.old { granules = self.new.granules }) }
        ensures looked { IfOk result (λ _. Grew (P.looked for_verdict) progress.old progress.new) }
    {
        let Some(granule) = self.next_quiet(time) else {
            return Ok(());
        };
        if self.is_open(granule) {
            return Ok(());
        }
        settle_granule(alloc, &mut self.granules, granule, time, progress)
    }

    /// Takes an event as `step` does, settles a granule that was quiet before, and notes the one that may become so.
    pub(crate) fn step_on<P: Progress>(
        &mut self,
        alloc: Global,
        event: &Event,
        about: Option<u64>,
        progress: &mut P,
    ) -> Result<Option<Operation>, WatchFault>
        ensures taken { IfOk result (λ ended. Takes event.now ended self.old self.new) }
        ensures fits { IfOk result (λ _. fault_of self.old event.now ≡ None) }
        ensures fault { IfErr result (λ fault. fault ≢ WatchFault.Memory → fault_of self.old event.now ≡ Some fault) }
        ensures shown { IfOk result (λ _. self.new.shown ≡ self.old.shown) }
        ensures looked { IfOk result (λ _. Grew (P.looked for_verdict) progress.old progress.new) }
    {
        let ended = self.step(alloc, event, true, progress)?;
        self.settle_next(alloc, event.time, progress)?;
        self.note_quiet(about, event.time)?;
        Ok(ended)
    }
}
