//! An event of a line: the watch takes it, and what was found by it is noted.

ghost use Rattle.std.specs.Prelude.{◌≡◌, IfErr, IfOk};
ghost use Rattle.chi_search.specs.Looks.{Grew, for_verdict};
ghost use Rattle.chi_watch_text.specs.Kept.{KeepsLine};
ghost use Rattle.chi_watch_text.specs.Outcomes.{IsEventFault, TakesEvent, TakesLine};

use crate::fault::LinesFault;
use crate::kept::keep_line;
use crate::progress::WatchProgress;
use crate::quiet::{Quiet, note_quiet};
use chi_events::Event;
use chi_watch::{Watch, WatchFault};
use std::alloc::Global;

/// Has the watch take the event of the line with this number.
fn take_event<P: WatchProgress>(
    alloc: Global,
    watch: &mut Watch,
    event: &Event,
    number: u64,
    budget: u64,
    progress: &mut P,
) -> Result<Option<u64>, LinesFault>
    ensures taken { IfOk result (TakesEvent watch.old event.now watch.new) }
    ensures shown { IfOk result (λ _. watch.new.shown ≡ watch.old.shown) }
    ensures fault { IfErr result (IsEventFault watch.old event.now number) }
    ensures looked { IfOk result (λ _. Grew (P.looked for_verdict) progress.old progress.new) }
{
    match watch.take(alloc, event, budget, progress) {
        Ok(seen) => {
            progress.reached(watch.counts(), event.time);
            Ok(seen)
        }
        Err(WatchFault::Memory) => Err(LinesFault::Memory),
        Err(fault) => Err(LinesFault::Event { number, fault }),
    }
}

/// Takes an event of the line with this number. A granule that became quiet by it is noted, and the lines that were read for it are
/// kept, where lines are.
pub(crate) fn take_line<P: WatchProgress>(
    alloc: Global,
    watch: &mut Watch,
    quiet: &mut Vec<Quiet>,
    kept: &mut Option<Vec<u8>>,
    lines: &[u8],
    event: &Event,
    number: u64,
    budget: u64,
    progress: &mut P,
) -> Result<(), LinesFault>
    ensures taken { IfOk result (λ _. TakesLine watch.old event.now number quiet.old.items watch.new quiet.new.items) }
    ensures shown { IfOk result (λ _. watch.new.shown ≡ watch.old.shown) }
    ensures kept { IfOk result (λ _. KeepsLine kept.old lines.now kept.new) }
    ensures fault { IfErr result (IsEventFault watch.old event.now number) }
    ensures looked { IfOk result (λ _. Grew (P.looked for_verdict) progress.old progress.new) }
{
    let seen = take_event(alloc, watch, event, number, budget, progress)?;
    note_quiet(alloc, quiet, seen, number)?;
    keep_line(kept, lines)?;
    Ok(())
}
