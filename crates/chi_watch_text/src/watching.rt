//! Lines that are read one by one and watched.

ghost use Rattle.std.specs.Prelude.{◌≡◌, ◌≢◌, ◌<◌, ◌≤◌, ◌⊎◌, ℕ, [], List, All, None, true, false, IfErr, IfOk, IfSome, IsSomeAnd, flat_map, is_some, length};
ghost use Rattle.std.specs.Io.KnownBytes.{Appends};
ghost use Rattle.chi_script.specs.WriterBytes.{AppendsFront};
ghost use Rattle.chi_events.specs.Ended.{is_end};
ghost use Rattle.chi_events.specs.declared.event.Event.{Event};
ghost use Rattle.chi_flits.specs.Effects.{HasSeen};
ghost use Rattle.chi_flits.specs.declared.flit.Flit.{Flit};
ghost use Rattle.chi_search.specs.Looks.{Grew, for_verdict};
ghost use Rattle.chi_watch.specs.Undecided.{IsExplainedAsFar, states_for};
ghost use Rattle.chi_watch.specs.Watches.{HasTaken, Watches};
ghost use Rattle.chi_watch.specs.Reaching.{IsReachedBy};
ghost use Rattle.chi_watch_text.specs.Outcomes.{IsFoundBy, IsOutcome, IsStillFound, IsTold, IsWatched, IsWatchingFault, ReachedBy, SaysAtEnd, WentAsFar, WentBy};
ghost use Rattle.chi_watch_text.specs.Reading.{IsRefusedLater};
ghost use Rattle.chi_watch_text.specs.Telling.{AreAllTold, AreSomeTold};
ghost use Rattle.chi_watch_text.specs.Waiting.{first_waiting};
ghost use Rattle.chi_watch_text.specs.Written.{found_text};

use crate::fault::LinesFault;
use crate::kept::nothing_kept;
use crate::options::WatchOptions;
use crate::progress::WatchProgress;
use crate::quiet::{Quiet, judge_quiet};
use crate::reading::Reading;
use crate::taking::take_line;
use crate::waiting::first_waiting;
use crate::watched::{FoundGranule, Unfinished, Watched};
use chi_events::{Event, EventKind};
use chi_flits::Port;
use chi_watch::Watch;
use std::alloc::{AllocError, Global};
use std::io::{BufRead, Write};
use std::mem;

/// Whether all events of this time are told: those of its last line are, and the next one is later, or there is none.
fn is_past(is_whole: bool, time: u64, next: &Option<Event>) -> bool
    ensures past { result ≡ true → IfSome next.now (λ e. time < e.time) }
    ensures whole { result ≡ true → is_whole ≡ true }
    ensures waits { result ≡ false → is_whole ≡ true → IsSomeAnd next.now (λ e. e.time ≤ time) }
{
    match next {
        Some(event) => is_whole && time < event.time,
        None => is_whole,
    }
}

/// Whether it stops: all events of a time are told at which a granule was found, and it does not keep going.
fn stops(is_past: bool, found: &[FoundGranule], keep_going: bool) -> bool
    ensures stops { result ≡ true → (is_past ≡ true) × (keep_going ≡ false) × (0 < length found.now) }
    ensures goes_on { result ≡ false → is_past ≡ true → keep_going ≡ false → found.now ≡ [] }
{
    is_past && !keep_going && found.len() > 0
}

/// Whether a line that is refused states a flit of a later time, where all events of the lines before it are given.
fn is_refused_later(
    alloc: Global,
    reading: &Reading,
    fault: LinesFault,
    is_whole: bool,
    time: u64,
) -> bool
    ensures { result ≡ true → IsRefusedLater reading.now fault time }
{
    if !is_whole {
        return false;
    }
    match fault {
        LinesFault::Line {
            number: _,
            fault: _,
        } => match reading.refused_time(alloc) {
            Ok(Some(later)) => time < later,
            _ => false,
        },
        _ => false,
    }
}

/// Whether an event tells the end.
fn is_end(event: &Event) -> bool
    ensures { result ≡ is_end event.now }
{
    matches!(event.kind, EventKind::End)
}

/// Why it is watched no further: where the line that is refused states a flit of a later time than all events, the granules that are
/// found by then are told first.
fn refused<W: Write, P: WatchProgress>(
    alloc: Global,
    watch: &Watch,
    reading: &Reading,
    fault: LinesFault,
    is_whole: bool,
    time: u64,
    quiet: &mut Vec<Quiet>,
    found: &mut Vec<FoundGranule>,
    to: &mut W,
    options: &WatchOptions,
    progress: &mut P,
) -> LinesFault
    ensures fault { (result ≡ fault) ⊎ ((result ≡ LinesFault.Memory) ⊎ (result ≡ LinesFault.Write)) }
    ensures kept { result ≢ LinesFault.Write → AreAllTold (found_text options.now.answer) found.old.items found.new.items (W.contents to.old) (W.contents to.new) }
    ensures begun { AreSomeTold (found_text options.now.answer) found.old.items found.new.items (W.contents to.old) (W.contents to.new) }
    ensures found { (found.new.items ≡ found.old.items) ⊎ (IsRefusedLater reading.now fault time × All (IsStillFound watch.now quiet.old.items found.old.items) found.new.items) }
{
    let is_past = is_refused_later(alloc, reading, fault, is_whole, time);
    match judge_quiet(alloc, watch, is_past, quiet, found, to, options, progress) {
        Ok(()) => fault,
        Err(fault) => fault,
    }
}

/// What is said where it stops.
fn stopped(
    alloc: Global,
    watch: &Watch,
    found: &mut Vec<FoundGranule>,
    is_ended: bool,
    kept: Option<Vec<u8>>,
) -> Watched
    ensures told { IsTold watch.now found.old.items is_ended kept result }
    ensures ending { result.ending ≡ None }
    ensures waiting { result.waiting.items ≡ [] }
{
    Watched {
        found: mem::replace(found, Vec::new(alloc)),
        ending: None,
        counts: watch.counts(),
        waiting: Vec::new(alloc),
        unjudged: watch.unjudged(),
        is_ended,
        kept,
    }
}

/// What is said at the end of the events.
fn ended<P: WatchProgress>(
    alloc: Global,
    watch: Watch,
    port: &Port,
    found: &mut Vec<FoundGranule>,
    is_ended: bool,
    kept: Option<Vec<u8>>,
    budget: u64,
    progress: &mut P,
) -> Result<Watched, AllocError>
    ensures told { IfOk result (λ watched. IsTold watch found.old.items is_ended kept watched) }
    ensures kept { IfErr result (λ _. found.new.items ≡ found.old.items) }
    ensures ending { IfOk result (λ watched. watched.ending ≢ None) }
    ensures waiting { IfOk result (λ watched. (flits : List Flit) → HasSeen flits port.now → watched.waiting.items ≡ first_waiting flits watch.outstanding.requests) }
    ensures says { IfOk result (λ watched. IfSome watched.ending (SaysAtEnd watch)) }
    ensures undecided { IfOk result (WentBy (P.looked for_verdict) progress.old progress.new budget) }
    ensures far { IfOk result (λ watched. IfSome watched.ending (λ ending. All (λ u. (events : List Event) → HasTaken events watch → IsExplainedAsFar (P.looked for_verdict) progress.old progress.new (states_for budget ending.undecided.items) events u) ending.undecided.items)) }
    ensures reached { IfOk result (λ watched. IfSome watched.ending (λ ending. All (λ f. (events : List Event) → HasTaken events watch → IsReachedBy (P.looked for_verdict) progress.old progress.new budget f.reach f.cut_short) ending.unexplained.items)) }
    ensures looked { IfOk result (λ _. Grew (P.looked for_verdict) progress.old progress.new) }
{
    let counts = watch.counts();
    let unjudged = watch.unjudged();
    let requests = watch.outstanding().requests(alloc)?;
    let waiting = first_waiting(alloc, port, &requests)?;
    let ending = watch.ending(alloc, budget, progress)?;
    Ok(Watched {
        found: mem::replace(found, Vec::new(alloc)),
        ending: Some(ending),
        counts,
        waiting,
        unjudged,
        is_ended,
        kept,
    })
}

/// Reads lines of a format, one by one, and watches the granules that they tell of, of which nothing was told before. Those that no
/// order explains are told, and are in `found` until it ends.
fn watch_each<R: BufRead, W: Write, P: WatchProgress>(
    alloc: Global,
    from: &mut R,
    to: &mut W,
    options: &WatchOptions,
    mut watch: Watch,
    found: &mut Vec<FoundGranule>,
    progress: &mut P,
) -> Result<Watched, LinesFault>
    requires untold { Watches [] [] watch }
    requires shown { watch.shown ≡ options.now.around }
    requires none { found.old.items ≡ [] }
    ensures watched { IfSome (R.remaining from.old) (λ text. IfOk result (IsWatched options.now.format text options.now.keep_going options.now.around)) }
    ensures fault { IfSome (R.remaining from.old) (λ text. IfErr result (IsWatchingFault options.now.format text)) }
    ensures told { IfOk result (λ watched. Appends (W.contents to.old) (W.contents to.new) (flat_map (found_text options.now.answer) watched.found.items)) }
    ensures kept { IfErr result (λ fault. fault ≢ LinesFault.Write → Appends (W.contents to.old) (W.contents to.new) (flat_map (found_text options.now.answer) found.new.items)) }
    ensures begun { IfErr result (λ _. AppendsFront (W.contents to.old) (W.contents to.new) (flat_map (found_text options.now.answer) found.new.items)) }
    ensures found { IfSome (R.remaining from.old) (λ text. IfErr result (λ _. All (IsFoundBy options.now.format text options.now.around) found.new.items)) }
    ensures keeps { IfOk result (λ watched. is_some watched.kept ≡ options.now.keep_lines) }
    ensures undecided { IfOk result (WentBy (P.looked for_verdict) progress.old progress.new options.now.budget) }
    ensures far { IfSome (R.remaining from.old) (λ text. IfOk result (WentAsFar (P.looked for_verdict) progress.old progress.new options.now.budget options.now.format text)) }
    ensures reached { IfOk result (ReachedBy (P.looked for_verdict) progress.old progress.new options.now.budget) }
{
    let mut quiet = Vec::new(alloc);
    let mut kept = nothing_kept(alloc, options.keep_lines);
    let mut reading = Reading::new(alloc, options.format);
    let mut time = 0;
    let mut is_ended = false;
    for _ in 0..u64::MAX {
        let is_whole = reading.is_whole();
        let next = match reading.next_event(alloc, from) {
            Ok(next) => next,
            Err(fault) => {
                return Err(refused(
                    alloc, &watch, &reading, fault, is_whole, time, &mut quiet, found, to, options,
                    progress,
                ));
            }
        };
        let is_past = is_past(is_whole, time, &next);
        judge_quiet(
            alloc, &watch, is_past, &mut quiet, found, to, options, progress,
        )?;
        if stops(is_past, found, options.keep_going) {
            return Ok(stopped(alloc, &watch, found, is_ended, kept));
        }
        let Some(event) = next else {
            return Ok(ended(
                alloc,
                watch,
                &reading.port.port,
                found,
                is_ended,
                kept,
                options.budget,
                progress,
            )?);
        };
        take_line(
            alloc,
            &mut watch,
            &mut quiet,
            &mut kept,
            &reading.lines,
            &event,
            reading.number,
            options.budget,
            progress,
        )?;
        time = event.time;
        is_ended = is_end(&event);
    }
    Err(LinesFault::TooManyLines)
}

/// Reads lines of a format, one by one, and watches the granules that they tell of, until it is seen that no order explains the
/// operations of one; or, with `keep_going`, to the end. `progress` is told how far it is.
///
/// A granule is judged when its last outstanding request has gone, and looked at now and then where it is never quiet. As another
/// request may be told of the same time, it is found once the next event is later, or the text has ended. A line is read when it
/// is there. The last line needs no line feed, and blank ones after it tell nothing.
///
/// Each granule is told to `to` as soon as it is found, and in place of how far the watch is. Where a line is refused that states a
/// flit of a later time, the granules that are found by then are told first; after a fault nothing else is said of the events.
/// Where lines are kept, all that are taken are, so they take as much memory as the input has by then.
///
/// ```
/// let watched = watch_lines(alloc, &mut reader, &mut out, &options, &mut NoProgress)?;
/// ```
pub fn watch_lines<R: BufRead, W: Write, P: WatchProgress>(
    alloc: Global,
    from: &mut R,
    to: &mut W,
    options: &WatchOptions,
    progress: &mut P,
) -> Result<Watched, Unfinished>
    ensures outcome { IfSome (R.remaining from.old) (λ text. IsOutcome options.now.format text options.now.keep_going options.now.around result) }
    ensures told { IfOk result (λ watched. Appends (W.contents to.old) (W.contents to.new) (flat_map (found_text options.now.answer) watched.found.items)) }
    ensures kept { IfErr result (λ unfinished. unfinished.fault ≢ LinesFault.Write → Appends (W.contents to.old) (W.contents to.new) (flat_map (found_text options.now.answer) unfinished.found.items)) }
    ensures keeps { IfOk result (λ watched. is_some watched.kept ≡ options.now.keep_lines) }
    ensures begun { IfErr result (λ unfinished. AppendsFront (W.contents to.old) (W.contents to.new) (flat_map (found_text options.now.answer) unfinished.found.items)) }
    ensures undecided { IfOk result (WentBy (P.looked for_verdict) progress.old progress.new options.now.budget) }
    ensures far { IfSome (R.remaining from.old) (λ text. IfOk result (WentAsFar (P.looked for_verdict) progress.old progress.new options.now.budget options.now.format text)) }
    ensures reached { IfOk result (ReachedBy (P.looked for_verdict) progress.old progress.new options.now.budget) }
{
    let mut found = Vec::new(alloc);
    let Ok(watch) = Watch::new(alloc, options.around) else {
        let fault = LinesFault::Memory;
        return Err(Unfinished { found, fault });
    };
    match watch_each(alloc, from, to, options, watch, &mut found, progress) {
        Ok(watched) => Ok(watched),
        Err(fault) => Err(Unfinished { found, fault }),
    }
}
