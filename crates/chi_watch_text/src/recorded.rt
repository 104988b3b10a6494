//! Lines that are read one by one as a trace.

ghost use Rattle.std.specs.Prelude.{◌≡◌, [], ◌∷◌, ◌++◌, List, None, IfErr, IfOk, IfSome, OnOk, filter, flat_map, if◌then◌else◌, is_none, ℕ, option_to_list, IsPermutation};
ghost use Rattle.std.specs.List.Sorted.{IsNonDecreasingBy};
ghost use Rattle.std.specs.BTreeMap.{get};
ghost use Rattle.std.specs.Ordering.{nat_cmp};
ghost use Rattle.chi_events.specs.declared.event.Event.{Event};
ghost use Rattle.chi_trace.specs.declared.words.GranuleWord.{GranuleWord};
ghost use Rattle.chi_trace.specs.Words.{find_word};
ghost use Rattle.chi_watch.specs.Judged.{judged_part};
ghost use Rattle.chi_watch.specs.Watches.{HasTaken, Takes, fault_of, unknown_in};
ghost use Rattle.chi_watch.specs.WordsTold.{final_in, granule_word};
ghost use Rattle.chi_watch_text.specs.Outcomes.{IsEventFault, IsLinesFault};
ghost use Rattle.chi_watch_text.specs.Recorded.{HasRecorded, HasWords, IsRecorded, IsToldTrace, is_told_again, opening_told, write_told};

use crate::fault::LinesFault;
use crate::line_format::LineFormat;
use crate::operations::{add_some, in_order};
use crate::reading::Reading;
use chi_events::{Event, EventKind, WordTold};
use chi_judge::happened_until;
use chi_reading::Recorded;
use chi_trace::{GranuleWord, GranuleWords, Operation, Trace};
use chi_watch::{Watch, WatchFault, write_at};
use std::alloc::{AllocError, Global};
use std::collections::BTreeMap;
use std::io::BufRead;

/// What was told so far: to a watch that judges nothing, the operations that had ended, the writes that stand for words which were
/// told again, and the words of granules at the opening and at the end.
#[derive(Drop)]
pub(crate) struct Recording {
    watch: Watch,
    ended: Vec<Operation>,
    writes: Vec<Operation>,
    opening: BTreeMap<u64, u64>,
    final_words: BTreeMap<u64, u64>,
}

/// Has the watch take the event of the line with this number: the operation that ended by it, if one did.
fn record_event(
    alloc: Global,
    watch: &mut Watch,
    event: &Event,
    number: u64,
) -> Result<Option<Operation>, LinesFault>
    ensures taken { IfOk result (λ ended. Takes event.now ended watch.old watch.new) }
    ensures fits { IfOk result (λ _. fault_of watch.old event.now ≡ None) }
    ensures fault { IfErr result (IsEventFault watch.old event.now number) }
{
    match watch.record(alloc, event) {
        Ok(ended) => Ok(ended),
        Err(WatchFault::Memory) => Err(LinesFault::Memory),
        Err(fault) => Err(LinesFault::Event { number, fault }),
    }
}

/// Adds the word of a granule, where none was told of it before.
fn add_word(words: &mut BTreeMap<u64, u64>, told: &WordTold) -> Result<(), AllocError>
    ensures { IfOk result (λ _. (before : List GranuleWord) → HasWords before (get nat_cmp words.old) → HasWords (before ++ granule_word told.now ∷ []) (get nat_cmp words.new)) }
{
    if words.contains_key(&told.granule) {
        return Ok(());
    }
    words.insert(told.granule, told.word)?;
    Ok(())
}

/// Whether an event tells the word of a granule to which something that is not told may have written before.
fn is_told_again(watch: &Watch, kind: &EventKind) -> bool
    ensures { result ≡ is_told_again watch.now kind.now }
{
    match kind {
        EventKind::Word(told) => watch.unknown_since(told.granule).is_some(),
        _ => false,
    }
}

/// Adds the word that an event tells, if it tells one, to those at the opening or to those at the end; or the write that stands for
/// one that is told again.
fn add_words(
    opening: &mut BTreeMap<u64, u64>,
    final_words: &mut BTreeMap<u64, u64>,
    writes: &mut Vec<Operation>,
    event: &Event,
    is_again: bool,
) -> Result<(), AllocError>
    ensures opening { IfOk result (λ _. (before : List GranuleWord) → HasWords before (get nat_cmp opening.old) → HasWords (before ++ opening_told is_again event.now.kind) (get nat_cmp opening.new)) }
    ensures final_words { IfOk result (λ _. (before : List GranuleWord) → HasWords before (get nat_cmp final_words.old) → HasWords (before ++ option_to_list (final_in event.now.kind)) (get nat_cmp final_words.new)) }
    ensures writes { IfOk result (λ _. writes.new.items ≡ writes.old.items ++ write_told is_again event.now.time event.now.kind) }
{
    match &event.kind {
        EventKind::Word(told) => {
            if is_again {
                add_some(writes, write_at(event.time, told))
            } else {
                add_word(opening, told)
            }
        }
        EventKind::Final(told) => add_word(final_words, told),
        _ => Ok(()),
    }
}

/// Operations and the writes that stand for words, in the order of their starts.
fn with_writes(mut ops: Vec<Operation>, writes: &[Operation]) -> Result<Vec<Operation>, AllocError>
    ensures same { IfOk result (λ all. IsPermutation (ops.items ++ writes.now) all.items) }
    ensures in_order { IfOk result (λ all. IsNonDecreasingBy (λ op. op.start) all.items) }
{
    ops.extend_from_slice(writes)?;
    ops.sort_by_key(|op| op.start)?;
    Ok(ops)
}

/// What is judged of these operations: each as far as it had happened before something that is not told may have written to its
/// granule.
fn judged_operations(
    alloc: Global,
    watch: &Watch,
    ops: &[Operation],
) -> Result<Vec<Operation>, AllocError>
    ensures { IfOk result (λ judged. (events : List Event) → HasTaken events watch.now → judged.items ≡ flat_map (judged_part events) ops.now) }
{
    let mut judged = Vec::new(alloc);
    for op in ops {
        let part = happened_until(op, watch.unknown_at(op.granule(), op.start));
        add_some(&mut judged, part)?;
    }
    Ok(judged)
}

/// Of these words those of the granules of which all is told.
fn known_told(
    alloc: Global,
    watch: &Watch,
    words: &[GranuleWord],
) -> Result<Vec<GranuleWord>, AllocError>
    ensures { IfOk result (λ known. known.items ≡ filter (λ w. is_none (unknown_in watch.now w.granule)) words.now) }
{
    words
        .iter()
        .copied()
        .filter(|told| watch.unknown_since(told.granule).is_none())
        .collect(alloc)
}

/// The same of the words of granules.
fn known_words(
    alloc: Global,
    watch: &Watch,
    words: &GranuleWords,
) -> Result<GranuleWords, AllocError>
    ensures { IfOk result (λ known. (g : ℕ) → find_word known g ≡ (if is_none (unknown_in watch.now g) then find_word words.now g else None)) }
{
    let known = known_told(alloc, watch, words.as_slice())?;
    match GranuleWords::new(known) {
        Some(words) => Ok(words),
        None => unreachable!(),
    }
}

impl Recording {
    // Nothing was told.
    fn new(alloc: Global) -> Result<Recording, AllocError>
        ensures { IfOk result (HasRecorded []) }
    {
        Ok(Recording {
            // It is asked for no reach, so nothing is shown.
            watch: Watch::new(alloc, 0)?,
            ended: Vec::new(alloc),
            writes: Vec::new(alloc),
            opening: BTreeMap::new(alloc),
            final_words: BTreeMap::new(alloc),
        })
    }

    // Records the event of the line with this number.
    fn record(&mut self, alloc: Global, event: &Event, number: u64) -> Result<(), LinesFault>
        ensures recorded { OnOk result ((events : List Event) → HasRecorded events self.old → HasRecorded (events ++ event.now ∷ []) self.new) }
        ensures fault { IfErr result (IsEventFault self.old.watch event.now number) }
    {
        let is_again = is_told_again(&self.watch, &event.kind);
        let ended = record_event(alloc, &mut self.watch, event, number)?;
        add_some(&mut self.ended, ended)?;
        add_words(
            &mut self.opening,
            &mut self.final_words,
            &mut self.writes,
            event,
            is_again,
        )?;
        Ok(())
    }

    // The trace that was told.
    fn trace(self, alloc: Global) -> Result<Recorded, AllocError>
        requires told { (events : List Event) × HasRecorded events self }
        ensures { IfOk result (λ recorded. (events : List Event) → HasRecorded events self → IsToldTrace events recorded) }
    {
        let ops = in_order(alloc, self.ended, self.watch.outstanding())?;
        let ops = with_writes(ops, &self.writes)?;
        let judged = judged_operations(alloc, &self.watch, &ops)?;
        let opening = GranuleWords::of_map(alloc, &self.opening)?;
        let final_words = GranuleWords::of_map(alloc, &self.final_words)?;
        let final_words = known_words(alloc, &self.watch, &final_words)?;
        match Trace::new(opening, judged) {
            Some(trace) => Ok(Recorded::of_addresses(alloc, trace, final_words)),
            None => unreachable!(),
        }
    }
}

// Reads lines of a format, one by one, into a recording of nothing: the trace that they tell.
fn record_each<R: BufRead>(
    alloc: Global,
    from: &mut R,
    format: LineFormat,
    mut recording: Recording,
) -> Result<Recorded, LinesFault>
    requires { HasRecorded [] recording }
    ensures recorded { IfSome (R.remaining from.old) (λ text. IfOk result (IsRecorded format text)) }
    ensures fault { IfSome (R.remaining from.old) (λ text. IfErr result (IsLinesFault format text)) }
{
    let mut reading = Reading::new(alloc, format);
    for _ in 0..u64::MAX {
        let Some(event) = reading.next_event(alloc, from)? else {
            return Ok(recording.trace(alloc)?);
        };
        recording.record(alloc, &event, reading.number)?;
    }
    Err(LinesFault::TooManyLines)
}

/// Reads lines of a format, one by one, as a trace: of all addresses, with the operations that they tell, each with the number of
/// the line that told its request; the words at the opening; and those that were told at the end. Of a granule to which something
/// that is not told may have written it has what had happened before, and no word at the end. Where its word is told again it has a
/// write of it then, with the number of that line, and what happened after. Requests that were refused are left out.
///
/// A line is refused where `watch_lines` refuses it, and for the same reason. The last line needs no line feed, and blank ones
/// after it tell nothing.
///
/// ```
/// let recorded = read_events(alloc, &mut reader, LineFormat::Events)?;
/// ```
pub fn read_events<R: BufRead>(
    alloc: Global,
    from: &mut R,
    format: LineFormat,
) -> Result<Recorded, LinesFault>
    ensures recorded { IfSome (R.remaining from.old) (λ text. IfOk result (IsRecorded format text)) }
    ensures fault { IfSome (R.remaining from.old) (λ text. IfErr result (IsLinesFault format text)) }
{
    let recording = Recording::new(alloc)?;
    record_each(alloc, from, format, recording)
}
