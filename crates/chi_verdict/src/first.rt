//! Where a trace stops being explained.

ghost use Rattle.std.specs.Prelude.{◌≡◌, ℕ, ◌+◌, ◌≤◌, List, All, None, IfOk, IfSome};
ghost use Rattle.chi_search.specs.Looks.{LookedAtLeast, LookedMore, LookedSome};
ghost use Rattle.chi_trace.specs.Cuts.{cut};
ghost use Rattle.chi_trace.specs.Explains.{IsTrace};
ghost use Rattle.chi_trace.specs.Granules.{ExplainsGranule};
ghost use Rattle.chi_judge.specs.Reaches.{IsExplained, IsStop, MissesNone};
ghost use Rattle.chi_verdict.specs.Backwards.{IfAnswer, IfEarlier, IsFirst};
ghost use Rattle.chi_verdict.specs.Blames.{IfAt, IfNever, IfNotFound, IsBlame, LookedForFirst};
ghost use Rattle.chi_trace.specs.Traces.{IsLegal, trace_at};
ghost use Rattle.chi_trace.specs.Words.{AreWords, word_or_zero};

use crate::earlier::earliest;
use crate::verdict::{Verdict, explain_operations};
use chi_judge::{Judge, Reach, Stop};
use chi_search::Progress;
use chi_trace::laws::{cuts_are_explained, orders_of_granules_explain, parts_explain};
use chi_trace::{GranuleWords, Operation, Trace, cut};
use std::alloc::{AllocError, Global};

/// Where a trace stops being explained: the first time up to which it is not.
///
/// - `granule`: its number, counted from address 0; up to the time not even its operations alone are explained.
/// - `stop`: where that is, and what is said of the granule.
/// - `order`: explains the trace up to the time before, by the places of its operations; empty where the time is 0.
#[derive(Debug, Drop)]
pub struct Blame {
    pub granule: u64,
    pub stop: Stop,
    pub order: Vec<usize>,
}

/// What is found: the trace is explained up to each time, whatever the words at the end; or where it stops being so; or neither,
/// since of this granule so many states were looked at, which is the whole budget.
#[derive(Debug, Drop)]
pub enum First {
    Never,
    At(Blame),
    Undecided { granule: u64, states: u64 },
}

/// A granule, and a time up to which no order explains its operations.
#[derive(Clone, Copy)]
pub(crate) struct Failing {
    pub granule: u64,
    pub time: u64,
}

/// What one search back in time comes to: the answer, or that the trace is not explained up to the time before either.
enum Back {
    Answer(First),
    Earlier(Failing),
}

/// The latest end of operations.
fn latest_end(ops: &[Operation]) -> u64
    ensures { All (λ op. op.end ≤ result) ops.now }
{
    let mut latest = 0;
    for op in ops {
        latest = latest.max(op.end);
    }
    latest
}

/// Where a granule's operations stop being explained, which they are not up to a time. None where that was not found.
pub(crate) fn stop_of<P: Progress>(
    alloc: Global,
    opening: &GranuleWords,
    ops: &[Operation],
    failing: Failing,
    shown: usize,
    budget: u64,
    progress: &mut P,
) -> Result<Option<Stop>, AllocError>
    requires traced { IsTrace ops.now }
    requires unexplained { IsExplained failing.time ops.now failing.granule (word_or_zero opening.now failing.granule) → ⊥ }
    ensures stop { IfOk result (λ found. IfSome found (IsStop ops.now failing.granule (word_or_zero opening.now failing.granule) shown)) }
    ensures by { IfOk result (λ found. IfSome found (λ stop. stop.time ≤ failing.time)) }
    ensures all { IfOk result (λ found. IfSome found (MissesNone P.looked progress.old progress.new budget ops.now failing.granule (word_or_zero opening.now failing.granule))) }
    ensures none { IfOk result (λ found. found ≡ None → LookedAtLeast P.looked progress.old progress.new budget) }
    ensures looked { IfOk result (λ _. LookedSome P.looked progress.old progress.new) }
{
    let word = opening.word(failing.granule);
    let judge = Judge::of_trace(alloc, ops, failing.granule, word, shown)?;
    match judge.reach(alloc, budget, progress)? {
        Reach::Stops(stop) => Ok(Some(stop)),
        Reach::Whole(_) => Ok(None),
        Reach::Undecided => Ok(None),
    }
}

/// Where a granule's operations stop being explained, which they are not up to a time, and whether the trace is explained up to the
/// time before.
fn look_back<P: Progress>(
    alloc: Global,
    opening: &GranuleWords,
    ops: &[Operation],
    failing: Failing,
    shown: usize,
    budget: u64,
    progress: &mut P,
) -> Result<Back, AllocError>
    requires words { AreWords opening.now }
    requires traced { IsTrace ops.now }
    requires unexplained { IsExplained failing.time ops.now failing.granule (word_or_zero opening.now failing.granule) → ⊥ }
    ensures answer { IfOk result (λ back. IfAnswer back (IsFirst (record { opening = opening.now; operations = ops.now }) shown budget)) }
    ensures later { IfOk result (λ back. IfEarlier back (λ earlier. earlier.time + 1 ≤ failing.time)) }
    ensures earlier { IfOk result (λ back. IfEarlier back (λ earlier. IsExplained earlier.time ops.now earlier.granule (word_or_zero opening.now earlier.granule) → ⊥)) }
    ensures spent { IfOk result (λ back. IfAnswer back (LookedForFirst P.looked progress.old progress.new budget (record { opening = opening.now; operations = ops.now }))) }
    ensures looked { IfOk result (λ _. LookedSome P.looked progress.old progress.new) }
{
    parts_explain();
    orders_of_granules_explain();
    let granule = failing.granule;
    let Some(stop) = stop_of(alloc, opening, ops, failing, shown, budget, progress)? else {
        return Ok(Back::Answer(First::Undecided {
            granule,
            states: budget,
        }));
    };
    if stop.time == 0 {
        let order = Vec::new(alloc);
        return Ok(Back::Answer(First::At(Blame {
            granule,
            stop,
            order,
        })));
    }
    let none = GranuleWords::none(alloc);
    let time = stop.time - 1;
    let known = cut(alloc, ops, time)?;
    match explain_operations(alloc, opening, &none, &known, budget, progress)? {
        Verdict::Explained(order) => Ok(Back::Answer(First::At(Blame {
            granule,
            stop,
            order,
        }))),
        Verdict::Unexplained { granule } => Ok(Back::Earlier(Failing { granule, time })),
        Verdict::Undecided { granule, states } => {
            Ok(Back::Answer(First::Undecided { granule, states }))
        }
    }
}

/// Where a trace stops being explained, of which this granule's operations are not up to the time.
fn first_before<P: Progress>(
    alloc: Global,
    opening: &GranuleWords,
    ops: &[Operation],
    failing: Failing,
    shown: usize,
    budget: u64,
    progress: &mut P,
) -> Result<First, AllocError>
    requires words { AreWords opening.now }
    requires traced { IsTrace ops.now }
    requires unexplained { IsExplained failing.time ops.now failing.granule (word_or_zero opening.now failing.granule) → ⊥ }
    ensures first { IfOk result (IsFirst (record { opening = opening.now; operations = ops.now }) shown budget) }
    ensures spent { IfOk result (LookedForFirst P.looked progress.old progress.new budget (record { opening = opening.now; operations = ops.now })) }
{
    let mut failing = failing;
    loop {
        match look_back(alloc, opening, ops, failing, shown, budget, progress)? {
            Back::Answer(first) => return Ok(first),
            Back::Earlier(earlier) => {
                failing = earliest(alloc, opening, ops, earlier, budget, progress)?
            }
        }
    }
}

/// Where a trace stops being explained, whatever the words at its end: the first time up to which no order explains it.
/// `shown` is how many operations of the granule are shown at most before the one that is blamed, and `budget` how many states of
/// each granule may be looked at in each of the searches that this takes.
///
/// ```
/// match first_unexplained(alloc, &trace, 16, 1_000_000, &mut NoProgress)? {
///     First::Never => done(),
///     First::At(blame) => show(&blame),
///     First::Undecided { granule, states } => take_more_time(granule, states),
/// }
/// ```
pub fn first_unexplained<P: Progress>(
    alloc: Global,
    trace: &Trace,
    shown: usize,
    budget: u64,
    progress: &mut P,
) -> Result<First, AllocError>
    ensures never { IfOk result (λ first. IfNever first ((time : ℕ) → (order : List ℕ) × IsLegal (trace_at time trace.now) order)) }
    ensures blame { IfOk result (λ first. IfAt first (IsBlame trace.now shown)) }
    ensures undecided { IfOk result (λ first. IfNotFound first (λ states. states ≡ budget)) }
    ensures spent { IfOk result (LookedForFirst P.looked progress.old progress.new budget trace.now) }
{
    cuts_are_explained();
    let none = GranuleWords::none(alloc);
    let opening = trace.opening();
    let ops = trace.operations();
    match explain_operations(alloc, opening, &none, ops, budget, progress)? {
        Verdict::Explained(_) => Ok(First::Never),
        Verdict::Unexplained { granule } => {
            let time = latest_end(ops);
            let failing = Failing { granule, time };
            first_before(alloc, opening, ops, failing, shown, budget, progress)
        }
        Verdict::Undecided { granule, states } => Ok(First::Undecided { granule, states }),
    }
}
