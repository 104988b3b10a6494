//! The search for an answer, within the limits that were given.

ghost use Rattle.std.specs.Prelude.{◌≤◌, IfOk};
ghost use Rattle.chi_answer.specs.Answers.{IfUndecided, IsAnswer};
ghost use Rattle.chi_check.specs.Limits.{IsWithin};
ghost use Rattle.chi_check.specs.Searched.{LookedForSearched};
ghost use Rattle.chi_search.specs.Looks.{IsCutShort};

use crate::meter::{Meter, may_double};
use crate::options::CheckOptions;
use chi_answer::{Answer, answer_of};
use chi_reading::Recorded;
use chi_search::Progress;
use std::alloc::{AllocError, Global};

/// An answer, how many states of each granule were looked at for it at most, and how many after its verdict where what follows it was
/// cut short.
#[derive(Drop)]
pub(crate) struct Searched {
    pub answer: Answer,
    pub budget: u64,
    pub cut_short: Option<u64>,
}

// How many states are looked at first where time or memory is limited.
const FIRST: u64 = 65_536;

// Whether an answer was found.
fn is_decided(answer: &Answer) -> bool {
    match answer {
        Answer::Undecided(_) => false,
        _ => true,
    }
}

// The same, where the time or the memory is limited: searches of twice as many states follow one another while they may.
fn search_within<P: Progress, M: Meter>(
    alloc: Global,
    recorded: &Recorded,
    options: &CheckOptions<'_>,
    progress: &mut P,
    meter: &M,
) -> Result<Searched, AllocError>
    ensures right { IfOk result (λ searched. IsAnswer recorded.now options.now.around searched.answer) }
    ensures undecided { IfOk result (λ searched. IfUndecided searched.answer (λ doubt. doubt.states ≤ options.now.budget)) }
    ensures spent { IfOk result (λ searched. LookedForSearched P.states P.looked progress.old progress.new searched.answer) }
    ensures cut { IfOk result (λ searched. IsCutShort P.states P.looked progress.new searched.cut_short) }
{
    let first = meter.used();
    let mut before = first;
    let mut budget = options.budget.min(FIRST);
    for _ in 0..64 {
        let answer = answer_of(alloc, recorded, options.around as usize, budget, progress)?;
        let cut_short = progress.cut_short();
        let now = meter.used();
        if is_decided(&answer)
            || budget >= options.budget
            || !may_double(options, first, before, now)
        {
            return Ok(Searched {
                answer,
                budget,
                cut_short,
            });
        }
        before = now;
        budget = budget.saturating_mul(2).min(options.budget);
    }
    let answer = answer_of(alloc, recorded, options.around as usize, budget, progress)?;
    Ok(Searched {
        answer,
        budget,
        cut_short: progress.cut_short(),
    })
}

/// Whether the trace can be explained, and what can be said of it.
pub(crate) fn search<P: Progress, M: Meter>(
    alloc: Global,
    recorded: &Recorded,
    options: &CheckOptions<'_>,
    progress: &mut P,
    meter: &M,
) -> Result<Searched, AllocError>
    ensures right { IfOk result (λ searched. IsAnswer recorded.now options.now.around searched.answer) }
    ensures undecided { IfOk result (λ searched. IfUndecided searched.answer (λ doubt. IsWithin options.now doubt.states)) }
    ensures spent { IfOk result (λ searched. LookedForSearched P.states P.looked progress.old progress.new searched.answer) }
    ensures cut { IfOk result (λ searched. IsCutShort P.states P.looked progress.new searched.cut_short) }
{
    if options.seconds.is_some() || options.memory.is_some() {
        return search_within(alloc, recorded, options, progress, meter);
    }
    let answer = answer_of(
        alloc,
        recorded,
        options.around as usize,
        options.budget,
        progress,
    )?;
    Ok(Searched {
        answer,
        budget: options.budget,
        cut_short: progress.cut_short(),
    })
}
