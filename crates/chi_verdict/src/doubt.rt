//! What is said of a granule that was not decided.

ghost use Rattle.std.specs.Prelude.{◌≡◌, IfOk};
ghost use Rattle.chi_verdict.specs.Doubts.{IsAsFar, IsDoubt};
ghost use Rattle.chi_search.specs.Looks.{LookedSome};

use crate::open::most_open;
use chi_judge::Judge;
use chi_search::Progress;
use chi_trace::Trace;
use std::alloc::{AllocError, Global};

/// What is said of a granule of which it was not found whether its operations can be explained.
///
/// - `granule`: its number, counted from address 0.
/// - `states`: so many states were looked at, which is the whole budget.
/// - `explained`: a time up to which its operations are explained, the latest that was found; none where none was.
/// - `most_open`: how many of its operations were open at one time, at most.
#[derive(Clone, Copy, Debug)]
pub struct Doubt {
    pub granule: u64,
    pub states: u64,
    pub explained: Option<u64>,
    pub most_open: usize,
}

/// What is said of a granule that was not decided within so many states. The time up to which it is explained is looked for
/// within as many again for each time that is tried.
///
/// ```
/// let doubt = doubt_of(alloc, &trace, 0x1000 / 8, 1_000_000, &mut NoProgress)?;
/// ```
pub fn doubt_of<P: Progress>(
    alloc: Global,
    trace: &Trace,
    granule: u64,
    budget: u64,
    progress: &mut P,
) -> Result<Doubt, AllocError>
    ensures granule { IfOk result (λ doubt. doubt.granule ≡ granule) }
    ensures states { IfOk result (λ doubt. doubt.states ≡ budget) }
    ensures right { IfOk result (IsDoubt trace.now) }
    ensures far { IfOk result (IsAsFar P.looked progress.old progress.new budget trace.now) }
    ensures looked { IfOk result (λ _. LookedSome P.looked progress.old progress.new) }
{
    let ops = trace.operations();
    let word = trace.opening().word(granule);
    let judge = Judge::of_trace(alloc, ops, granule, word, 0)?;
    Ok(Doubt {
        granule,
        states: budget,
        explained: judge.explained_to(alloc, budget, progress)?,
        most_open: most_open(alloc, trace, granule)?,
    })
}
