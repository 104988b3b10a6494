//! Whether a legal response of the operation that is blamed explains its granule to the end.

ghost use Rattle.std.specs.Prelude.{◌≡◌, ◌⊎◌, ◌-◌, ◌≤◌, [], IfOk, None};
ghost use Rattle.chi_search.specs.Looks.{LookedMore};
ghost use Rattle.chi_verdict.specs.ToTheEnd.{ExplainsToTheEnd, IsSaid, SomeExplains, all_replied, replied};

use crate::first::Blame;
use crate::granule::{Group, search_granule};
use crate::grouping::of_granule;
use chi_lanes::Reply;
use chi_search::{Found, Progress};
use chi_trace::{GranuleWords, Operation, Trace};
use std::alloc::{AllocError, Global};

/// The operation, answered by this reply where it has this number.
fn replied(op: &Operation, number: u64, reply: Reply) -> Operation
    ensures { result ≡ replied number reply op.now }
{
    let mut other = *op;
    if op.number == number {
        other.reply = Some(reply);
    }
    other
}

/// The operations so.
fn all_replied(
    alloc: Global,
    ops: &[Operation],
    number: u64,
    reply: Reply,
) -> Result<Vec<Operation>, AllocError>
    ensures { IfOk result (λ others. others.items ≡ all_replied number reply ops.now) }
{
    ops.iter()
        .map(|op| replied(op, number, reply))
        .collect(alloc)
}

/// Whether some order explains the granule's operations and its word at the end, where those with a number are answered by this reply.
/// None where that was not found.
fn explains<P: Progress>(
    alloc: Global,
    trace: &Trace,
    final_words: &GranuleWords,
    granule: u64,
    number: u64,
    reply: Reply,
    budget: &mut u64,
    progress: &mut P,
) -> Result<Option<bool>, AllocError>
    ensures right { IfOk result (λ said. IsSaid said (ExplainsToTheEnd trace.now final_words.now granule number reply)) }
    ensures unknown { IfOk result (λ said. said ≡ None → budget.new ≡ 0) }
    ensures spends { IfOk result (λ said. (budget.new ≤ budget.old) × LookedMore P.looked progress.old progress.new (budget.old - budget.new)) }
{
    let others = all_replied(alloc, trace.operations(), number, reply)?;
    let run = of_granule(alloc, &others, granule)?;
    let group = Group { granule, run: &run };
    let word = trace.opening().word(granule);
    let final_word = final_words.get(granule);
    match search_granule(alloc, &others, &group, word, final_word, budget, progress)? {
        Found::Order(_) => Ok(Some(true)),
        Found::Nothing => Ok(Some(false)),
        Found::Undecided => Ok(None),
    }
}

/// Whether some order explains the operations and the word at the end of the granule that is blamed, once the operation that is blamed
/// is answered by one of the responses that are listed as legal. None where that was not found, or none is listed. The operation is
/// known by its number, so no other is to have the same. `budget` is how many states may be looked at, and is left with how many more
/// might have been.
///
/// ```
/// let mut budget = 1_000_000;
/// let is_explained = legal_to_the_end(alloc, &trace, &final_words, &blame, &mut budget, &mut NoProgress)?;
/// ```
pub fn legal_to_the_end<P: Progress>(
    alloc: Global,
    trace: &Trace,
    final_words: &GranuleWords,
    blame: &Blame,
    budget: &mut u64,
    progress: &mut P,
) -> Result<Option<bool>, AllocError>
    ensures right { IfOk result (λ said. IsSaid said (SomeExplains trace.now final_words.now blame.now.granule blame.now.stop.op.number blame.now.stop.legal.items)) }
    ensures unknown { IfOk result (λ said. said ≡ None → (budget.new ≡ 0) ⊎ (blame.now.stop.legal.items ≡ [])) }
    ensures spends { IfOk result (λ said. (budget.new ≤ budget.old) × LookedMore P.looked progress.old progress.new (budget.old - budget.new)) }
{
    let legal = blame.stop.legal.as_slice();
    if legal.is_empty() {
        return Ok(None);
    }
    for reply in legal {
        let said = explains(
            alloc,
            trace,
            final_words,
            blame.granule,
            blame.stop.op.number,
            *reply,
            budget,
            progress,
        )?;
        if said != Some(false) {
            return Ok(said);
        }
    }
    Ok(Some(false))
}
