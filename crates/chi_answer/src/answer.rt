//! What is answered of a trace.

ghost use Rattle.std.specs.Prelude.{◌≡◌, ℕ, IfOk};
ghost use Rattle.chi_trace.specs.Traces.{IsExplained};
ghost use Rattle.chi_verdict.specs.Blames.{IsBlame};
ghost use Rattle.chi_verdict.specs.Doubts.{IsAsFar as IsFoundAsFar};
ghost use Rattle.chi_verdict.specs.Verdicts.{IfExplained, IfUnexplained, IfUndecided as IfUnfound};
ghost use Rattle.chi_search.specs.Looks.{LookedAtLeast, LookedSome};
ghost use Rattle.chi_answer.specs.Answers.{FoundVerdict, IfUndecided, IsAnswer, IsAsFar, IsUnexplained, IsUnexplainedIn, LookedForAnswer, SaysUnless, SpentAfter};

use crate::beside::unexplained_beside;
use chi_reading::Recorded;
use chi_search::{Progress, Words};
use chi_verdict::{
    Blame, Doubt, First, Verdict, doubt_of, explain, first_unexplained, legal_to_the_end,
    most_open, words_held,
};
use std::alloc::{AllocError, Global};

/// What else is found of a trace that stops being explained: whether one of the responses that are listed as legal explains the granule
/// to its end, where that was found; and the other granules of its line of 64 bytes that no order explains, in the order of their
/// addresses.
#[derive(Debug, Drop)]
pub struct Further {
    pub to_the_end: Option<bool>,
    pub beside: Vec<u64>,
}

/// What is answered of a trace.
///
/// - `Explained`: the operations in this order are what a home could have done, and leave the words at the end.
/// - `Blamed`: they cannot be explained, and where they stop being explainable, and what else is found of that.
/// - `Unexplained`: those of a granule cannot be explained. The words are those with which they could be, where only the word
///   at the end is wrong and they were found.
/// - `Undecided`: neither was found of a granule, and what is said of it.
#[derive(Debug, Drop)]
pub enum Answer {
    Explained { order: Vec<usize> },
    Blamed { blame: Blame, further: Further },
    Unexplained { granule: u64, words: Words },
    Undecided(Doubt),
}

/// Whether the trace can be explained. `progress` is told that this is searched for, and that it was found.
fn verdict_of<P: Progress>(
    alloc: Global,
    recorded: &Recorded,
    budget: u64,
    progress: &mut P,
) -> Result<Verdict, AllocError>
    ensures explained { IfOk result (λ verdict. IfExplained verdict (IsExplained recorded.now.trace recorded.now.final_words)) }
    ensures unexplained { IfOk result (λ verdict. IfUnexplained verdict (λ granule. IsUnexplained recorded.now)) }
    ensures granule { IfOk result (λ verdict. IfUnexplained verdict (IsUnexplainedIn recorded.now)) }
    ensures undecided { IfOk result (λ verdict. IfUnfound verdict (λ states. states ≡ budget)) }
    ensures spent { IfOk result (FoundVerdict P.states P.looked progress.old progress.new) }
{
    progress.before_verdict();
    let trace = recorded.trace();
    let verdict = explain(alloc, trace, recorded.final_words(), budget, progress)?;
    let pending = match &verdict {
        Verdict::Unexplained { granule } => most_open(alloc, trace, *granule)?,
        _ => 0,
    };
    progress.after_verdict(trace.operations().len(), pending);
    Ok(verdict)
}

/// The answer of a trace that no order explains, which stops being explained there.
fn blamed<P: Progress>(
    alloc: Global,
    recorded: &Recorded,
    blame: Blame,
    shown: usize,
    budget: u64,
    progress: &mut P,
) -> Result<Answer, AllocError>
    requires trace { IsUnexplained recorded.now }
    requires blame { IsBlame recorded.now.trace shown blame }
    ensures right { IfOk result (IsAnswer recorded.now shown) }
    ensures decided { IfOk result (λ answer. IfUndecided answer (λ doubt. ⊥)) }
    ensures said { IfOk result (SaysUnless recorded.now (LookedAtLeast P.looked progress.old progress.new budget)) }
    ensures looked { IfOk result (λ _. LookedSome P.looked progress.old progress.new) }
{
    let mut left = budget;
    let trace = recorded.trace();
    let words = recorded.final_words();
    let to_the_end = legal_to_the_end(alloc, trace, words, &blame, &mut left, progress)?;
    let beside = unexplained_beside(alloc, recorded, blame.granule, &mut left, progress)?;
    let further = Further { to_the_end, beside };
    Ok(Answer::Blamed { blame, further })
}

/// The answer of a trace that no order explains, not even the operations of this granule.
fn unexplained<P: Progress>(
    alloc: Global,
    recorded: &Recorded,
    granule: u64,
    shown: usize,
    budget: u64,
    progress: &mut P,
) -> Result<Answer, AllocError>
    requires trace { IsUnexplained recorded.now }
    requires granule { IsUnexplainedIn recorded.now granule }
    ensures right { IfOk result (IsAnswer recorded.now shown) }
    ensures decided { IfOk result (λ answer. IfUndecided answer (λ doubt. ⊥)) }
    ensures said { IfOk result (SaysUnless recorded.now (LookedAtLeast P.looked progress.old progress.new budget)) }
    ensures looked { IfOk result (λ _. LookedSome P.looked progress.old progress.new) }
{
    let trace = recorded.trace();
    if let First::At(blame) = first_unexplained(alloc, trace, shown, budget, progress)? {
        return blamed(alloc, recorded, blame, shown, budget, progress);
    }
    let mut left = budget;
    let words = words_held(alloc, trace, granule, &mut left, progress)?;
    Ok(Answer::Unexplained { granule, words })
}

/// The answer of a trace that was not decided within so many states of this granule.
fn undecided<P: Progress>(
    alloc: Global,
    recorded: &Recorded,
    granule: u64,
    budget: u64,
    progress: &mut P,
) -> Result<Answer, AllocError>
    ensures right { IfOk result (λ answer. (most : ℕ) → IsAnswer recorded.now most answer) }
    ensures undecided { IfOk result (λ answer. IfUndecided answer (λ doubt. doubt.states ≡ budget)) }
    ensures said { IfOk result (SaysUnless recorded.now ⊥) }
    ensures far { IfOk result (λ answer. IfUndecided answer (IsFoundAsFar P.looked progress.old progress.new budget recorded.now.trace)) }
    ensures looked { IfOk result (λ _. LookedSome P.looked progress.old progress.new) }
{
    let doubt = doubt_of(alloc, recorded.trace(), granule, budget, progress)?;
    Ok(Answer::Undecided(doubt))
}

/// Whether the trace can be explained, and what can be said of it, looking at no more than `budget` states of each granule at
/// a time. `shown` is how many operations are shown at most before the one that is blamed.
///
/// ```
/// let answer = answer_of(alloc, &recorded, 16, 1_000_000, &mut NoProgress)?;
/// ```
pub fn answer_of<P: Progress>(
    alloc: Global,
    recorded: &Recorded,
    shown: usize,
    budget: u64,
    progress: &mut P,
) -> Result<Answer, AllocError>
    ensures right { IfOk result (IsAnswer recorded.now shown) }
    ensures undecided { IfOk result (λ answer. IfUndecided answer (λ doubt. doubt.states ≡ budget)) }
    ensures far { IfOk result (λ answer. IfUndecided answer (IsAsFar P.states P.looked progress.old progress.new budget recorded.now.trace)) }
    ensures said { IfOk result (SaysUnless recorded.now (SpentAfter P.states P.looked progress.old progress.new budget)) }
    ensures spent { IfOk result (LookedForAnswer P.states P.looked progress.old progress.new) }
{
    match verdict_of(alloc, recorded, budget, progress)? {
        Verdict::Explained(order) => Ok(Answer::Explained { order }),
        Verdict::Unexplained { granule } => unexplained(
            alloc, recorded, granule, shown, budget, progress,
        ),
        Verdict::Undecided { granule, states: _ } => undecided(
            alloc, recorded, granule, budget, progress,
        ),
    }
}
