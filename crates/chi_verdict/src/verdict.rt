//! Whether a whole trace is explained.

ghost use Rattle.std.specs.Prelude.{◌≡◌, ℕ, List, IfOk};
ghost use Rattle.chi_trace.specs.Explains.{Explains, IsTrace};
ghost use Rattle.chi_trace.specs.Granules.{ExplainsGranule};
ghost use Rattle.chi_trace.specs.Traces.{IsExplained, IsExplainedIn};
ghost use Rattle.chi_verdict.specs.Verdicts.{IfExplained, IfUndecided, IfUnexplained, LookedForVerdict};
ghost use Rattle.chi_trace.specs.Words.{AreWords, find_word, memory_of, word_or_zero};

use crate::granule::{Group, search_granule};
use crate::grouping::by_granule;
use crate::merge_orders::{Point, add_points, merge_orders};
use crate::next_granule::{next_granule, past_granule, past_word};
use chi_search::{Found, Progress};
use chi_trace::laws::{parts_explain, parts_join};
use chi_trace::{GranuleWords, Operation, Trace};
use std::alloc::{AllocError, Global};

/// What is found of a trace.
///
/// - `Explained`: this order of its places explains it.
/// - `Unexplained`: no order does, not even of this granule's operations alone.
/// - `Undecided`: neither was found; of this granule so many states were looked at, which is the whole budget.
#[derive(Debug, Drop)]
pub enum Verdict {
    Explained(Vec<usize>),
    Unexplained { granule: u64 },
    Undecided { granule: u64, states: u64 },
}

/// Whether the operations can be explained, from these words on.
pub(crate) fn explain_operations<P: Progress>(
    alloc: Global,
    opening: &GranuleWords,
    final_words: &GranuleWords,
    ops: &[Operation],
    budget: u64,
    progress: &mut P,
) -> Result<Verdict, AllocError>
    requires words { AreWords opening.now }
    requires traced { IsTrace ops.now }
    ensures explained { IfOk result (λ verdict. IfExplained verdict (λ order. Explains (memory_of opening.now) (find_word final_words.now) ops.now order)) }
    ensures unexplained { IfOk result (λ verdict. IfUnexplained verdict (λ granule. (order : List ℕ) → Explains (memory_of opening.now) (find_word final_words.now) ops.now order → ⊥)) }
    ensures granule { IfOk result (λ verdict. IfUnexplained verdict (λ granule. (order : List ℕ) → ExplainsGranule ops.now granule (word_or_zero opening.now granule) (find_word final_words.now granule) order → ⊥)) }
    ensures undecided { IfOk result (λ verdict. IfUndecided verdict (λ states. states ≡ budget)) }
    ensures spent { IfOk result (λ verdict. LookedForVerdict P.looked progress.old progress.new verdict) }
{
    let grouped = by_granule(alloc, ops)?;
    let places = grouped.as_slice();
    let words = final_words.as_slice();
    parts_explain();
    parts_join();
    let mut points: Vec<Point> = Vec::with_capacity(alloc, ops.len())?;
    let mut undecided = None;
    let mut from = 0;
    let mut last_place = 0;
    while let Some(granule) = next_granule(places, from, words, last_place) {
        let to = past_granule(places, from, granule);
        let group = Group {
            granule,
            run: &places[from..to],
        };
        let mut left = budget;
        let final_word = final_words.get(granule);
        match search_granule(
            alloc,
            ops,
            &group,
            opening.word(granule),
            final_word,
            &mut left,
            progress,
        )? {
            Found::Order(order) => add_points(&mut points, ops, &order)?,
            Found::Nothing => return Ok(Verdict::Unexplained { granule }),
            Found::Undecided => {
                if undecided.is_none() {
                    undecided = Some(granule);
                }
            }
        }
        from = to;
        last_place = past_word(words, last_place, granule);
    }
    if let Some(granule) = undecided {
        return Ok(Verdict::Undecided {
            granule,
            states: budget,
        });
    }
    let order = merge_orders(alloc, ops, &mut points)?;
    Ok(Verdict::Explained(order))
}

/// Whether the operations that were observed can be explained: whether an order of them leads from the words at the opening to
/// those that were observed at the end, each operation whose reply was seen once and each other at most once, none before one
/// that ended before it started, and each reply that of the memory that those before it leave. `budget` is how many states of
/// each granule may be looked at.
///
/// ```
/// let verdict = explain(alloc, &trace, &GranuleWords::none(alloc), 1_000_000, &mut NoProgress)?;
/// ```
pub fn explain<P: Progress>(
    alloc: Global,
    trace: &Trace,
    final_words: &GranuleWords,
    budget: u64,
    progress: &mut P,
) -> Result<Verdict, AllocError>
    ensures explained { IfOk result (λ verdict. IfExplained verdict (IsExplained trace.now final_words.now)) }
    ensures unexplained { IfOk result (λ verdict. IfUnexplained verdict (λ granule. (order : List ℕ) → IsExplained trace.now final_words.now order → ⊥)) }
    ensures granule { IfOk result (λ verdict. IfUnexplained verdict (λ granule. (order : List ℕ) → IsExplainedIn trace.now final_words.now granule order → ⊥)) }
    ensures undecided { IfOk result (λ verdict. IfUndecided verdict (λ states. states ≡ budget)) }
    ensures spent { IfOk result (λ verdict. LookedForVerdict P.looked progress.old progress.new verdict) }
{
    explain_operations(
        alloc,
        trace.opening(),
        final_words,
        trace.operations(),
        budget,
        progress,
    )
}
