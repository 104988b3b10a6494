//! What is found of traces, and where they stop being explained.

use crate::tests::comparison::assert_same;
use crate::tests::traces::{BUDGET, Timed, trace, words};
use chi_search::{NoProgress, Progress};
use chi_verdict::{Blame, First, Verdict, explain, first_unexplained};
use std::alloc::Global;
use std::process::Abort;
use std::test::Fail;

/// What is found of a trace: the order that explains it, or how many operations it has; or the number of the granule that is not
/// explained, or not decided.
#[derive(Clone, Copy, Debug, PartialEq, Eq)]
pub(crate) enum Told<'a> {
    Ordered(&'a [usize]),
    Explained(usize),
    Unexplained(u64),
    Undecided(u64),
}

/// What is found of operations within so many states, from these words at the opening to those at the end.
pub(crate) fn verdict<P: Progress>(
    alloc: Global,
    opening: &[(u64, u64)],
    ops: &[Timed],
    final_words: &[(u64, u64)],
    budget: u64,
    progress: &mut P,
) -> Result<Verdict, Fail> {
    let trace = trace(alloc, opening, ops)?;
    let final_words = words(alloc, final_words)?;
    Ok(explain(alloc, &trace, &final_words, budget, progress)?)
}

// Compares what is found of a trace in a case.
fn assert_told<R: Abort>(rt: &R, case: &str, found: &Verdict, wanted: Told<'_>) {
    let told = match (found, wanted) {
        (Verdict::Explained(order), Told::Explained(_)) => Told::Explained(order.len()),
        (Verdict::Explained(order), _) => Told::Ordered(order.as_slice()),
        (Verdict::Unexplained { granule }, _) => Told::Unexplained(*granule),
        (Verdict::Undecided { granule, .. }, _) => Told::Undecided(*granule),
    };
    assert_same(rt, (case, told), (case, wanted));
}

/// Compares what is found of operations in a case, from these words at the opening to those at the end.
pub(crate) fn assert_verdict<R: AllocGlobal + Abort>(
    rt: &R,
    case: &str,
    opening: &[(u64, u64)],
    ops: &[Timed],
    final_words: &[(u64, u64)],
    wanted: Told<'_>,
) -> Result<(), Fail> {
    let found = verdict(
        rt.alloc(),
        opening,
        ops,
        final_words,
        BUDGET,
        &mut NoProgress,
    )?;
    assert_told(rt, case, &found, wanted);
    Ok(())
}

/// A case has a name, the words at the opening, the operations, the words at the end, and what is wanted.
pub(crate) type Case = (
    &'static str,
    &'static [(u64, u64)],
    &'static [Timed],
    &'static [(u64, u64)],
    Told<'static>,
);

/// Compares what is found in each case.
pub(crate) fn assert_verdicts<R: AllocGlobal + Abort>(rt: &R, cases: &[Case]) -> Result<(), Fail> {
    for (case, opening, ops, final_words, wanted) in cases {
        assert_verdict(rt, case, opening, ops, final_words, *wanted)?;
    }
    Ok(())
}

/// Where these operations stop being explained, with so many of those that had ended at most, within so many states.
pub(crate) fn first<P: Progress>(
    alloc: Global,
    ops: &[Timed],
    shown: usize,
    budget: u64,
    progress: &mut P,
) -> Result<First, Fail> {
    let trace = trace(alloc, &[], ops)?;
    Ok(first_unexplained(alloc, &trace, shown, budget, progress)?)
}

/// What is said of the operation at which these stop being explained, with so many of those that had ended at most.
pub(crate) fn blame(alloc: Global, ops: &[Timed], shown: usize) -> Result<Option<Blame>, Fail> {
    match first(alloc, ops, shown, BUDGET, &mut NoProgress)? {
        First::Never => Ok(None),
        First::At(blame) => Ok(Some(blame)),
        First::Undecided { .. } => Err(Fail::new("the budget was spent")),
    }
}
