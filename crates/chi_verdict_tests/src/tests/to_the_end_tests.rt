//! Tests of whether a legal response explains a granule to its end.

use crate::tests::comparison::assert_same;
use crate::tests::traces::{BUDGET, LOW, NEXT, Timed, trace, words};
use crate::tests::verdicts::blame;
use chi_search::NoProgress;
use chi_verdict::legal_to_the_end;
use std::alloc::Global;
use std::test::Fail;

// Two additions of 1 to 0 that both answered 0, the second of which is blamed: 1 is legal in its place, and leaves 2.
const FIRST: Timed = Timed::Add((10, 20), LOW, 0);

const BLAMED: Timed = Timed::Add((30, 40), LOW, 0);

/// A case has a name, the operations, the words at the end, how many states may be looked at, and what is wanted.
type Case = (
    &'static str,
    &'static [Timed],
    &'static [(u64, u64)],
    u64,
    Option<bool>,
);

static CASES: [Case; 8] = [
    ("nothing follows", &[FIRST, BLAMED], &[], BUDGET, Some(true)),
    (
        "2 is read",
        &[FIRST, BLAMED, Timed::Read((50, 60), LOW, 2)],
        &[],
        BUDGET,
        Some(true),
    ),
    (
        "1 is read",
        &[FIRST, BLAMED, Timed::Read((50, 60), LOW, 1)],
        &[],
        BUDGET,
        Some(false),
    ),
    (
        "2 at the end",
        &[FIRST, BLAMED],
        &[(LOW, 2)],
        BUDGET,
        Some(true),
    ),
    (
        "1 at the end",
        &[FIRST, BLAMED],
        &[(LOW, 1)],
        BUDGET,
        Some(false),
    ),
    (
        "another granule is wrong later",
        &[FIRST, BLAMED, Timed::Read((50, 60), NEXT, 1)],
        &[],
        BUDGET,
        Some(true),
    ),
    (
        "either of two words",
        &[
            Timed::Write((10, 40), LOW, 5),
            Timed::Read((20, 30), LOW, 6),
            Timed::Read((35, 38), LOW, 0),
        ],
        &[],
        BUDGET,
        Some(true),
    ),
    ("no states", &[FIRST, BLAMED], &[], 0, None),
];

// What is found of the operation that is blamed.
fn found(
    alloc: Global,
    ops: &[Timed],
    final_words: &[(u64, u64)],
    budget: u64,
) -> Result<Option<bool>, Fail> {
    let Some(blame) = blame(alloc, ops, 16)? else {
        return Err(Fail::new("none is blamed"));
    };
    let trace = trace(alloc, &[], ops)?;
    let final_words = words(alloc, final_words)?;
    let mut left = budget;
    Ok(legal_to_the_end(
        alloc,
        &trace,
        &final_words,
        &blame,
        &mut left,
        &mut NoProgress,
    )?)
}

#[test]
fn legal_responses_to_the_end(rt: HostRuntime) -> Result<(), Fail> {
    for (case, ops, final_words, budget, wanted) in &CASES {
        let said = found(rt.alloc(), ops, final_words, *budget)?;
        assert_same(&rt, (*case, said), (*case, *wanted));
    }
    Ok(())
}
