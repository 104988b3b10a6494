//! Tests of whole traces with answers that were worked by hand.

use crate::tests::comparison::assert_same;
use crate::tests::traces::{BUDGET, HIGH, LOW, LOWER, Timed, UPPER, WRITE, trace};
use crate::tests::verdicts::{Case, Told, assert_verdict, assert_verdicts, verdict};
use chi_search::{Found, NoProgress};
use chi_trace::{GranuleWords, Trace};
use chi_verdict::{Grouped, Verdict};
use std::alloc::Global;
use std::test::Fail;

const APART: [Timed; 3] = [
    Timed::Write((0, 10), HIGH, 5),
    Timed::Read((5, 15), LOW, 0),
    Timed::Read((11, 20), HIGH, 5),
];

const LOW_ALONE: [Timed; 1] = [Timed::Read((5, 15), LOW, 0)];

const OPEN: [Timed; 2] = [
    Timed::Silent((0, u64::MAX), WRITE, LOW, 4),
    Timed::Read((5, 10), LOW, 4),
];

static ENDS: [Case; 11] = [
    ("granules_far_apart", &[], &APART, &[], Told::Explained(3)),
    (
        "granules_far_apart: 0 and 5",
        &[],
        &APART,
        &[(LOW, 0), (HIGH, 5)],
        Told::Explained(3),
    ),
    (
        "granules_far_apart: 1 and 5",
        &[],
        &APART,
        &[(LOW, 1), (HIGH, 5)],
        Told::Unexplained(LOWER),
    ),
    (
        "granules_far_apart: 0 and 0",
        &[],
        &APART,
        &[(LOW, 0), (HIGH, 0)],
        Told::Unexplained(UPPER),
    ),
    (
        "stale_read_in_one_granule",
        &[],
        &[
            Timed::Write((0, 10), HIGH, 5),
            Timed::Read((5, 15), LOW, 0),
            Timed::Read((11, 20), HIGH, 0),
        ],
        &[],
        Told::Unexplained(UPPER),
    ),
    (
        "word_of_a_granule_without_operations: 0",
        &[],
        &LOW_ALONE,
        &[(HIGH, 0)],
        Told::Explained(1),
    ),
    (
        "word_of_a_granule_without_operations: 7",
        &[],
        &LOW_ALONE,
        &[(HIGH, 7)],
        Told::Unexplained(UPPER),
    ),
    (
        "word_of_a_granule_without_operations: none at all",
        &[],
        &[],
        &[(LOW, 7)],
        Told::Unexplained(LOWER),
    ),
    (
        "word_of_a_granule_without_operations: as at the opening",
        &[(LOW, 4)],
        &[],
        &[(LOW, 4)],
        Told::Ordered(&[]),
    ),
    (
        "open_write_that_a_read_found: 4",
        &[],
        &OPEN,
        &[(LOW, 4)],
        Told::Explained(2),
    ),
    (
        "open_write_that_a_read_found: 0",
        &[],
        &OPEN,
        &[(LOW, 0)],
        Told::Unexplained(LOWER),
    ),
];

#[test]
fn words_at_the_end_of_granules_apart(rt: HostRuntime) -> Result<(), Fail> {
    assert_verdicts(&rt, &ENDS)
}

// Six hundred writes, each of another granule.
fn writes_apart(alloc: Global) -> Result<Vec<Timed>, Fail> {
    let mut ops = Vec::new(alloc);
    for granule in 0..600 {
        ops.push(Timed::Write((granule, granule + 9), HIGH - 64 * granule, granule))?;
    }
    Ok(ops)
}

#[test]
fn more_granules_than_a_region_has(rt: HostRuntime) -> Result<(), Fail> {
    let ops = writes_apart(rt.alloc())?;
    assert_verdict(&rt, "600", &[], &ops, &[], Told::Explained(600))
}

#[test]
fn undecided_where_the_budget_was_spent(rt: HostRuntime) -> Result<(), Fail> {
    let ops = [
        Timed::Add((0, 9), LOW, 1),
        Timed::Add((0, 9), LOW, 0),
        Timed::Read((0, 9), HIGH, 0),
    ];
    let found = match verdict(rt.alloc(), &[], &ops, &[], 2, &mut NoProgress)? {
        Verdict::Undecided { granule, states } => (granule, states),
        _ => (0, 0),
    };
    assert_same(&rt, found, (LOWER, 2));
    Ok(())
}

// The order of one granule of a trace, or nothing.
fn order_of_one(alloc: Global, trace: &Trace, granule: u64) -> Result<Option<Vec<usize>>, Fail> {
    let grouped = Grouped::of(alloc, trace)?;
    let none = GranuleWords::none(alloc);
    let mut budget = BUDGET;
    match grouped.explain(alloc, &none, granule, &mut budget, &mut NoProgress)? {
        Found::Order(order) => Ok(Some(order)),
        Found::Nothing => Ok(None),
        Found::Undecided => Err(Fail::new("the budget was spent")),
    }
}

#[test]
fn granules_one_after_the_other(rt: HostRuntime) -> Result<(), Fail> {
    let ops = [
        Timed::Write((0, 10), HIGH, 5),
        Timed::Read((5, 15), LOW, 1),
        Timed::Read((11, 20), HIGH, 5),
    ];
    let trace = trace(rt.alloc(), &[], &ops)?;
    let none: &[usize] = &[];
    let both: &[usize] = &[0, 2];
    for (case, granule, wanted) in &[
        ("UPPER", UPPER, Some(both)),
        ("LOWER", LOWER, None),
        ("LOWER + 1", LOWER + 1, Some(none)),
    ] {
        let found = order_of_one(rt.alloc(), &trace, *granule)?;
        assert_same(&rt, (*case, found.as_deref()), (*case, *wanted));
    }
    Ok(())
}
