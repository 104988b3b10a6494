//! What is said where the events end.

use crate::tests::comparison::assert_same;
use crate::tests::home::{BUDGET, GRANULE, Told, ending_of};
use chi_watch::Ending;
use std::alloc::Global;
use std::process::Abort;
use std::test::Fail;

// The granules that are found at the end.
fn unexplained(alloc: Global, ending: &Ending) -> Result<Vec<u64>, Fail> {
    Ok(
        ending
            .unexplained
            .iter()
            .map(|it| it.granule)
            .collect(alloc)?,
    )
}

// Those that are not decided, and the times up to which they are explained.
fn undecided(alloc: Global, ending: &Ending) -> Result<Vec<(u64, Option<u64>)>, Fail> {
    Ok(
        ending
            .undecided
            .iter()
            .map(|it| (it.granule, it.explained))
            .collect(alloc)?,
    )
}

/// Compares the granules that are found at the end of these events within so many states, and those that are not decided, with the
/// times up to which they are explained where these are told. A granule is found by one of the events only where one is not decided.
pub(crate) fn assert_ending<R: AllocGlobal + Abort>(
    rt: &R,
    case: &str,
    events: &[Told],
    budget: u64,
    wanted: &[u64],
    open: &[(u64, Option<u64>)],
) -> Result<(), Fail> {
    let ending = ending_of(rt.alloc(), events, budget, !open.is_empty())?;
    let found = unexplained(rt.alloc(), &ending)?;
    assert_same(rt, (case, found.as_slice()), (case, wanted));
    let found = undecided(rt.alloc(), &ending)?;
    assert_same(rt, (case, found.len()), (case, open.len()));
    for ((granule, explained), (wanted, time)) in found.iter().zip(open) {
        assert_same(rt, (case, *granule), (case, *wanted));
        if time.is_some() {
            assert_same(rt, (case, *explained), (case, *time));
        }
    }
    Ok(())
}

// A name, the events, how many states there are, and the granules that are found and that are not decided.
type Case = (
    &'static str,
    &'static [Told],
    u64,
    &'static [u64],
    &'static [(u64, Option<u64>)],
);

fn assert_endings<R: AllocGlobal + Abort>(rt: &R, cases: &[Case]) -> Result<(), Fail> {
    for (case, events, budget, wanted, open) in cases {
        assert_ending(rt, case, events, *budget, wanted, open)?;
    }
    Ok(())
}

// A name, the events and the granules that are found, where each is decided.
type DecidedCase = (&'static str, &'static [Told], &'static [u64]);

fn assert_ends<R: AllocGlobal + Abort>(rt: &R, cases: &[DecidedCase]) -> Result<(), Fail> {
    for (case, events, wanted) in cases {
        assert_ending(rt, case, events, BUDGET, wanted, &[])?;
    }
    Ok(())
}

// A write that is still open may have taken effect or not, and so may a read that is; but no write is of 6. The word at the end is the
// one that the operations leave. A granule of which nothing else is told has the word 0, or the one that was told before its first
// request. Where the word of the higher address is told first, the granules stand in the order of their addresses.
static DECIDED: [DecidedCase; 10] = [
    ("no_events", &[], &[]),
    (
        "operations_that_are_open: 0",
        &[
            Told::Write(1, 5),
            Told::Read(2),
            Told::Answer(2, 0),
            Told::ReadNext(3),
        ],
        &[],
    ),
    (
        "operations_that_are_open: 5",
        &[
            Told::Write(1, 5),
            Told::Read(2),
            Told::Answer(2, 5),
            Told::ReadNext(3),
        ],
        &[],
    ),
    (
        "operations_that_are_open: 6",
        &[
            Told::Write(1, 5),
            Told::Read(2),
            Told::Answer(2, 6),
            Told::ReadNext(3),
        ],
        &[GRANULE],
    ),
    (
        "words_at_the_end: 5",
        &[Told::Write(1, 5), Told::Done(1), Told::Final(5)],
        &[],
    ),
    (
        "words_at_the_end: 0",
        &[Told::Write(1, 5), Told::Done(1), Told::Final(0)],
        &[GRANULE],
    ),
    (
        "words_of_a_granule_without_requests: 7",
        &[Told::Word(7), Told::Final(7)],
        &[],
    ),
    (
        "words_of_a_granule_without_requests: 8",
        &[Told::Word(7), Told::Final(8)],
        &[GRANULE],
    ),
    (
        "words_of_a_granule_without_requests: 0",
        &[Told::Final(0)],
        &[],
    ),
    (
        "granules_in_the_order_of_their_addresses",
        &[Told::FinalNext(3), Told::Final(4)],
        &[GRANULE, GRANULE + 1],
    ),
];

#[test]
fn granules_found_at_the_end(rt: HostRuntime) -> Result<(), Fail> {
    assert_ends(&rt, &DECIDED)
}

// Two additions overlap, and the one that ends first tells that the other one came before it: within a budget of no states that
// cannot be decided. Of the next granule only the word at the end is told, which is decided without a state. And seven additions of even numbers overlap, and a read beside them answers 1, which no set
// of them leaves: there are 128 sets, and 50 states are too few. The last addition ends at time 15, and the read at 16. Up to 15 any
// order of the additions is right.
static UNDECIDED: [Case; 2] = [
    (
        "no_budget",
        &[
            Told::Add(1, 1),
            Told::Add(2, 1),
            Told::Answer(1, 1),
            Told::FinalNext(3),
        ],
        0,
        &[GRANULE + 1],
        &[(GRANULE, None)],
    ),
    (
        "time_up_to_which_it_is_explained",
        &[
            Told::StoreAdd(1, 2),
            Told::StoreAdd(2, 4),
            Told::StoreAdd(3, 8),
            Told::StoreAdd(4, 16),
            Told::StoreAdd(5, 32),
            Told::StoreAdd(6, 64),
            Told::StoreAdd(7, 128),
            Told::Read(8),
            Told::Done(1),
            Told::Done(2),
            Told::Done(3),
            Told::Done(4),
            Told::Done(5),
            Told::Done(6),
            Told::Done(7),
            Told::Answer(8, 1),
        ],
        50,
        &[],
        &[(GRANULE, Some(15))],
    ),
];

#[test]
fn granules_not_decided_at_the_end(rt: HostRuntime) -> Result<(), Fail> {
    assert_endings(&rt, &UNDECIDED)
}
