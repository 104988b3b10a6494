//! Tests of the words of granules: those that are told, and those that can be held.

use crate::tests::comparison::assert_same;
use crate::tests::traces::{ADD, BUDGET, HIGH, LOW, NEXT, Timed, trace, words};
use chi_search::{NoProgress, Progress, Words};
use chi_trace::{GranuleWord, GranuleWords};
use chi_verdict::words_held;
use std::alloc::Global;
use std::collections::BTreeMap;
use std::process::Abort;
use std::test::Fail;

#[test]
fn words_that_are_told(rt: HostRuntime) -> Result<(), Fail> {
    let told = words(rt.alloc(), &[(LOW, 3), (HIGH, 4)])?;
    let found = (
        told.get(LOW / 8),
        told.get(LOW / 8 + 1),
        told.get(HIGH / 8),
        told.as_slice().len(),
    );
    assert_same(&rt, found, (Some(3), None, Some(4), 2));
    Ok(())
}

#[test]
fn granule_told_twice(rt: HostRuntime) -> Result<(), Fail> {
    let mut list = Vec::new(rt.alloc());
    list.push(GranuleWord {
        granule: 7,
        word: 1,
    })?;
    list.push(GranuleWord {
        granule: 7,
        word: 1,
    })?;
    assert_same(&rt, GranuleWords::new(list).is_none(), true);
    Ok(())
}

// The granules are put into the map out of order, one of them twice. A word that is 0 is told as any other.
#[test]
fn words_of_a_map(rt: HostRuntime) -> Result<(), Fail> {
    let alloc = rt.alloc();
    let mut map = BTreeMap::new(alloc);
    for (granule, word) in [(9, 1), (u64::MAX, u64::MAX), (0, 0), (9, 2)] {
        map.insert(granule, word)?;
    }
    let told = GranuleWords::of_map(alloc, &map)?;
    let mut list = Vec::new(alloc);
    for each in told.as_slice() {
        list.push((each.granule, each.word))?;
    }
    let wanted = [(0, 0), (9, 2), (u64::MAX, u64::MAX)];
    assert_same(&rt, list.as_slice(), wanted.as_slice());
    assert_same(&rt, (told.get(9), told.get(8)), (Some(2), None));
    let none: BTreeMap<u64, u64> = BTreeMap::new(alloc);
    let none = GranuleWords::of_map(alloc, &none)?;
    assert_same(&rt, none.as_slice().len(), 0);
    Ok(())
}

/// The words that a granule can hold after the operations, from these words on, in rising order.
pub(crate) fn held_within<P: Progress>(
    alloc: Global,
    opening: &[(u64, u64)],
    ops: &[Timed],
    addr: u64,
    budget: &mut u64,
    progress: &mut P,
) -> Result<Vec<u64>, Fail> {
    let trace = trace(alloc, opening, ops)?;
    match words_held(alloc, &trace, addr / 8, budget, progress)? {
        Words::Each(mut each) => {
            each.sort()?;
            Ok(each)
        }
        Words::Unknown => Err(Fail::new("the budget was spent")),
    }
}

// A name, the words at the opening, the operations, an address and the words that its granule can hold.
type Case = (
    &'static str,
    &'static [(u64, u64)],
    &'static [Timed],
    u64,
    &'static [u64],
);

fn assert_held<R: AllocGlobal + Abort>(rt: &R, cases: &[Case]) -> Result<(), Fail> {
    for (case, opening, ops, addr, wanted) in cases {
        let mut budget = BUDGET;
        let found = held_within(
            rt.alloc(),
            opening,
            ops,
            *addr,
            &mut budget,
            &mut NoProgress,
        )?;
        assert_same(rt, (*case, found.as_slice()), (*case, *wanted));
    }
    Ok(())
}

const TWO_WRITES: [Timed; 2] = [
    Timed::Write((0, 10), NEXT, 4),
    Timed::Write((0, 10), NEXT, 6),
];

// Where two writes overlap, either may be the last one.
static HELD: [Case; 3] = [
    (
        "words_that_a_granule_can_hold",
        &[],
        &[
            Timed::Silent((0, 10), ADD, LOW, 1),
            Timed::Read((0, 20), HIGH, 0),
        ],
        LOW,
        &[0, 1],
    ),
    (
        "either_write_last",
        &[(LOW, 7), (NEXT, 0)],
        &TWO_WRITES,
        NEXT,
        &[4, 6],
    ),
    (
        "either_write_last: the other granule",
        &[(LOW, 7), (NEXT, 0)],
        &TWO_WRITES,
        LOW,
        &[7],
    ),
];

#[test]
fn words_that_a_granule_can_hold(rt: HostRuntime) -> Result<(), Fail> {
    assert_held(&rt, &HELD)
}
