//! What is found of operations on one granule, and what is wanted of that.

use super::operations::{Timed, observed};
use crate::tests::comparison::assert_same;
use chi_search::{Found, NoProgress, Words, are_searchable, order_of, words_of};
use std::alloc::Global;
use std::process::Abort;
use std::test::Fail;

/// What is wanted of the numbers that are found: all of them, or how many there are and of an order also the first or the last.
/// In the place of an order stands the number 999 alone where there is none, 998 where the budget was spent, and 997 where the
/// operations cannot be searched.
#[derive(Clone, Copy)]
pub(crate) enum Numbers<'a> {
    These(&'a [usize]),
    Many(usize, Option<usize>, Option<usize>),
}

/// Where there is no order.
pub(crate) const NOTHING: Numbers<'static> = Numbers::These(&[999]);

// Whether the numbers are an order of so many operations, with these at its ends where they are told.
fn is_order_of(found: &[usize], count: usize, first: Option<usize>, last: Option<usize>) -> bool {
    found.len() == count
        && found.iter().all(|place| *place < 997)
        && (first.is_none() || found.first().copied() == first)
        && (last.is_none() || found.last().copied() == last)
}

/// Compares the numbers that are found in a case with those that are wanted.
pub(crate) fn assert_numbers<R: Abort>(rt: &R, case: &str, found: &[usize], wanted: Numbers<'_>) {
    match wanted {
        Numbers::These(numbers) => assert_same(rt, (case, found), (case, numbers)),
        Numbers::Many(count, first, last) => {
            let is_wanted = is_order_of(found, count, first, last);
            assert_same(rt, (case, found, is_wanted), (case, found, true));
        }
    }
}

/// How many states may be left of a budget, at least and at most.
pub(crate) type Left = (u64, u64);

pub(crate) const ANY: Left = (0, u64::MAX);

pub(crate) const SPENT: Left = (0, 0);

/// Compares how many states are left in a case.
pub(crate) fn assert_left<R: Abort>(rt: &R, case: &str, left: u64, (least, most): Left) {
    assert_same(
        rt,
        (case, left, least <= left && left <= most),
        (case, left, true),
    );
}

/// The numbers that stand for what is found.
pub(crate) fn numbers_of(alloc: Global, found: Found) -> Result<Vec<usize>, Fail> {
    match found {
        Found::Order(order) => Ok(order),
        Found::Nothing => Ok(vec![in alloc; 999; 1]?),
        Found::Undecided => Ok(vec![in alloc; 998; 1]?),
    }
}

// The order that is found from the word 0 on.
fn order(
    alloc: Global,
    ops: &[Timed],
    final_word: Option<u64>,
    budget: &mut u64,
) -> Result<Vec<usize>, Fail> {
    let ops = observed(alloc, ops)?;
    if !are_searchable(&ops) {
        return Ok(vec![in alloc; 997; 1]?);
    }
    numbers_of(
        alloc,
        order_of(alloc, &ops, 0, final_word, budget, &mut NoProgress)?,
    )
}

/// Compares the order that is found of operations within so many states, with this word at the end if one is told, and how many states
/// are left.
pub(crate) fn assert_found<R: AllocGlobal + Abort>(
    rt: &R,
    case: &str,
    ops: &[Timed],
    final_word: Option<u64>,
    (budget, left): (u64, Left),
    wanted: Numbers<'_>,
) -> Result<(), Fail> {
    let mut states = budget;
    let found = order(rt.alloc(), ops, final_word, &mut states)?;
    assert_numbers(rt, case, &found, wanted);
    assert_left(rt, case, states, left);
    Ok(())
}

/// A case has a name, the operations, the word at the end if one is told, how many states there are and are left, and what is wanted.
pub(crate) type Case = (
    &'static str,
    &'static [Timed],
    Option<u64>,
    (u64, Left),
    Numbers<'static>,
);

/// Compares what is found in each case. The cases of a test are a static, which a proof takes as it is; a table in the test's body it
/// goes through value by value.
pub(crate) fn assert_each_found<R: AllocGlobal + Abort>(
    rt: &R,
    cases: &[Case],
) -> Result<(), Fail> {
    for (case, ops, final_word, states, wanted) in cases {
        assert_found(rt, case, ops, *final_word, *states, *wanted)?;
    }
    Ok(())
}

/// The same within 1,000 states, whose order is wanted.
pub(crate) type OrderCase = (
    &'static str,
    &'static [Timed],
    Option<u64>,
    &'static [usize],
);

/// Compares the orders that are found within 1,000 states.
pub(crate) fn assert_orders<R: AllocGlobal + Abort>(
    rt: &R,
    cases: &[OrderCase],
) -> Result<(), Fail> {
    for (case, ops, final_word, wanted) in cases {
        let wanted = Numbers::These(*wanted);
        assert_found(rt, case, ops, *final_word, (1000, ANY), wanted)?;
    }
    Ok(())
}

// The words that the operations can leave from these words on, in rising order. In their place stands the number 998 alone
// where the budget was spent, and 997 where the operations cannot be searched.
fn words(
    alloc: Global,
    ops: &[Timed],
    opening: &[u64],
    budget: &mut u64,
) -> Result<Vec<u64>, Fail> {
    let ops = observed(alloc, ops)?;
    if !are_searchable(&ops) {
        return Ok(vec![in alloc; 997; 1]?);
    }
    match words_of(alloc, &ops, opening, budget, &mut NoProgress)? {
        Words::Each(mut each) => {
            each.sort()?;
            Ok(each)
        }
        Words::Unknown => Ok(vec![in alloc; 998; 1]?),
    }
}

/// A case has a name, the operations, the words from which they go on, how many states there are and are left, and the words that are
/// wanted.
pub(crate) type WordsCase = (
    &'static str,
    &'static [Timed],
    &'static [u64],
    (u64, Left),
    &'static [u64],
);

/// Compares the words that are found of the operations of each case, in rising order, and how many states are left.
pub(crate) fn assert_words<R: AllocGlobal + Abort>(
    rt: &R,
    cases: &[WordsCase],
) -> Result<(), Fail> {
    for (case, ops, opening, (budget, left), wanted) in cases {
        let mut states = *budget;
        let found = words(rt.alloc(), ops, opening, &mut states)?;
        assert_same(rt, (*case, found.as_slice()), (*case, *wanted));
        assert_left(rt, case, states, *left);
    }
    Ok(())
}
