//! What tests tell a search whose operations come one after the other, and what they ask of it.

use super::found::{Left, Numbers, assert_left, assert_numbers, numbers_of};
use super::operations::{Timed, observed};
use crate::tests::comparison::assert_same;
use chi_search::{Frontier, NoProgress, Words};
use std::alloc::Global;
use std::process::Abort;
use std::test::Fail;

/// A step of a test:
///
/// - `Take`: the search takes these operations, each as the next one.
/// - `Refuse`: it does not take this one.
/// - `Past`: it goes on past this time, from 1,000 positions at most, within so many states.
/// - `After`: it goes on after these of its operations, or cannot.
/// - `Looks`: whether it would go on past this time, from so many positions at most, within so many states, and how many of them it
///   looks at.
/// - `Keeps`: it has so many operations.
/// - `Leaves`: these are the words that can be left, in rising order.
/// - `Orders`: these are the numbers of the order that is found, with this word at the end if one is told, within so many states, and
///   how many of them are left.
#[derive(Clone, Copy)]
pub(crate) enum Step<'a> {
    Take(&'a [Timed]),
    Refuse(Timed),
    Past(u64, u64),
    After(&'a [usize], bool),
    Looks(u64, usize, u64, (bool, u64)),
    Keeps(usize),
    Leaves(&'a [u64]),
    Orders(Option<u64>, (u64, Left), Numbers<'a>),
}

/// Tells these operations: whether each is taken.
pub(crate) fn tell(alloc: Global, frontier: &mut Frontier, ops: &[Timed]) -> Result<bool, Fail> {
    let ops = observed(alloc, ops)?;
    for op in &ops {
        if !frontier.add(op)? {
            return Ok(false);
        }
    }
    Ok(true)
}

/// The search past a time, if it goes on, and how many states it looked at.
pub(crate) fn past(
    alloc: Global,
    frontier: &Frontier,
    horizon: u64,
    most: usize,
    budget: u64,
) -> Result<(Option<Frontier>, u64), Fail> {
    let mut left = budget;
    let next = frontier.advanced(alloc, horizon, most, &mut left, &mut NoProgress)?;
    Ok((next, budget.saturating_sub(left)))
}

/// The words that can be left, in rising order. In their place stands the number 998 alone where the budget was spent.
pub(crate) fn words_left(alloc: Global, frontier: &Frontier) -> Result<Vec<u64>, Fail> {
    let mut budget = 1000;
    match frontier.words(alloc, &mut budget, &mut NoProgress)? {
        Words::Each(mut each) => {
            each.sort()?;
            Ok(each)
        }
        Words::Unknown => Ok(vec![in alloc; 998; 1]?),
    }
}

// The numbers that stand for the order that is found, and how many states are left.
fn order_within(
    alloc: Global,
    frontier: &Frontier,
    final_word: Option<u64>,
    budget: u64,
) -> Result<(Vec<usize>, u64), Fail> {
    let mut left = budget;
    let found = frontier.order(alloc, final_word, &mut left, &mut NoProgress)?;
    Ok((numbers_of(alloc, found)?, left))
}

// Puts the search that goes on in the place of this one, and says whether there is one.
fn replace(frontier: &mut Frontier, next: Option<Frontier>) -> bool {
    match next {
        Some(next) => {
            *frontier = next;
            true
        }
        None => false,
    }
}

// Whether the search does as this step wants, other than those that compare what is found.
fn does<R: AllocGlobal>(rt: &R, frontier: &mut Frontier, step: &Step<'_>) -> Result<bool, Fail> {
    match *step {
        Step::Take(ops) => tell(rt.alloc(), frontier, ops),
        Step::Refuse(op) => Ok(!tell(rt.alloc(), frontier, &[op])?),
        Step::Past(horizon, budget) => {
            let (next, _) = past(rt.alloc(), frontier, horizon, 1000, budget)?;
            Ok(replace(frontier, next))
        }
        Step::After(order, goes_on) => {
            let next = frontier.after(rt.alloc(), order)?;
            Ok(replace(frontier, next) == goes_on)
        }
        _ => Ok(true),
    }
}

// Compares what is found of the search with what this step wants.
fn assert_step<R: AllocGlobal + Abort>(
    rt: &R,
    case: &str,
    frontier: &Frontier,
    step: &Step<'_>,
) -> Result<(), Fail> {
    match *step {
        Step::Looks(horizon, most, budget, wanted) => {
            let (next, states) = past(rt.alloc(), frontier, horizon, most, budget)?;
            assert_same(rt, (case, (next.is_some(), states)), (case, wanted));
        }
        Step::Keeps(count) => {
            assert_same(rt, (case, frontier.operations().len()), (case, count));
        }
        Step::Leaves(words) => {
            let found = words_left(rt.alloc(), frontier)?;
            assert_same(rt, (case, found.as_slice()), (case, words));
        }
        Step::Orders(final_word, (budget, left), wanted) => {
            let (found, states) = order_within(rt.alloc(), frontier, final_word, budget)?;
            assert_numbers(rt, case, &found, wanted);
            assert_left(rt, case, states, left);
        }
        _ => {}
    }
    Ok(())
}

// Takes these steps, from these words on.
fn assert_steps<R: AllocGlobal + Abort>(
    rt: &R,
    case: &str,
    opening: &[u64],
    steps: &[Step<'_>],
) -> Result<(), Fail> {
    let mut frontier = Frontier::new(rt.alloc(), opening)?;
    for (place, step) in steps.iter().enumerate() {
        let is_done = does(rt, &mut frontier, step)?;
        assert_same(rt, (case, place, is_done), (case, place, true));
        assert_step(rt, case, &frontier, step)?;
    }
    Ok(())
}

/// A case has a name, the words from which it goes on, and steps.
pub(crate) type Case = (&'static str, &'static [u64], &'static [Step<'static>]);

/// Takes the steps of each case.
pub(crate) fn assert_searches<R: AllocGlobal + Abort>(rt: &R, cases: &[Case]) -> Result<(), Fail> {
    for (case, opening, steps) in cases {
        assert_steps(rt, case, opening, steps)?;
    }
    Ok(())
}
