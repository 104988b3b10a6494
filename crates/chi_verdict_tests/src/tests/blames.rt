//! What is said of the operation at which a trace stops being explained, and what is wanted of that.

use crate::tests::comparison::assert_same;
use crate::tests::traces::Timed;
use crate::tests::verdicts::blame;
use chi_search::Words;
use chi_trace::Operation;
use chi_verdict::Blame;
use std::alloc::Global;
use std::process::Abort;
use std::test::Fail;

/// What is wanted of the operation that is blamed:
///
/// - `At`: the number of the granule, the time and the number of the operation; `Time` leaves the granule out.
/// - `Suspects`, `Before`: the numbers of the operations of which it may be any, and of those that had ended before.
/// - `Open`: those that were open, in rising order.
/// - `Holds`: the words that the granule can hold then, in rising order.
/// - `Has`, `Starts`: the order up to the time before has this place; it starts with these once place 0 is left out.
#[derive(Clone, Copy)]
pub(crate) enum Says<'a> {
    At(u64, u64, u64),
    Time(u64, u64),
    Suspects(&'a [u64]),
    Before(&'a [u64]),
    Open(&'a [u64]),
    Holds(&'a [u64]),
    Has(usize),
    Starts(&'a [usize]),
}

fn numbers(alloc: Global, ops: &[Operation]) -> Result<Vec<u64>, Fail> {
    Ok(ops.iter().map(|op| op.number).collect(alloc)?)
}

fn rising(alloc: Global, each: &[u64]) -> Result<Vec<u64>, Fail> {
    let mut list = Vec::from_slice(alloc, each)?;
    list.sort()?;
    Ok(list)
}

// The numbers that are compared with those that are wanted.
fn found(alloc: Global, blame: &Blame, says: Says<'_>) -> Result<Vec<u64>, Fail> {
    let stop = &blame.stop;
    match says {
        Says::Suspects(_) => numbers(alloc, &stop.suspects),
        Says::Before(_) => numbers(alloc, &stop.before),
        Says::Open(_) => rising(alloc, &numbers(alloc, &stop.overlapping)?),
        _ => match &stop.words {
            Words::Each(words) => rising(alloc, words),
            Words::Unknown => Err(Fail::new("the words are not known")),
        },
    }
}

// Whether the order starts with these places once place 0 is left out.
fn starts(order: &[usize], wanted: &[usize]) -> bool {
    let mut rest = order.iter().filter(|place| **place != 0);
    wanted.iter().all(|place| rest.next() == Some(place))
}

fn assert_says<R: AllocGlobal + Abort>(
    rt: &R,
    case: &str,
    blame: &Blame,
    says: Says<'_>,
) -> Result<(), Fail> {
    let at = (blame.stop.time, blame.stop.op.number);
    match says {
        Says::At(granule, time, number) => {
            assert_same(
                rt,
                (case, blame.granule, at),
                (case, granule, (time, number)),
            );
        }
        Says::Time(time, number) => assert_same(rt, (case, at), (case, (time, number))),
        Says::Has(place) => assert_same(rt, (case, blame.order.contains(&place)), (case, true)),
        Says::Starts(places) => assert_same(rt, (case, starts(&blame.order, places)), (case, true)),
        Says::Suspects(wanted) | Says::Before(wanted) | Says::Open(wanted) | Says::Holds(wanted) =>
            {
                let found = found(rt.alloc(), blame, says)?;
                assert_same(rt, (case, found.as_slice()), (case, wanted));
            }
    }
    Ok(())
}

/// Operations, and what is wanted where they stop being explained, with so many of those that had ended at most. Where nothing is wanted
/// they are explained at each time.
pub(crate) type Case = (
    &'static str,
    &'static [Timed],
    usize,
    &'static [Says<'static>],
);

/// Compares what is said of the operation at which these operations stop being explained, in each case, which has a name.
pub(crate) fn assert_blamed<R: AllocGlobal + Abort>(rt: &R, cases: &[Case]) -> Result<(), Fail> {
    for (case, ops, shown, wanted) in cases {
        match blame(rt.alloc(), ops, *shown)? {
            Some(blame) => {
                assert_same(rt, (*case, wanted.is_empty()), (*case, false));
                for says in *wanted {
                    assert_says(rt, case, &blame, *says)?;
                }
            }
            None => assert_same(rt, (*case, wanted.len()), (*case, 0)),
        }
    }
    Ok(())
}
