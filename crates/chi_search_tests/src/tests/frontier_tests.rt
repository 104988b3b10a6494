//! Tests of a search whose operations are told one after the other, which were worked by hand.

use super::frontier_steps::{Case, Step, assert_searches, past, tell, words_left};
use super::operations::{ADD, STORE_ADD, Timed};
use crate::tests::comparison::assert_same;
use chi_search::Frontier;
use std::alloc::Global;
use std::test::Fail;

const FIRST: Timed = Timed::Done((5, 15), STORE_ADD, 1);

const SECOND: Timed = Timed::Done((12, 20), STORE_ADD, 2);

const ENDED: Timed = Timed::Done((0, 10), STORE_ADD, 1);

const OPEN: Timed = Timed::Silent((5, u64::MAX), ADD, 2);

const LONG: Timed = Timed::Done((5, 30), STORE_ADD, 2);

// Two additions at the same time, of which the second one found what the first one left.
const ADDITIONS: Step<'static> = Step::Take(&[
    Timed::Told((0, 10), ADD, 1, 0),
    Timed::Told((5, 30), ADD, 2, 1),
]);

// Adds 1 a thousand times, where each addition starts before the one before it ends: how many words are kept at most, and those that
// can be left.
fn never_quiet(alloc: Global) -> Result<(usize, Vec<u64>), Fail> {
    let mut frontier = Frontier::new(alloc, &[0])?;
    let mut most = 0;
    for number in 0..1000 {
        let op = Timed::Told((10 * number, 10 * number + 15), ADD, 1, number);
        if !tell(alloc, &mut frontier, &[op])? {
            return Err(Fail::new("an operation was not taken"));
        }
        let (Some(next), _) = past(alloc, &frontier, 10 * number + 10, 1000, 1000)? else {
            return Err(Fail::new("the budget was spent"));
        };
        most = next.operations().len().max(most);
        frontier = next;
    }
    Ok((most, words_left(alloc, &frontier)?))
}

#[test]
fn granule_that_is_never_quiet(rt: HostRuntime) -> Result<(), Fail> {
    let (most, words) = never_quiet(rt.alloc())?;
    assert_same(&rt, (most, words.as_slice()), (1, [1000].as_slice()));
    Ok(())
}

// In the case of each state once the search past time 20 is at two positions, of which one follows the other.
static TOLD: [Case; 14] = [
    (
        "operations_that_cannot_be_told_next: second after first",
        &[0],
        &[Step::Take(&[FIRST]), Step::Take(&[SECOND])],
    ),
    (
        "operations_that_cannot_be_told_next: first after second",
        &[0],
        &[Step::Take(&[SECOND]), Step::Refuse(FIRST)],
    ),
    (
        "operations_that_cannot_be_told_next: 29 past 30",
        &[0],
        &[
            Step::Take(&[FIRST, SECOND]),
            Step::Past(30, 1000),
            Step::Refuse(Timed::Done((29, 40), STORE_ADD, 4)),
        ],
    ),
    (
        "operations_that_cannot_be_told_next: 30 past 30",
        &[0],
        &[
            Step::Take(&[FIRST, SECOND]),
            Step::Past(30, 1000),
            Step::Take(&[Timed::Done((30, 40), STORE_ADD, 4)]),
            Step::Leaves(&[7]),
        ],
    ),
    (
        "open_operations_may_have_had_effect: after one that ended",
        &[0],
        &[Step::Take(&[ENDED, OPEN]), Step::Leaves(&[1, 3])],
    ),
    (
        "open_operations_may_have_had_effect: after a wrong one",
        &[0],
        &[
            Step::Take(&[Timed::Told((0, 10), ADD, 1, 7), OPEN]),
            Step::Leaves(&[]),
        ],
    ),
    (
        "nothing_within_no_budget",
        &[0],
        &[
            Step::Take(&[ENDED]),
            Step::Looks(20, 1000, 0, (false, 0)),
            Step::Keeps(1),
        ],
    ),
    (
        "nothing_from_more_positions",
        &[0],
        &[
            Step::Take(&[ENDED, LONG]),
            Step::Looks(20, 2, 1000, (true, 4)),
            Step::Looks(20, 1, 1000, (false, 4)),
            Step::Looks(20, 0, 1000, (false, 2)),
        ],
    ),
    (
        "each_state_once",
        &[0],
        &[
            Step::Take(&[ENDED, LONG]),
            Step::Past(20, 1000),
            Step::Take(&[Timed::Done((25, 40), STORE_ADD, 4)]),
            Step::Looks(50, 1, 1000, (true, 4)),
        ],
    ),
    (
        "after_operations_that_come_in_turn: none",
        &[0],
        &[
            ADDITIONS,
            Step::After(&[], true),
            Step::Keeps(2),
            Step::Leaves(&[3]),
        ],
    ),
    (
        "after_operations_that_come_in_turn: the first",
        &[0],
        &[
            ADDITIONS,
            Step::After(&[0], true),
            Step::Keeps(1),
            Step::Leaves(&[3]),
        ],
    ),
    (
        "after_operations_that_come_in_turn: both",
        &[0],
        &[
            ADDITIONS,
            Step::After(&[0, 1], true),
            Step::Keeps(0),
            Step::Leaves(&[3]),
        ],
    ),
    (
        "after_operations_that_come_in_turn: the second before the first",
        &[0],
        &[ADDITIONS, Step::After(&[1, 0], false)],
    ),
    (
        "after_operations_that_come_in_turn: one that is not there",
        &[0],
        &[ADDITIONS, Step::After(&[0, 2], false)],
    ),
];

#[test]
fn operations_told_in_turn(rt: HostRuntime) -> Result<(), Fail> {
    assert_searches(&rt, &TOLD)
}
