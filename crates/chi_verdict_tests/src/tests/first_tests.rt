//! Tests of where a trace stops being explained.

use crate::tests::blames::{Case, Says, assert_blamed};
use crate::tests::comparison::assert_same;
use crate::tests::traces::{HIGH, LOW, LOWER, NEXT, Timed, UPPER};
use crate::tests::verdicts::{self, Told, assert_verdicts, first};
use chi_search::NoProgress;
use chi_verdict::First;
use std::alloc::Global;
use std::test::Fail;

const LATER_REPLY: [Timed; 2] = [Timed::Add((0, 100), LOW, 7), Timed::Read((10, 20), LOW, 1)];

const EXPLAINED: [Timed; 2] = [Timed::Write((0, 10), LOW, 5), Timed::Read((11, 20), LOW, 5)];

static STOPS: [Case; 7] = [
    (
        "first_of_two_granules",
        &[
            Timed::Write((0, 10), HIGH, 5),
            Timed::Write((0, 10), LOW, 5),
            Timed::Read((11, 21), LOW, 6),
            Timed::Read((12, 20), HIGH, 0),
            Timed::Read((22, 30), HIGH, 5),
        ],
        16,
        &[Says::At(UPPER, 20, 3)],
    ),
    (
        "first_of_four_granules",
        &[
            Timed::Read((1, 10), LOW, 0),
            Timed::Read((31, 40), LOW + 16, 1),
            Timed::Read((41, 50), HIGH, 1),
            Timed::Read((51, 60), NEXT, 1),
            Timed::Read((71, 80), LOW, 1),
        ],
        16,
        &[Says::At(LOWER + 2, 40, 1)],
    ),
    (
        "reply_that_came_later_is_not_known_before",
        &LATER_REPLY,
        16,
        &[Says::At(LOWER, 100, 0)],
    ),
    ("explained_at_each_time", &EXPLAINED, 16, &[]),
    (
        "wrong_at_the_first_time_of_all",
        &[Timed::Read((0, 0), LOW, 1)],
        16,
        &[Says::At(LOWER, 0, 0)],
    ),
    (
        "nothing_to_blame",
        &[Timed::Write((0, 10), LOW, 5), Timed::Read((20, 30), LOW, 5)],
        16,
        &[],
    ),
    ("nothing_to_blame: no operations", &[], 16, &[]),
];

#[test]
fn where_traces_stop_being_explained(rt: HostRuntime) -> Result<(), Fail> {
    assert_blamed(&rt, &STOPS)
}

// The words at the end have no part in that.
static ENDS: [verdicts::Case; 2] = [
    (
        "reply_that_came_later_is_not_known_before",
        &[],
        &LATER_REPLY,
        &[],
        Told::Unexplained(LOWER),
    ),
    (
        "explained_at_each_time",
        &[],
        &EXPLAINED,
        &[(LOW, 6)],
        Told::Unexplained(LOWER),
    ),
];

#[test]
fn those_that_are_not_explained_at_the_end(rt: HostRuntime) -> Result<(), Fail> {
    assert_verdicts(&rt, &ENDS)
}

// In the lost update the last two that are open before 50 have not answered, and each may have taken effect: the word is 2, 3 or 4
// then, and not the 1 that is answered. In the last case two additions of 1 end at 40 and both answer 5: either may be the wrong one,
// and the first request is blamed. Of the others that had ended by then one is shown, since no more are asked for.
static SAID: [Case; 3] = [
    (
        "what_is_said_of_the_blamed_operation",
        &[
            Timed::Write((0, 10), LOW, 5),
            Timed::Write((0, 50), HIGH, 6),
            Timed::Read((11, 20), LOW, 0),
            Timed::Read((15, 40), LOW, 5),
            Timed::Read((21, 40), LOW, 5),
        ],
        16,
        &[Says::Has(0), Says::Open(&[2, 3]), Says::Holds(&[5])],
    ),
    (
        "first_lost_update",
        &[
            Timed::Write((0, 90), LOW, 9),
            Timed::Add((0, 10), NEXT, 0),
            Timed::Add((20, 30), NEXT, 1),
            Timed::Add((35, 80), NEXT, 2),
            Timed::Add((40, 50), NEXT, 1),
            Timed::Add((60, 70), NEXT, 9),
        ],
        16,
        &[
            Says::At(NEXT / 8, 50, 4),
            Says::Starts(&[1, 2]),
            Says::Open(&[3, 4]),
            Says::Holds(&[2, 3, 4]),
        ],
    ),
    (
        "either_of_two_may_be_wrong",
        &[
            Timed::Write((0, 10), LOW, 5),
            Timed::Read((12, 20), LOW, 5),
            Timed::Add((25, 40), LOW, 5),
            Timed::Add((30, 40), LOW, 5),
        ],
        1,
        &[
            Says::Time(40, 2),
            Says::Suspects(&[2, 3]),
            Says::Before(&[3]),
        ],
    ),
];

#[test]
fn what_is_said_of_the_blamed_operation(rt: HostRuntime) -> Result<(), Fail> {
    assert_blamed(&rt, &SAID)
}

// Which granule is not decided within no state, if one is not. Where the trace stops being explained is an error.
fn undecided_at_once(alloc: Global, ops: &[Timed]) -> Result<Option<(u64, u64)>, Fail> {
    match first(alloc, ops, 16, 0, &mut NoProgress)? {
        First::Never => Ok(None),
        First::At(_) => Err(Fail::new("not explained at each time")),
        First::Undecided { granule, states } => Ok(Some((granule, states))),
    }
}

#[test]
fn nothing_to_blame_within_no_state(rt: HostRuntime) -> Result<(), Fail> {
    let ops = [Timed::Write((0, 10), LOW, 5), Timed::Read((20, 30), LOW, 5)];
    for (count, wanted) in [(2, Some((LOWER, 0))), (0, None)] {
        let found = undecided_at_once(rt.alloc(), &ops[..count])?;
        assert_same(&rt, (count, found), (count, wanted));
    }
    Ok(())
}
