//! Tests of the orders of a search whose operations are told one after the other, from several positions, worked by hand.

use super::found::{ANY, Left, NOTHING, Numbers, SPENT};
use super::frontier_steps::{Case, Step, assert_searches};
use super::operations::{ADD, READ, STORE_ADD, Timed, WRITE};
use std::test::Fail;

const ENOUGH: (u64, Left) = (1000, ANY);

// An addition of 1, and one of 2 that found 0.
const ADDITIONS: Step<'static> = Step::Take(&[
    Timed::Done((0, 10), STORE_ADD, 1),
    Timed::Told((5, 15), ADD, 2, 0),
]);

// Two writes at the same time that are settled for good, of 5 and of 6.
const WRITES: Step<'static> = Step::Take(&[
    Timed::Done((0, 10), WRITE, 5),
    Timed::Done((0, 12), WRITE, 6),
]);

// A read of 1,000 and eighteen additions of multiples of 7, all at the same time.
const SEVENS: Step<'static> = Step::Take(&[
    Timed::Told((0, 10), READ, 0, 1000),
    Timed::Rising(18, (0, 20), STORE_ADD, 7),
]);

static ORDERS: [Case; 9] = [
    (
        "order_that_leaves_the_final_word: not told",
        &[0],
        &[
            ADDITIONS,
            Step::Orders(None, ENOUGH, Numbers::These(&[1, 0])),
        ],
    ),
    (
        "order_that_leaves_the_final_word: 3",
        &[0],
        &[
            ADDITIONS,
            Step::Orders(Some(3), ENOUGH, Numbers::These(&[1, 0])),
        ],
    ),
    (
        "order_that_leaves_the_final_word: 2",
        &[0],
        &[ADDITIONS, Step::Orders(Some(2), ENOUGH, NOTHING)],
    ),
    (
        "order_from_whichever_position_has_one: read of 5",
        &[0],
        &[
            WRITES,
            Step::Past(20, 100),
            Step::Take(&[Timed::Told((20, 30), READ, 0, 5)]),
            Step::Keeps(1),
            Step::Orders(Some(5), ENOUGH, Numbers::These(&[0])),
            Step::Orders(Some(6), ENOUGH, NOTHING),
        ],
    ),
    (
        "order_from_whichever_position_has_one: read of 6",
        &[0],
        &[
            WRITES,
            Step::Past(20, 100),
            Step::Take(&[Timed::Told((20, 30), READ, 0, 6)]),
            Step::Orders(Some(6), ENOUGH, Numbers::These(&[0])),
        ],
    ),
    (
        "order_from_whichever_position_has_one: read of 7",
        &[0],
        &[
            WRITES,
            Step::Past(20, 100),
            Step::Take(&[Timed::Told((20, 30), READ, 0, 7)]),
            Step::Orders(None, ENOUGH, NOTHING),
        ],
    ),
    (
        "position_that_would_take_the_whole_budget: alone",
        &[0],
        &[
            SEVENS,
            Step::Orders(None, (1000, SPENT), Numbers::These(&[998])),
        ],
    ),
    (
        "position_that_would_take_the_whole_budget: beside another",
        &[0, 1000],
        &[
            SEVENS,
            Step::Orders(None, (1000, (1, 1000)), Numbers::Many(19, Some(0), None)),
        ],
    ),
    (
        "no_order_within_no_budget",
        &[0],
        &[
            Step::Take(&[Timed::Done((0, 10), STORE_ADD, 1)]),
            Step::Orders(None, (0, SPENT), Numbers::These(&[998])),
        ],
    ),
];

#[test]
fn orders_of_operations_told_in_turn(rt: HostRuntime) -> Result<(), Fail> {
    assert_searches(&rt, &ORDERS)
}
