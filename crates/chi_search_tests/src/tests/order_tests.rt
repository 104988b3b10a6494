//! Tests of a few operations whose answers were worked by hand, each of which has a reply.

use super::found::{OrderCase, assert_orders};
use super::operations::{ADD, READ, SWAP, Timed, WRITE};
use std::test::Fail;

const FIRST: Timed = Timed::Told((0, 10), ADD, 1, 0);

const KEPT: Timed = Timed::Told((5, 15), ADD, 1, 1);

const FIVE: Timed = Timed::Done((0, 10), WRITE, 5);

const SEVEN_FOR_THREE: Timed = Timed::Told((0, 10), SWAP, 7, 3);

const THREE_FOR_NONE: Timed = Timed::Told((0, 20), SWAP, 3, 0);

const LATER: Timed = Timed::Done((0, 20), WRITE, 1);

const SOONER: Timed = Timed::Done((0, 10), WRITE, 2);

static FEW: [OrderCase; 11] = [
    (
        "lost_update",
        &[FIRST, Timed::Told((5, 15), ADD, 1, 0)],
        None,
        &[999],
    ),
    ("lost_update: kept", &[FIRST, KEPT], Some(2), &[0, 1]),
    (
        "lost_update: kept, lost last",
        &[FIRST, KEPT],
        Some(1),
        &[999],
    ),
    (
        "stale_read: late",
        &[FIVE, Timed::Told((11, 30), READ, 0, 0)],
        None,
        &[999],
    ),
    (
        "stale_read: touching",
        &[FIVE, Timed::Told((10, 30), READ, 0, 0)],
        Some(5),
        &[1, 0],
    ),
    (
        "swaps_in_the_order_of_their_answers: 7",
        &[SEVEN_FOR_THREE, THREE_FOR_NONE],
        Some(7),
        &[1, 0],
    ),
    (
        "swaps_in_the_order_of_their_answers: 3",
        &[SEVEN_FOR_THREE, THREE_FOR_NONE],
        Some(3),
        &[999],
    ),
    (
        "swaps_in_the_order_of_their_answers: a read of 9",
        &[
            SEVEN_FOR_THREE,
            THREE_FOR_NONE,
            Timed::Told((0, 30), READ, 0, 9),
        ],
        None,
        &[999],
    ),
    (
        "operations_out_of_order_are_not_searched: the later first",
        &[LATER, SOONER],
        None,
        &[997],
    ),
    (
        "operations_out_of_order_are_not_searched: backwards",
        &[Timed::Done((20, 10), WRITE, 2)],
        None,
        &[997],
    ),
    (
        "operations_out_of_order_are_not_searched: in order",
        &[SOONER, LATER],
        Some(2),
        &[1, 0],
    ),
];

#[test]
fn few_operations_with_replies(rt: HostRuntime) -> Result<(), Fail> {
    assert_orders(&rt, &FEW)
}
