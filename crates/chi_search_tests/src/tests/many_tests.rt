//! Tests of many operations that are open at once, and of the budget.

use super::found::{ANY, Case, Numbers, SPENT, assert_each_found};
use super::operations::{READ, STORE_ADD, Timed};
use std::test::Fail;

const THREE: [Timed; 2] = [
    Timed::Told((0, 10), READ, 0, 3),
    Timed::Same(3, (0, 20), STORE_ADD, 1),
];

// A read of so many, and so many additions of 1 that end after it and start before it ends.
static AMONG: [Case; 3] = [
    (
        "read_after_two_hundred_that_end_later",
        &[
            Timed::Told((0, 10), READ, 0, 200),
            Timed::Same(200, (0, 20), STORE_ADD, 1),
        ],
        Some(200),
        (1000, ANY),
        Numbers::Many(201, Some(1), Some(0)),
    ),
    (
        "undecided_where_the_budget_was_spent: enough",
        &THREE,
        None,
        (6, (2, 2)),
        Numbers::Many(4, None, None),
    ),
    (
        "undecided_where_the_budget_was_spent: short",
        &THREE,
        None,
        (4, SPENT),
        Numbers::These(&[998]),
    ),
];

#[test]
fn read_among_additions_that_end_later(rt: HostRuntime) -> Result<(), Fail> {
    assert_each_found(&rt, &AMONG)
}
