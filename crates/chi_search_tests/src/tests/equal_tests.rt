//! Tests of operations that do the same, and were answered the same.

use super::found::{ANY, Case, NOTHING, Numbers, OrderCase, assert_each_found, assert_orders};
use super::operations::{ADD, SWAP, Timed};
use std::test::Fail;

const ADDITION: Timed = Timed::Told((0, 10), ADD, 1, 0);

const BACK: Timed = Timed::Told((0, 10), SWAP, 0, 1);

const ONE: Timed = Timed::Silent((0, 10), ADD, 1);

const HUNDRED: Timed = Timed::Silent((0, 10), SWAP, 100);

const OPS: [Timed; 10] = [
    ONE, ONE, ONE, ONE, ONE, HUNDRED, HUNDRED, HUNDRED, HUNDRED, HUNDRED,
];

static LOADS: [OrderCase; 3] = [
    ("two", &[ADDITION, ADDITION], None, &[999]),
    ("back", &[ADDITION, ADDITION, BACK], Some(1), &[0, 2, 1]),
    ("back last", &[ADDITION, ADDITION, BACK], Some(0), &[999]),
];

#[test]
fn loads_that_answered_the_same(rt: HostRuntime) -> Result<(), Fail> {
    assert_orders(&rt, &LOADS)
}

// Five additions of 1 that are open at once, whose replies were not seen, and five swaps.
static MANY: [Case; 2] = [
    (
        "105",
        &OPS,
        Some(105),
        (1000, ANY),
        Numbers::Many(6, None, None),
    ),
    ("106", &OPS, Some(106), (1000, ANY), NOTHING),
];

#[test]
fn many_whose_replies_were_not_seen(rt: HostRuntime) -> Result<(), Fail> {
    assert_each_found(&rt, &MANY)
}
