//! Tests of traces of one granule, and of the words at their end, whose answers were worked by hand.

use crate::tests::traces::{COMPARE, LOW, LOWER, NEXT, Sent, Timed};
use crate::tests::verdicts::{Case, Told, assert_verdicts};
use std::test::Fail;

const LOWER_FAILS: Told<'static> = Told::Unexplained(LOWER);

const THIN_AIR: [Timed; 2] = [Timed::Write((0, 10), LOW, 5), Timed::Read((0, 10), LOW, 7)];

const ONE: Timed = Timed::Swap((0, 10), LOW, 1, 2);

const FIRST: Timed = Timed::Swap((0, 10), LOW, 2, 0);

// Compares with 0 that swap 1 in, and 2.
const COMPARE_1: Sent = Sent {
    opcode: COMPARE,
    size: 4,
    addr: LOW,
    endian: false,
    be: 0xffff,
    lanes: 1 << 64,
};

const COMPARE_2: Sent = Sent {
    lanes: 2 << 64,
    ..COMPARE_1
};

const WON: Timed = Timed::BytesAnswered((0, 10), COMPARE_1, 0);

const WRITES: [Timed; 2] = [
    Timed::Write((0, 10), NEXT, 5),
    Timed::Write((0, 10), NEXT, 6),
];

static TRACES: [Case; 12] = [
    ("value_out_of_thin_air", &[], &THIN_AIR, &[], LOWER_FAILS),
    (
        "value_out_of_thin_air: at the opening",
        &[(LOW, 7)],
        &THIN_AIR,
        &[],
        Told::Ordered(&[1, 0]),
    ),
    (
        "two_swaps_exchanged: both",
        &[],
        &[ONE, Timed::Swap((0, 10), LOW, 2, 1)],
        &[],
        LOWER_FAILS,
    ),
    (
        "two_swaps_exchanged: 2 last",
        &[],
        &[ONE, FIRST],
        &[(LOW, 2)],
        LOWER_FAILS,
    ),
    (
        "two_swaps_exchanged: 1 last",
        &[],
        &[ONE, FIRST],
        &[(LOW, 1)],
        Told::Ordered(&[1, 0]),
    ),
    (
        "compare_that_both_won",
        &[],
        &[WON, Timed::BytesAnswered((0, 10), COMPARE_2, 0)],
        &[],
        LOWER_FAILS,
    ),
    (
        "compare_that_both_won: one lost",
        &[],
        &[Timed::BytesAnswered((0, 10), COMPARE_2, 1), WON],
        &[(LOW, 1)],
        Told::Ordered(&[1, 0]),
    ),
    (
        "words_at_the_end: 5",
        &[],
        &WRITES,
        &[(LOW, 0), (NEXT, 5)],
        Told::Ordered(&[1, 0]),
    ),
    (
        "words_at_the_end: 6",
        &[],
        &WRITES,
        &[(LOW, 0), (NEXT, 6)],
        Told::Ordered(&[0, 1]),
    ),
    (
        "words_at_the_end: no write",
        &[],
        &WRITES,
        &[(LOW, 0), (NEXT, 7)],
        Told::Unexplained(NEXT / 8),
    ),
    (
        "words_at_the_end: other word",
        &[],
        &WRITES,
        &[(LOW, 1), (NEXT, 6)],
        LOWER_FAILS,
    ),
    (
        "words_at_the_end: not told",
        &[],
        &[Timed::Write((0, 10), NEXT, 5)],
        &[],
        Told::Explained(1),
    ),
];

#[test]
fn traces_of_one_granule(rt: HostRuntime) -> Result<(), Fail> {
    assert_verdicts(&rt, &TRACES)
}
