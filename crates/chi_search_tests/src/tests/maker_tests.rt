//! Tests of operations that find what nothing leaves, and of last words that nothing leaves.

use super::found::{ANY, Case, Left, NOTHING, Numbers, assert_each_found};
use super::operations::{READ, Timed, WRITE};
use std::test::Fail;

// Thirty writes, all open at once, each of its own number in the first byte and in the last.
const THIRTY: Timed = Timed::Rising(30, (0, 20), WRITE, (1 << 56) | 1);

// The first three of them and a read of what the second wrote.
const THREE: [Timed; 2] = [
    Timed::Rising(3, (0, 20), WRITE, (1 << 56) | 1),
    Timed::Told((0, 20), READ, 0, 0x0200_0000_0000_0002),
];

// The first byte of one of the writes and the last one of another.
const BOTH: u64 = 0x0100_0000_0000_0002;

const ENOUGH: (u64, Left) = (1000, ANY);

static LEAVES_NOTHING: [Case; 9] = [
    (
        "byte_that_none_wrote: read beside",
        &[THIRTY, Timed::Told((0, 20), READ, 0, 77)],
        None,
        ENOUGH,
        NOTHING,
    ),
    (
        "byte_that_none_wrote: read after",
        &[THIRTY, Timed::Told((21, 30), READ, 0, 77)],
        None,
        ENOUGH,
        NOTHING,
    ),
    (
        "byte_that_none_wrote: last",
        &[THIRTY],
        Some(77),
        ENOUGH,
        NOTHING,
    ),
    (
        "bytes_that_two_wrote: read",
        &[THIRTY, Timed::Told((0, 20), READ, 0, BOTH)],
        None,
        ENOUGH,
        NOTHING,
    ),
    (
        "bytes_that_two_wrote: last",
        &[THIRTY],
        Some(BOTH),
        ENOUGH,
        NOTHING,
    ),
    (
        "word_that_one_wrote: third",
        &THREE,
        Some(0x0300_0000_0000_0003),
        ENOUGH,
        Numbers::These(&[0, 1, 3, 2]),
    ),
    (
        "word_that_one_wrote: first",
        &THREE,
        Some(0x0100_0000_0000_0001),
        ENOUGH,
        Numbers::These(&[1, 3, 2, 0]),
    ),
    (
        "nothing_is_found_at_once: 0",
        &[THIRTY],
        Some(77),
        (0, (0, 0)),
        NOTHING,
    ),
    (
        "nothing_is_found_at_once: 1000",
        &[THIRTY],
        Some(77),
        (1000, (1000, 1000)),
        NOTHING,
    ),
];

#[test]
fn words_that_nothing_leaves(rt: HostRuntime) -> Result<(), Fail> {
    assert_each_found(&rt, &LEAVES_NOTHING)
}
